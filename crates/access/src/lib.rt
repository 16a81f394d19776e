// What a caller reads of a unit, and writes into its outputs, by handle.
#![tactic(auto)]

// Functions, and no methods of the unit, which has them in a crate above its own; those of the input and of the output image bear the Rust's names. DECISIONS 22
pub mod diagnosis;
pub mod images;
pub mod listing;
pub mod lookup;
