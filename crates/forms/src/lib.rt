// Two forms of the Rust: the listing filled into a lent list, and the last diagnosis as one record.
// Whoever doesn't need them calls `access::listing` and `access::diagnosis`.
#![tactic(auto)]

pub mod diagnosis;
pub mod listing;
