// What the four requests carry, and what a diagnosis reply says.
#![tactic(auto)]

pub mod diagnosis;
pub mod options;
pub mod request;
pub mod write;
