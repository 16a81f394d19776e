// One DP peripheral as a value: its record, the visit that a turn makes to it, and the reply that answers it.
// The record has numbers, bools and structs only, so that it can be stored to field by field and passed to C.
#![tactic(auto)]

pub mod record;
pub mod response;
pub mod visit;
