// The master's own state, and every decision of a turn and of a reply that needs no table of peripherals: by value, on a few numbers.
#![tactic(auto)]

pub mod refusal;
pub mod seen;
pub mod state;
