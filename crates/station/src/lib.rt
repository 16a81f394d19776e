// A station as the master sees it, and every decision about it: by value, on a few numbers, with no bytes.
#![tactic(auto)]

pub mod heard;
pub mod record;
pub mod state;
pub mod visit;
