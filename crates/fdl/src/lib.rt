// What the DP layer takes from the fieldbus data link: codes, the header of a request, what a reply is, parameters.
#![tactic(auto)]

pub mod consts;
pub mod parameters;
pub mod telegram;
