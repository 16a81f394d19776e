// What turns and replies answer, and the payload that a turn writes: by value, with no table of balances.
#![tactic(auto)]

pub mod reply_answer;
pub mod turn;
