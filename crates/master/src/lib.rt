// The DP master: one record over lent pools, which its calls change where it stands.
#![tactic(auto)]

pub mod add;
pub mod handle;
pub mod receive;
pub mod turn;
pub mod unit;
