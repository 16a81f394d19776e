// What a driver of call scripts holds between two lines, and what each line does there (docs/SCRIPTS.md): all but reading and writing.
#![tactic(auto)]

pub mod arrays;
pub mod calls;
pub mod pieces;
pub mod room;
pub mod run;
