// The fields of a script's lines (docs/SCRIPTS.md): numbers, flags and bytes, read and written.
#![tactic(auto)]

pub mod read;
pub mod write;
