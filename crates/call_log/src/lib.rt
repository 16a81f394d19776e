// The log tells all: no code, only definitions and proofs.
#![tactic(auto)]
