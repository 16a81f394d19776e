// What holds of every unit: no code, only definitions and proofs.
#![tactic(auto)]
