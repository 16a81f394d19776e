// Any two results that a contract allows coincide: no code, only statements and their proofs.
#![tactic(auto)]
