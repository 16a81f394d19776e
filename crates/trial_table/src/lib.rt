// The trial runs that are proved: a table in specs/, and one claim over all its rows in proofs/. There is no code.
#![tactic(auto)]
