// No code: what a writer of fields writes, the reader reads back.
#![tactic(auto)]
