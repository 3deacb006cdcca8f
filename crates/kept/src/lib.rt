// The one theorem: all that is promised is kept. `proofs/` computes what has to be computed of 96 and of 48 rows, and there is no code.
#![tactic(auto)]
