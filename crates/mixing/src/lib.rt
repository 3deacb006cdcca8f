// The mixing theorem over any machine of keys and posts: `specs/` and `proofs/` hold all of it, and there is no code.
#![tactic(auto)]
