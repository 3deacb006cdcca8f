// Document 01's cases, computed from the definitions that the public calls' contracts cite. No code of its own.
#![tactic(auto)]
