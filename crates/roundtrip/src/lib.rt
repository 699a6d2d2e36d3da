// No code: the claims of specs/ and their proofs.
#![tactic(auto)]
