// No code: the definitions of specs/ and their laws.
#![tactic(auto)]
