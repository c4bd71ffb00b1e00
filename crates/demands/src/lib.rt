// The user's three demands and their laws, over the contracts of `part` and `listing`. There is no code.
#![tactic(auto)]
