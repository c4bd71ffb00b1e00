// A drawn sheet written as text, and what comes of reading it. There is no code.
#![tactic(auto)]
