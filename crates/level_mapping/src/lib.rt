// Mapping a sheet by given plans, each of which meets a demand on levels (02, #107): what is asked of the plans, the promise, and the laws of it.
// They are all in specs/: the code is in `plan_runner`.
#![tactic(auto)]
