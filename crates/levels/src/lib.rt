// Levels of covers, and the laws of the search for the fewest (02, #107). There is no code.
#![tactic(auto)]
