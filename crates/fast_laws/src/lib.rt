// Laws of what the program for the fewest levels prints: which adds it makes, what of it the rules settle, and its slack lines, sheet by sheet.
// There is no code.
#![tactic(auto)]
