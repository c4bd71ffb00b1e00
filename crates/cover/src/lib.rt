// Decompositions and covers of a tree, the tables of a cover, and their values: definitions and laws.
#![tactic(auto)]
