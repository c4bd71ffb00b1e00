// Laws of what the mapping program prints, that no proof of its functions needs: which adds it makes, what of it the rules settle, and how
// many bytes of an input decide it. There is no code.
#![tactic(auto)]
