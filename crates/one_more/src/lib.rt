// Laws of one leaf more at one gate of a sheet (02, #111). There is no code.
#![tactic(auto)]
