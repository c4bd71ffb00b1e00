// The gates of a sheet in the search for the fewest levels: laws of their trees, of who reads whom, of their lines and of what is asked of them. They are all in specs/.
#![tactic(auto)]
