// R-12: what can be said, and that it is read back. The definitions and laws in specs/ are all there is: nothing here runs, and no program stands on it.
#![tactic(auto)]
