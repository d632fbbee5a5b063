// R-13: which answers no later byte changes. The definitions and laws in specs/ are all there is: nothing here runs, and no program stands on it.
#![tactic(auto)]
