// Laws that a page names (docs/PORT.md), or that say more than what a proof needs today, and that no proof cites any more. They hold of the definitions as they stand, so they stay to be cited; nothing here runs.
#![tactic(auto)]
