// What a call says in document 01's terms: an answer, or a refusal by its number. The definitions in specs/ are all there is: nothing here runs.
#![tactic(auto)]
