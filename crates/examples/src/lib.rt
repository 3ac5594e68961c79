// The starred examples of document 01: a table, and the one claim that all its rows hold. Theorems alone, in specs/.
#![tactic(auto)]
