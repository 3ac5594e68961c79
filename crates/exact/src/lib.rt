// That the numbers a run keeps are exact: one slot of the machine is one slot of the rules. Theorems alone, in specs/.
#![tactic(auto)]
