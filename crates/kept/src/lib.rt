// What a sheet that passes promises, from its bytes to the packets that the slots note: the theorem of demand 3, in specs/.
#![tactic(auto)]
