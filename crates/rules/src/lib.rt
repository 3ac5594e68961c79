// One slot of a run over the whole history of offers, as document 01 has it, and what a sheet that passes promises: definitions in specs/ and theorems in proofs/, and no code.
#![tactic(auto)]
