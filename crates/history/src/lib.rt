// The numbers of a run's slice as a function of a sheet and the whole history of offers: definitions and their laws alone, in specs/.
#![tactic(auto)]
