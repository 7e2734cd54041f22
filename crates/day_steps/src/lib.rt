// The steps of a day (U10): what is claimed of the worst moment, and the laws by which a loop over tables of nets and DVPs finds it: in specs/.
#![tactic(auto)]
