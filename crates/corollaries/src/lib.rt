// What follows from the model and its laws for a reader: demands 1 and 2 case by case, the programs that they rule out, texts read back: in specs/.
#![tactic(auto)]
