// The worked examples of the clearing house's documents, computed by the model's definitions: in specs/.
#![tactic(auto)]
