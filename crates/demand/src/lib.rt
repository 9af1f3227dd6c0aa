// What the inspector and the planner promise together. There is nothing to run here: the crate is the third demand (specs) and its proof.
#![tactic(auto)]
