// The run as a tool over every series of calls, and a caller who makes them. There is nothing to run here: the crate is its meanings (specs) and their laws (proofs).
#![tactic(auto)]
