// What holds over every series of calls, of any run. There is nothing to run here: the crate is its meanings (specs) and their laws (proofs).
#![tactic(auto)]
