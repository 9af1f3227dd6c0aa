// The four parts of an order. There is nothing to run here: the crate is their meanings (specs) and laws (proofs).
#![tactic(auto)]
