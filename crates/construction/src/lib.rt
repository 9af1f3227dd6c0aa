// The sheet that is planned for an order. There is nothing to run here: the crate is its meaning (specs) and its laws (proofs).
#![tactic(auto)]
