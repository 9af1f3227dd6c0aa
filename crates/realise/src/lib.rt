// When a sheet realises an order, and that it does exactly where it is right. There is nothing to run here: the crate is its meanings (specs) and their laws (proofs).
#![tactic(auto)]
