// 01's marked cases: a crate of one fact, computed on the written meanings. There is no code here.
#![tactic(auto)]
