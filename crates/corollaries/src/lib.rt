// No function stands here: the crate holds statements that follow from those of `replication` and on which no code stands, with their
// proofs, so that a change of the calls is proved first where code needs it.
#![tactic(auto)]
