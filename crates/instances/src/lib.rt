// No function stands here: the crate holds document 01's table of instances and the theorem over it.
#![tactic(auto)]
