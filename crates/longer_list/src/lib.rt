// No function stands here: the crate holds what a list of twenty-six calls comes to.
#![tactic(auto)]
