// No function stands here: the crate holds lists of calls under small limits and what they come to.
#![tactic(auto)]
