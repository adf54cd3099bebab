// What a knowledge means. No function stands here: the crate holds the definitions of known ticks, normal form and the calls on
// knowledge, and the theorems on them.
#![tactic(auto)]
