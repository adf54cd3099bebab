// What filling a table of words comes to. No function stands here.
#![tactic(auto)]
