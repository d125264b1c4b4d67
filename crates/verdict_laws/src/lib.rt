// The verdict in the words of 01 is the one that the code works out. Nothing is computed here.
#![tactic(auto)]

pub fn nothing() {}
