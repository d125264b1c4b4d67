// The program as lists of tokens against the parts, the places and the values that the code notes: laws. Nothing is computed here.
#![tactic(auto)]

pub fn nothing() {}
