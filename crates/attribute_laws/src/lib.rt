// An op's attributes by their names, as the verifier's rules have them, are those that the code reads. Nothing is computed here.
#![tactic(auto)]

pub fn nothing() {}
