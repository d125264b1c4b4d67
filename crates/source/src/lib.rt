// The program of a text as lists of its tokens by role: definitions and laws. Nothing is computed here.
#![tactic(auto)]

pub fn nothing() {}
