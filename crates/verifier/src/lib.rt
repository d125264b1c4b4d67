// Refusals 5 to 8 of a text in the words of 01, over the program as lists of tokens: definitions and laws. Nothing is computed here.
#![tactic(auto)]

pub fn nothing() {}
