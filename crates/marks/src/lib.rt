// What is read of a text as it is handed on. Nothing is computed here.
#![tactic(auto)]

pub fn nothing() {}
