// Lists by index: the definitions and laws that every other crate fills, searches and tests lists by. Nothing is computed here.
#![tactic(auto)]

pub fn nothing() {}
