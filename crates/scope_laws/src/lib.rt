// What the names of an op grant once none is refused: laws about the definitions. Nothing is computed here.
#![tactic(auto)]

pub fn nothing() {}
