// Refusals 9 to 12 and an accepted run of short texts, with every slot of the store afterwards. Nothing is computed here.
#![tactic(auto)]

pub fn nothing() {}
