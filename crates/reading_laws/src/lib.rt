// What a text grants that reading passes (refusals 1 to 4 do not hold of it). Nothing is computed here.
#![tactic(auto)]

pub fn nothing() {}
