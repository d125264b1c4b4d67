// Computed examples that hold the definitions of the values' layers, element to reduction. Nothing is computed here.
#![tactic(auto)]

pub fn nothing() {}
