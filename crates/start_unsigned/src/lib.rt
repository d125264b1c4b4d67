// The texts on ui16 that meet the premise of demand 3. Nothing is computed here.
#![tactic(auto)]

pub fn nothing() {}
