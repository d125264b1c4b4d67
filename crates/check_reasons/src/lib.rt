// Why a list of constraints is refused: the C number, the place and the two numbers that disagree. Definitions and laws; nothing is computed here.
#![tactic(auto)]

pub fn nothing() {}
