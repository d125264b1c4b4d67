// What number tokens and tensor type tokens say.
#![tactic(auto)]

pub mod numbers;
pub mod tensors;
