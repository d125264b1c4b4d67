// Scanning: bytes, runs, white space, and the ends of the productions that a tensor type is made of.
#![tactic(auto)]

pub mod bytes;
pub mod quantized;
pub mod typetext;
