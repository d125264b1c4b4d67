// 01, "Sizes", and what is counted from them. Size 7 has no number of its own: it is the range of i64 (`ElementType`).
#![tactic(auto)]

#[derive(Drop)]
pub struct Limits {}

impl Limits {
    // "Text up to 65,536 bytes".
    pub const TEXT: usize = 65536;

    // 1: "Rank at most 6."
    pub const RANK: usize = 6;

    // 2: "Each dimension, and the product of a shape's dimensions with every 0 counted as 1, at most 4,096."
    pub const VOLUME: usize = 4096;

    // What stands for every dimension and product above it.
    pub const PAST_VOLUME: usize = Self::VOLUME + 1;

    // 3: "Inputs and op results together at most 8,192 elements, body values not counted."
    pub const ELEMENTS: usize = 8192;

    // 4: "One function has at most 256 ops, its return and body ops not counted".
    pub const OPS: usize = 256;

    // 5: "At most 8 operands of an op, inputs, or results."
    pub const OPERANDS: usize = 8;

    // 6: "An attribute list has at most 6 numbers."
    pub const LIST: usize = 6;

    // 8: "A sigil and its name have at most 32 characters."
    pub const NAME: usize = 32;

    // The ops of one function and its return.
    pub const OPS_WITH_RETURN: usize = Self::OPS + 1;

    // "one per input or op value".
    pub const VALUES: usize = Self::OPERANDS + Self::OPS;
}
