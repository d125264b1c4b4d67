// The ops of paper 01 by class. What each gives is defined in specs/Ops.antt; nothing is computed here.
#![tactic(auto)]

use division::Division;
use scalar::{Binary, Body, Direction, Unary};

// Ops that take each element of the result from an index of one operand.
#[derive(Clone, Copy)]
pub enum Move {
    Reshape,
    BroadcastInDim,
    Transpose,
    Slice,
    Reverse,
}

#[derive(Clone, Copy)]
pub enum Kind {
    Constant,
    Iota,
    Elementwise(Unary),
    Pairwise(Binary),
    Quotient(Division),
    Compare(Direction),
    Convert,
    Select,
    Clamp,
    Moved(Move),
    Pad,
    Concatenate,
    DynamicSlice,
    Reduce(Body),
}
