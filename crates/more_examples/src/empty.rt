// Tensors without elements. A shape is its rank and its sizes, zeros behind them.
ghost use Rattle.std.specs.Prelude.{◌≡◌, length};

use crate::given::given;
use element::ElementType;
use scalar::{Body, Unary};
use shape::Shape;

// reduce: no elements in a row of 2x0, the start comes out twice
fn rows_of_none(rt: &impl Print) {
    let x = given::<0>(rt, []);
    let start = given(rt, [5]);
    let mut out = [0u64; 2];
    shown_shapes::reduce(
        rt,
        b"reduce",
        Body::Add,
        ElementType::I32,
        &x,
        Shape {
            rank: 2,
            dims: [2usize, 0, 0, 0, 0, 0],
        },
        [1usize, 0, 0, 0, 0, 0],
        1,
        start[0],
        Shape {
            rank: 1,
            dims: [2usize, 0, 0, 0, 0, 0],
        },
        &mut out,
    );
}

// reduce: no elements at all, the start comes out once
fn whole_of_none(rt: &impl Print) {
    let x = given::<0>(rt, []);
    let start = given(rt, [18446744073709551488]);
    let mut out = [0u64; 1];
    shown_shapes::reduce(
        rt,
        b"reduce",
        Body::Maximum,
        ElementType::I8,
        &x,
        Shape {
            rank: 1,
            dims: [0usize, 0, 0, 0, 0, 0],
        },
        [0usize, 0, 0, 0, 0, 0],
        1,
        start[0],
        Shape {
            rank: 0,
            dims: [0usize, 0, 0, 0, 0, 0],
        },
        &mut out,
    );
}

// reduce over no elements (01, "Readings to rule out")
pub fn start_examples(rt: &impl Print) {
    rows_of_none(rt);
    whole_of_none(rt);
}

// negate and transpose of 2x0
fn moved_none(rt: &impl Print, x: &[u64])
    requires { length x.now ≡ 0 }
{
    let mut out = [0u64; 0];
    shown_elements::unary(rt, b"negate", Unary::Negate, ElementType::I32, x, &mut out);
    shown_shapes::transpose(
        rt,
        b"transpose",
        x,
        Shape {
            rank: 2,
            dims: [2usize, 0, 0, 0, 0, 0],
        },
        [1usize, 0, 0, 0, 0, 0],
        Shape {
            rank: 2,
            dims: [0usize, 2, 0, 0, 0, 0],
        },
        &mut out,
    );
}

// reduce of 2x0 over dimension 0, whose result has no elements
fn columns_of_none(rt: &impl Print, x: &[u64])
    requires { length x.now ≡ 0 }
{
    let start = given(rt, [5]);
    let mut out = [0u64; 0];
    shown_shapes::reduce(
        rt,
        b"reduce",
        Body::Add,
        ElementType::I32,
        x,
        Shape {
            rank: 2,
            dims: [2usize, 0, 0, 0, 0, 0],
        },
        [0usize, 0, 0, 0, 0, 0],
        1,
        start[0],
        Shape {
            rank: 1,
            dims: [0usize, 0, 0, 0, 0, 0],
        },
        &mut out,
    );
}

pub fn empty_examples(rt: &impl Print) {
    let x = given::<0>(rt, []);
    moved_none(rt, &x);
    columns_of_none(rt, &x);
}

// pad: 0 + 1 + max(0 - 1, 0) x 3 + 1 of the padding value
pub fn pad_examples(rt: &impl Print) {
    let x = given::<0>(rt, []);
    let z = given(rt, [9]);
    let mut out = [0u64; 2];
    shown_shapes::pad(
        rt,
        b"pad",
        &x,
        Shape {
            rank: 1,
            dims: [0usize, 0, 0, 0, 0, 0],
        },
        [1usize, 0, 0, 0, 0, 0],
        [3usize, 0, 0, 0, 0, 0],
        z[0],
        Shape {
            rank: 1,
            dims: [2usize, 0, 0, 0, 0, 0],
        },
        &mut out,
    );
}
