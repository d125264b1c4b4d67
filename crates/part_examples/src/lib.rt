// Ops that take a part of a tensor, or put parts together.
#![tactic(auto)]

use element::ElementType;
use shape::Shape;

// slice: 01, start 1, limit 5, stride 2; 000
pub fn slice_examples(rt: &impl Print) {
    let x = [0u64, 1, 2, 3, 4];
    let mut out = [0u64; 2];
    shown_shapes::slice(
        rt,
        b"slice",
        &x,
        Shape {
            rank: 1,
            dims: [5usize, 0, 0, 0, 0, 0],
        },
        [1usize, 0, 0, 0, 0, 0],
        [5usize, 0, 0, 0, 0, 0],
        [2usize, 0, 0, 0, 0, 0],
        Shape {
            rank: 1,
            dims: [2usize, 0, 0, 0, 0, 0],
        },
        &mut out,
    );
    let y = [0u64, 0, 0, 0, 0, 0, 1, 1, 0, 0, 1, 1];
    let mut part = [0u64; 4];
    shown_shapes::slice(
        rt,
        b"slice",
        &y,
        Shape {
            rank: 2,
            dims: [3usize, 4, 0, 0, 0, 0],
        },
        [1usize, 2, 0, 0, 0, 0],
        [3usize, 4, 0, 0, 0, 0],
        [1usize, 1, 0, 0, 0, 0],
        Shape {
            rank: 2,
            dims: [2usize, 2, 0, 0, 0, 0],
        },
        &mut part,
    );
}

// pad: 01, low -1, interior 1, high 2; 000
pub fn pad_examples(rt: &impl Print) {
    let x = [1u64, 2, 3];
    let mut out = [7u64; 6];
    shown_shapes::pad(
        rt,
        b"pad",
        &x,
        Shape {
            rank: 1,
            dims: [3usize, 0, 0, 0, 0, 0],
        },
        [18446744073709551615usize, 0, 0, 0, 0, 0],
        [1usize, 0, 0, 0, 0, 0],
        0,
        Shape {
            rank: 1,
            dims: [6usize, 0, 0, 0, 0, 0],
        },
        &mut out,
    );
    let y = [1u64, 2, 3, 4, 5, 6];
    let mut wide = [7u64; 45];
    shown_shapes::pad(
        rt,
        b"pad",
        &y,
        Shape {
            rank: 2,
            dims: [2usize, 3, 0, 0, 0, 0],
        },
        [0usize, 1, 0, 0, 0, 0],
        [1usize, 2, 0, 0, 0, 0],
        0,
        Shape {
            rank: 2,
            dims: [5usize, 9, 0, 0, 0, 0],
        },
        &mut wide,
    );
}

// One row of the table, by a start of its type.
fn start_example(rt: &impl Print, t: ElementType, start: u64) {
    let x = [1650, 1675, 1700, 1725];
    let mut row = [0; 1];
    shown_shapes::dynamic_slice(
        rt,
        b"dynamic_slice",
        &x,
        Shape {
            rank: 1,
            dims: [4usize, 0, 0, 0, 0, 0],
        },
        t,
        [start, 0, 0, 0, 0, 0],
        Shape {
            rank: 1,
            dims: [1usize, 0, 0, 0, 0, 0],
        },
        &mut row,
    );
}

fn window_example(rt: &impl Print) {
    let y = [0u64, 0, 1, 1, 0, 0, 1, 1, 0, 0, 0, 0, 0, 0, 0, 0];
    let mut part = [0u64; 4];
    shown_shapes::dynamic_slice(
        rt,
        b"dynamic_slice",
        &y,
        Shape {
            rank: 2,
            dims: [4usize, 4, 0, 0, 0, 0],
        },
        ElementType::I64,
        [18446744073709551615u64, 3, 0, 0, 0, 0],
        Shape {
            rank: 2,
            dims: [2usize, 2, 0, 0, 0, 0],
        },
        &mut part,
    );
}

// dynamic_slice: 01, ui8 255 and i8 -1; 000, starts -1 and 3
pub fn dynamic_slice_examples(rt: &impl Print) {
    start_example(rt, ElementType::U8, 255);
    start_example(rt, ElementType::I8, 18446744073709551615);
    window_example(rt);
}

// concatenate: 000, [[1, 2], [3, 4], [5, 6]] and [[7, 8]] along dimension 0
pub fn concatenate_examples(rt: &impl Print) {
    let x = [1u64, 2, 3, 4, 5, 6, 7, 8];
    let none = Shape {
        rank: 0,
        dims: [0usize, 0, 0, 0, 0, 0],
    };
    let shapes = [
        Shape {
            rank: 2,
            dims: [3usize, 2, 0, 0, 0, 0],
        },
        Shape {
            rank: 2,
            dims: [1usize, 2, 0, 0, 0, 0],
        },
        none,
        none,
        none,
        none,
        none,
        none,
    ];
    let places = [0usize, 6, 0, 0, 0, 0, 0, 0];
    let mut out = [0u64; 8];
    shown_shapes::concatenate(
        rt,
        b"concatenate",
        &x,
        0,
        shapes,
        places,
        2,
        Shape {
            rank: 2,
            dims: [4usize, 2, 0, 0, 0, 0],
        },
        &mut out,
    );
}
