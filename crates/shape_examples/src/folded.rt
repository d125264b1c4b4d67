// Reductions.
ghost use Rattle.std.specs.Prelude.{◌≡◌, ◌≤◌, true, leb};
ghost use Rattle.shape.specs.Index.{size, volume};
ghost use Rattle.shape.specs.Dims.{dims_of};
ghost use Rattle.shown_shapes.specs.Fit.{Few};

use element::ElementType;
use scalar::Body;
use shape::Shape;

// reduce: 000; 01: add over dimension 1, start 0
pub fn sums_examples(rt: &impl Print) {
    let x0 = [0u64, 1, 2, 3, 4, 5];
    let mut out0 = [0u64; 1];
    shown_shapes::reduce(
        rt,
        b"reduce",
        Body::Add,
        ElementType::I64,
        &x0,
        Shape {
            rank: 2,
            dims: [1usize, 6, 0, 0, 0, 0],
        },
        [1usize, 0, 0, 0, 0, 0],
        1,
        0,
        Shape {
            rank: 1,
            dims: [1usize, 0, 0, 0, 0, 0],
        },
        &mut out0,
    );
    let x1 = [1u64, 2, 3, 4, 5, 6];
    let mut out1 = [0u64; 2];
    shown_shapes::reduce(
        rt,
        b"reduce",
        Body::Add,
        ElementType::I32,
        &x1,
        Shape {
            rank: 2,
            dims: [2usize, 3, 0, 0, 0, 0],
        },
        [1usize, 0, 0, 0, 0, 0],
        1,
        0,
        Shape {
            rank: 1,
            dims: [2usize, 0, 0, 0, 0, 0],
        },
        &mut out1,
    );
}

// reduce of 1 to 6, of shape 2x3, with a result of N elements
fn body_example<const N: usize>(
    rt: &impl Print,
    b: Body,
    t: ElementType,
    start: u64,
    dimensions: [usize; 6],
    count: usize,
    to: Shape,
)
    requires { (leb to.rank 6 ≡ true) × (leb (volume (dims_of to)) 4096 ≡ true) × (N ≡ size (dims_of to)) × (N ≤ 4096) × Few count }
{
    let x = [1, 2, 3, 4, 5, 6];
    let from = Shape {
        rank: 2,
        dims: [2, 3, 0, 0, 0, 0],
    };
    let mut out = [0; N];
    shown_shapes::reduce(
        rt, b"reduce", b, t, &x, from, dimensions, count, start, to, &mut out,
    );
}

// reduce with the other bodies, from their identities (01, "Identities")
pub fn bodies_examples(rt: &impl Print) {
    let columns = [0, 0, 0, 0, 0, 0];
    let rows = [1, 0, 0, 0, 0, 0];
    let whole = [0, 1, 0, 0, 0, 0];
    let three = Shape {
        rank: 1,
        dims: [3, 0, 0, 0, 0, 0],
    };
    let two = Shape {
        rank: 1,
        dims: [2, 0, 0, 0, 0, 0],
    };
    let single = Shape {
        rank: 0,
        dims: [0, 0, 0, 0, 0, 0],
    };
    body_example::<3>(rt, Body::Multiply, ElementType::I32, 1, columns, 1, three);
    body_example::<2>(
        rt,
        Body::Maximum,
        ElementType::I8,
        18446744073709551488,
        rows,
        1,
        two,
    );
    body_example::<2>(rt, Body::Minimum, ElementType::I8, 127, rows, 1, two);
    body_example::<1>(
        rt,
        Body::And,
        ElementType::I32,
        18446744073709551615,
        whole,
        2,
        single,
    );
    body_example::<2>(rt, Body::Or, ElementType::I32, 0, rows, 1, two);
    body_example::<3>(rt, Body::Xor, ElementType::I32, 0, columns, 1, three);
}
