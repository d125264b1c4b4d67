// Ops that move elements. A shape is its rank and its sizes, zeros behind them.
ghost use Rattle.std.specs.Prelude.{◌≡◌, true, [], ◌∷◌, leb, take};
ghost use Rattle.shape.specs.Index.{size, volume};
ghost use Rattle.shape.specs.Dims.{dims_of};
ghost use Rattle.shown_shapes.specs.Fit.{IsAlong, IsTranspose};

use element::ElementType;
use shape::Shape;

fn iota_example(rt: &impl Print, dimension: usize)
    requires { IsAlong dimension (4 ∷ 5 ∷ []) }
{
    let mut out = [0; 20];
    shown_shapes::iota(
        rt,
        b"iota",
        ElementType::I32,
        dimension,
        Shape {
            rank: 2,
            dims: [4usize, 5, 0, 0, 0, 0],
        },
        &mut out,
    );
}

// iota: 000, along 0 and along 1
pub fn iota_examples(rt: &impl Print) {
    iota_example(rt, 0);
    iota_example(rt, 1);
}

// reshape: 000
pub fn reshape_examples(rt: &impl Print) {
    let x = [1u64, 2, 3, 4, 5, 6];
    let mut out = [0u64; 6];
    shown_shapes::reshape(
        rt,
        b"reshape",
        &x,
        Shape {
            rank: 2,
            dims: [2usize, 3, 0, 0, 0, 0],
        },
        Shape {
            rank: 2,
            dims: [3usize, 2, 0, 0, 0, 0],
        },
        &mut out,
    );
}

// transpose of 1 to 12, of shape 2x3x2
fn transpose_example(rt: &impl Print, permutation: [usize; 6], to: Shape)
    requires { (leb to.rank 6 ≡ true) × (leb (volume (dims_of to)) 4096 ≡ true) × (12 ≡ size (dims_of to)) × IsTranspose (take 3 permutation) (2 ∷ 3 ∷ 2 ∷ []) (dims_of to) }
{
    let x = [1, 2, 3, 4, 5, 6, 7, 8, 9, 10, 11, 12];
    let from = Shape {
        rank: 3,
        dims: [2, 3, 2, 0, 0, 0],
    };
    let mut out = [0; 12];
    shown_shapes::transpose(rt, b"transpose", &x, from, permutation, to, &mut out);
}

// transpose: 000; 01, "Transposing by the inverse permutation": a permutation that is not its own inverse
pub fn transpose_examples(rt: &impl Print) {
    let same = Shape {
        rank: 3,
        dims: [2, 3, 2, 0, 0, 0],
    };
    let turned = Shape {
        rank: 3,
        dims: [3, 2, 2, 0, 0, 0],
    };
    transpose_example(rt, [2, 1, 0, 0, 0, 0], same);
    transpose_example(rt, [1, 2, 0, 0, 0, 0], turned);
}

// reverse: 000
pub fn reverse_examples(rt: &impl Print) {
    let x = [1u64, 2, 3, 4, 5, 6];
    let mut out = [0u64; 6];
    shown_shapes::reverse(
        rt,
        b"reverse",
        &x,
        Shape {
            rank: 2,
            dims: [3usize, 2, 0, 0, 0, 0],
        },
        [1usize, 0, 0, 0, 0, 0],
        1,
        &mut out,
    );
}

// broadcast_in_dim: 000
pub fn broadcast_in_dim_examples(rt: &impl Print) {
    let x = [1u64, 2, 3];
    let mut out = [0u64; 12];
    shown_shapes::broadcast_in_dim(
        rt,
        b"broadcast_in_dim",
        &x,
        Shape {
            rank: 2,
            dims: [1usize, 3, 0, 0, 0, 0],
        },
        [2usize, 1, 0, 0, 0, 0],
        Shape {
            rank: 3,
            dims: [2usize, 3, 2, 0, 0, 0],
        },
        &mut out,
    );
}
