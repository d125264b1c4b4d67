// reduce: each element of the result is the fold of its row (01, "Reductions").
#![tactic(auto)]

ghost use Rattle.std.specs.Prelude.{◌≡◌, ◌≤◌, ◌<◌, length, take};
ghost use Rattle.lists.specs.Lists.{tab};
ghost use Rattle.run.specs.Tree.{fold};
ghost use Rattle.scalar.specs.Body.{body_of};
ghost use Rattle.shape.specs.Index.{at, size, unravel, element_at, in_six};
ghost use Rattle.shape.specs.Dims.{dims_of, shape_from, Sized, Fills};
ghost use Rattle.shape.specs.Place.{is_in};
ghost use Rattle.reduction.specs.Rows.{inserted, row_over, row_for_index, slice_shape, reduced, ReduceStretches};

use element::ElementType;
use limits::Limits;
use scalar::Body;
use shape::Shape;

// Whether dimension d is reduced.
fn is_in(dimensions: [usize; Limits::LIST], count: usize, d: usize) -> bool
    requires { count ≤ 6 }
    ensures { result ≡ is_in (take count dimensions) d }
{
    shape::place_in(dimensions, count, d).is_some()
}

// The dimensions that are reduced.
fn slice_shape(from: Shape, dimensions: [usize; Limits::LIST], count: usize) -> Shape
    requires { (from.rank ≤ 6) × (count ≤ 6) }
    ensures { result ≡ shape_from (slice_shape (take count dimensions) (dims_of from)) }
{
    let mut taken = [0; Limits::RANK];
    let mut n = 0;
    for d in 0..from.rank {
        if is_in(dimensions, count, d) {
            taken[n] = from.dims[d];
            n += 1;
        }
    }
    Shape {
        rank: n,
        dims: taken,
    }
}

// The operand's index for the index j of the result and the index r of the input slice.
fn insert_index(
    dimensions: [usize; Limits::LIST],
    count: usize,
    rank: usize,
    j: [usize; Limits::RANK],
    r: [usize; Limits::RANK],
) -> [usize; Limits::RANK]
    requires { (count ≤ 6) × (rank ≤ 6) }
    ensures { result ≡ in_six (tab rank (inserted (take count dimensions) (at j) (at r))) }
{
    let mut index = [0; Limits::RANK];
    let mut n = 0;
    for d in 0..rank {
        if is_in(dimensions, count, d) {
            index[d] = r[n];
            n += 1;
        } else {
            index[d] = j[d - n];
        }
    }
    index
}

// Element q of the row at the index j of the result; inner is the shape of an input slice.
fn row_element(
    x: &[u64],
    from: Shape,
    dimensions: [usize; Limits::LIST],
    count: usize,
    inner: Shape,
    j: [usize; Limits::RANK],
    q: usize,
) -> u64
    requires { Sized from × Fills x.now from × (count ≤ 6) × Sized inner × (q < size (dims_of inner)) }
    ensures { result ≡ element_at x.now (dims_of from) (tab (length (dims_of from)) (inserted (take count dimensions) (at j) (at (unravel (dims_of inner) q)))) 0 }
{
    let r = shape::index_at(inner, q);
    let i = insert_index(dimensions, count, from.rank, j, r);
    shape::element_at(x, from, i, 0)
}

// The fold of the row at the index j of the result.
fn fold_row(
    b: Body,
    t: ElementType,
    x: &[u64],
    from: Shape,
    dimensions: [usize; Limits::LIST],
    count: usize,
    start: u64,
    inner: Shape,
    j: [usize; Limits::RANK],
) -> u64
    requires { Sized from × Fills x.now from × (count ≤ 6) × Sized inner }
    ensures { result ≡ fold (body_of b t) start (row_over (take count dimensions) (dims_of from) x.now (dims_of inner) (at j)) }
{
    let n = shape::size_of(inner);
    let mut value = start;
    for q in 0..n {
        let y = row_element(x, from, dimensions, count, inner, j, q);
        value = scalar::apply_body(b, t, value, y);
    }
    value
}

// Element k of the result.
fn reduced_at(
    b: Body,
    t: ElementType,
    x: &[u64],
    from: Shape,
    dimensions: [usize; Limits::LIST],
    count: usize,
    start: u64,
    to: Shape,
    k: usize,
) -> u64
    requires { Sized from × Sized to × Fills x.now from × (count ≤ 6) × (k < size (dims_of to)) }
    ensures { result ≡ fold (body_of b t) start (row_for_index (take count dimensions) (dims_of from) x.now (unravel (dims_of to) k)) }
{
    let inner = slice_shape(from, dimensions, count);
    let j = shape::index_at(to, k);
    fold_row(b, t, x, from, dimensions, count, start, inner, j)
}

pub fn reduce(
    b: Body,
    t: ElementType,
    x: &[u64],
    from: Shape,
    dimensions: [usize; Limits::LIST],
    count: usize,
    start: u64,
    to: Shape,
    out: &mut [u64],
)
    requires { ReduceStretches from to count x.now out.old }
    ensures { out.new ≡ reduced b t (take count dimensions) (dims_of from) (dims_of to) start x.now }
{
    for k in 0..out.len() {
        out[k] = reduced_at(b, t, x, from, dimensions, count, start, to, k);
    }
}
