// The ops that move elements: each fills exactly the stretch of its result (01, "Shape by shape").
#![tactic(auto)]

ghost use Rattle.std.specs.Prelude.{◌≡◌, ℕ, map, ◌^◌, ◌≤◌, ◌<◌, length, take, pos, unwrap_or};
ghost use Rattle.element.specs.Types.{value_of, wrap_to};
ghost use Rattle.shape.specs.Index.{at, size, unravel, in_six};
ghost use Rattle.shape.specs.Dims.{dims_of, Sized, Fills};
ghost use Rattle.shape.specs.Whole.{number_of};
ghost use Rattle.maps.specs.Formulas.{pad_step, pad_coord, broadcast_coord, reverse_coord, reshaped, broadcasted, transposed, sliced, reversed, padded, clamp_start, adjusted_start, dynamic_sliced, counted};
ghost use Rattle.maps.specs.Concatenation.{concat_at, concatenated, shapes_of, inputs_in};
ghost use Rattle.lists.specs.Lists.{tab};
ghost use Rattle.maps.specs.Kinds.{coord_of, Computes, MapReady, operand_index, mapped_at, mapped, Fed};
ghost use Rattle.maps.specs.Holds.{Stretches, ReshapeHolds, TransposeHolds, SliceHolds, PadHolds, DynamicSliceHolds, IotaHolds, ConcatenateHolds, InputsLaid};

use element::ElementType;
use limits::Limits;
use shape::Shape;

// The op whose formula maps the indices.
#[derive(Clone, Copy)]
enum Kind {
    Transpose,
    Slice,
    Reverse,
    Broadcast,
    Pad,
}

// An op with its attribute lists: a is permutation, start_indices, dimensions, broadcast_dimensions or edge_padding_low; b is strides or
// interior_padding; count is the length of a permutation or of dimensions.
// Kept: one record for the five ops, since the definitions of specs/Kinds read it.
#[derive(Clone, Copy)]
struct Map {
    kind: Kind,
    count: usize,
    a: [usize; Limits::LIST],
    b: [usize; Limits::LIST],
}

// The number at a place of a list of six, 0 past its end.
fn at_or_zero(list: [usize; Limits::LIST], p: usize) -> usize
    ensures { result ≡ at list p }
{
    list.get(p).copied().unwrap_or(0)
}

fn reverse_coordinate(
    dimensions: [usize; Limits::LIST],
    count: usize,
    n: usize,
    x: usize,
    d: usize,
) -> usize
    requires { (count ≤ 6) × (x < n) }
    ensures { result ≡ reverse_coord (take count dimensions) n x d }
{
    if shape::place_in(dimensions, count, d).is_some() {
        n - x - 1
    } else {
        x
    }
}

fn broadcast_coordinate(n: usize, x: usize) -> usize
    ensures { result ≡ broadcast_coord n x }
{
    if n == 1 { 0 } else { x }
}

// The operand's coordinate at t above the low edge.
fn pad_step(interior: usize, t: usize) -> Option<usize>
    requires { interior < 2 ^ 63 }
    ensures { (n : ℕ) → unwrap_or result n ≡ pad_step interior n (pos t) }
{
    let q = interior + 1;
    if t % q == 0 { Some(t / q) } else { None }
}

// The operand's coordinate for the result's coordinate x.
fn pad_coordinate(low: usize, interior: usize, x: usize) -> Option<usize>
    requires { (x < 2 ^ 63) × (interior < 2 ^ 63) }
    ensures { (n : ℕ) → unwrap_or result n ≡ pad_coord (number_of low) interior n x }
{
    if low < 0x8000_0000_0000_0000 {
        pad_step(interior, x.checked_sub(low)?)
    } else {
        pad_step(interior, x + low.wrapping_neg())
    }
}

// The coordinate of the operand's index in dimension d, of size n; n where the operand has none.
fn coordinate(m: Map, n: usize, index: [usize; Limits::RANK], d: usize) -> usize
    requires { (m.count ≤ 6) × (d < 6) × Computes m n (at index) d }
    ensures { result ≡ coord_of m n (at index) d }
{
    match m.kind {
        Kind::Transpose => {
            at_or_zero(index, shape::place_in(m.a, m.count, d).unwrap_or(m.count))
        }
        Kind::Slice => m.a[d] + index[d] * m.b[d],
        Kind::Reverse => reverse_coordinate(m.a, m.count, n, index[d], d),
        Kind::Broadcast => broadcast_coordinate(n, at_or_zero(index, m.a[d])),
        Kind::Pad => pad_coordinate(m.a[d], m.b[d], index[d]).unwrap_or(n),
    }
}

// The operand's index for an index of the result.
fn operand_index(m: Map, from: Shape, index: [usize; Limits::RANK]) -> [usize; Limits::RANK]
    requires { (m.count ≤ 6) × (from.rank ≤ 6) × MapReady m (dims_of from) (at index) }
    ensures { result ≡ in_six (operand_index m (dims_of from) (at index)) }
{
    let mut operand = [0; Limits::RANK];
    for d in 0..from.rank {
        operand[d] = coordinate(m, from.dims[d], index, d);
    }
    operand
}

// Element k of the result.
fn map_element(m: Map, x: &[u64], from: Shape, to: Shape, z: u64, k: usize) -> u64
    requires { Fed m from to x.now × (k < size (dims_of to)) }
    ensures { result ≡ mapped_at m (dims_of from) x.now z (unravel (dims_of to) k) }
{
    let i = shape::index_at(to, k);
    let j = operand_index(m, from, i);
    shape::element_at(x, from, j, z)
}

fn map_into(m: Map, x: &[u64], from: Shape, to: Shape, z: u64, out: &mut [u64])
    requires { Fed m from to x.now × Fills out.old to }
    ensures { out.new ≡ mapped m (dims_of from) (dims_of to) x.now z }
{
    for k in 0..out.len() {
        out[k] = map_element(m, x, from, to, z, k);
    }
}

pub fn transpose(
    x: &[u64],
    from: Shape,
    permutation: [usize; Limits::LIST],
    to: Shape,
    out: &mut [u64],
)
    requires { Stretches from to x.now out.old × TransposeHolds (take from.rank permutation) (dims_of from) (dims_of to) }
    ensures { out.new ≡ transposed (take from.rank permutation) (dims_of from) (dims_of to) x.now }
{
    let m = Map {
        kind: Kind::Transpose,
        count: from.rank,
        a: permutation,
        b: [0; Limits::LIST],
    };
    map_into(m, x, from, to, 0, out);
}

// limit_indices counts in the constraints alone.
pub fn slice(
    x: &[u64],
    from: Shape,
    start: [usize; Limits::LIST],
    limit: [usize; Limits::LIST],
    strides: [usize; Limits::LIST],
    to: Shape,
    out: &mut [u64],
)
    requires { Stretches from to x.now out.old × SliceHolds (take from.rank start) (take from.rank limit) (take from.rank strides) (dims_of from) (dims_of to) }
    ensures { out.new ≡ sliced (take from.rank start) (take from.rank strides) (dims_of from) (dims_of to) x.now }
{
    let m = Map {
        kind: Kind::Slice,
        count: 0,
        a: start,
        b: strides,
    };
    map_into(m, x, from, to, 0, out);
}

// The operand and the result have the shape s.
pub fn reverse(
    x: &[u64],
    s: Shape,
    dimensions: [usize; Limits::LIST],
    count: usize,
    out: &mut [u64],
)
    requires { Stretches s s x.now out.old × (count ≤ 6) }
    ensures { out.new ≡ reversed (take count dimensions) (dims_of s) x.now }
{
    let m = Map {
        kind: Kind::Reverse,
        count,
        a: dimensions,
        b: [0; Limits::LIST],
    };
    map_into(m, x, s, s, 0, out);
}

pub fn broadcast_in_dim(
    x: &[u64],
    from: Shape,
    dimensions: [usize; Limits::LIST],
    to: Shape,
    out: &mut [u64],
)
    requires { Stretches from to x.now out.old }
    ensures { out.new ≡ broadcasted (take from.rank dimensions) (dims_of from) (dims_of to) x.now }
{
    let m = Map {
        kind: Kind::Broadcast,
        count: 0,
        a: dimensions,
        b: [0; Limits::LIST],
    };
    map_into(m, x, from, to, 0, out);
}

// edge_padding_high counts in the result's shape alone.
pub fn pad(
    x: &[u64],
    from: Shape,
    low: [usize; Limits::LIST],
    interior: [usize; Limits::LIST],
    z: u64,
    to: Shape,
    out: &mut [u64],
)
    requires { Stretches from to x.now out.old × PadHolds (take from.rank interior) (dims_of from) (dims_of to) }
    ensures { out.new ≡ padded (map number_of (take from.rank low)) (take from.rank interior) (dims_of from) (dims_of to) x.now z }
{
    let m = Map {
        kind: Kind::Pad,
        count: 0,
        a: low,
        b: interior,
    };
    map_into(m, x, from, to, z, out);
}

// clamp(0, start, limit), the start read in its type.
fn clamp_start(t: ElementType, start: u64, limit: usize) -> usize
    ensures { result ≡ clamp_start (value_of t start) limit }
{
    if element::is_negative(t, start) {
        0
    } else {
        limit.min(element::magnitude(t, start) as usize)
    }
}

fn adjusted_starts(
    t: ElementType,
    starts: [u64; Limits::RANK],
    from: Shape,
    to: Shape,
) -> [usize; Limits::RANK]
    requires { (from.rank ≤ 6) × DynamicSliceHolds (dims_of from) (dims_of to) }
    ensures { result ≡ in_six (tab (length (dims_of from)) (adjusted_start t starts (dims_of from) (dims_of to))) }
{
    let mut adjusted = [0; Limits::RANK];
    for d in 0..from.rank {
        adjusted[d] = clamp_start(t, starts[d], from.dims[d] - to.dims[d]);
    }
    adjusted
}

// The starts are slots of the type t; the result's shape is slice_sizes.
pub fn dynamic_slice(
    x: &[u64],
    from: Shape,
    t: ElementType,
    starts: [u64; Limits::RANK],
    to: Shape,
    out: &mut [u64],
)
    requires { Stretches from to x.now out.old × DynamicSliceHolds (dims_of from) (dims_of to) }
    ensures { out.new ≡ dynamic_sliced t (take from.rank starts) (dims_of from) (dims_of to) x.now }
{
    let adjusted = adjusted_starts(t, starts, from, to);
    let m = Map {
        kind: Kind::Slice,
        count: 0,
        a: adjusted,
        b: [1; Limits::LIST],
    };
    map_into(m, x, from, to, 0, out);
}

pub fn reshape(x: &[u64], from: Shape, to: Shape, out: &mut [u64])
    requires { Stretches from to x.now out.old × ReshapeHolds (dims_of from) (dims_of to) }
    ensures { out.new ≡ reshaped (dims_of from) (dims_of to) x.now }
{
    for k in 0..out.len() {
        out[k] = x[k];
    }
}

// Element k of iota: its coordinate along the dimension, taken into the type's range.
fn iota_element(t: ElementType, dimension: usize, to: Shape, k: usize) -> u64
    requires { Sized to × (dimension < 6) × (k < size (dims_of to)) }
    ensures { result ≡ wrap_to t (pos (at (unravel (dims_of to) k) dimension)) }
{
    let i = shape::index_at(to, k);
    element::fit(t, i[dimension] as u64)
}

pub fn iota(t: ElementType, dimension: usize, to: Shape, out: &mut [u64])
    requires { Sized to × Fills out.old to × IotaHolds dimension (dims_of to) }
    ensures { out.new ≡ counted t dimension (dims_of to) }
{
    for k in 0..out.len() {
        out[k] = iota_element(t, dimension, to, k);
    }
}

// The size of a dimension, 0 past the rank.
fn size_along(s: Shape, d: usize) -> usize
    requires { s.rank ≤ 6 }
    ensures { result ≡ at (dims_of s) d }
{
    if d < s.rank { s.dims[d] } else { 0 }
}

// The element of a concatenation at an index of the result.
fn concat_element(
    x: &[u64],
    dimension: usize,
    shapes: [Shape; Limits::OPERANDS],
    places: [usize; Limits::OPERANDS],
    count: usize,
    index: [usize; Limits::RANK],
) -> u64
    requires { (dimension < 6) × InputsLaid x.now shapes places count }
    ensures { result ≡ concat_at dimension (shapes_of shapes count) (inputs_in x.now shapes places count) index }
{
    let mut t = index[dimension];
    for j in 0..count {
        let s = shapes[j];
        let w = size_along(s, dimension);
        if t < w {
            let p = places[j];
            let e = p + shape::size_of(s);
            let mut i = index;
            i[dimension] = t;
            return shape::element_at(&x[p..e], s, i, 0);
        }
        t -= w;
    }
    0
}

// Element k of a concatenation.
fn concat_at(
    x: &[u64],
    dimension: usize,
    shapes: [Shape; Limits::OPERANDS],
    places: [usize; Limits::OPERANDS],
    count: usize,
    to: Shape,
    k: usize,
) -> u64
    requires { Sized to × InputsLaid x.now shapes places count × ConcatenateHolds dimension (shapes_of shapes count) (dims_of to) × (k < size (dims_of to)) }
    ensures { result ≡ concat_at dimension (shapes_of shapes count) (inputs_in x.now shapes places count) (unravel (dims_of to) k) }
{
    let i = shape::index_at(to, k);
    concat_element(x, dimension, shapes, places, count, i)
}

// Input j has the shape shapes[j] and starts in x at places[j].
pub fn concatenate(
    x: &[u64],
    dimension: usize,
    shapes: [Shape; Limits::OPERANDS],
    places: [usize; Limits::OPERANDS],
    count: usize,
    to: Shape,
    out: &mut [u64],
)
    requires { Sized to × Fills out.old to × InputsLaid x.now shapes places count × ConcatenateHolds dimension (shapes_of shapes count) (dims_of to) }
    ensures { out.new ≡ concatenated dimension (shapes_of shapes count) (inputs_in x.now shapes places count) (dims_of to) }
{
    for k in 0..out.len() {
        out[k] = concat_at(x, dimension, shapes, places, count, to, k);
    }
}
