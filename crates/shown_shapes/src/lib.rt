// Each function runs an op, shape by shape, on a stretch that it is lent, and shows what the op wrote there.
#![tactic(auto)]

ghost use Rattle.std.specs.Prelude.{◌≡◌, map, length, take};
ghost use Rattle.shape.specs.Index.{size};
ghost use Rattle.shape.specs.Dims.{dims_of};
ghost use Rattle.shape.specs.Whole.{number_of};
ghost use Rattle.maps.specs.Formulas.{reshaped, broadcasted, transposed, sliced, reversed, padded, dynamic_sliced, counted};
ghost use Rattle.maps.specs.Concatenation.{shapes_of, inputs_in, concatenated};
ghost use Rattle.reduction.specs.Rows.{reduced};
ghost use Rattle.shown_shapes.specs.Fit.{Fit, Few, IsAlong, IsTranspose, IsSlice, IsPad, IsDynamic, AreInputs, IsConcatenation};

use element::ElementType;
use scalar::Body;
use shape::Shape;
use shown::show;

pub fn iota(
    rt: &impl Print,
    name: &[u8],
    t: ElementType,
    dimension: usize,
    to: Shape,
    out: &mut [u64],
)
    requires { Fit to out.old × IsAlong dimension (dims_of to) }
    ensures { out.new ≡ counted t dimension (dims_of to) }
{
    maps::iota(t, dimension, to, out);
    show(rt, name, out);
}

pub fn reshape(rt: &impl Print, name: &[u8], x: &[u64], from: Shape, to: Shape, out: &mut [u64])
    requires { Fit from x.now × Fit to out.old × (size (dims_of from) ≡ size (dims_of to)) }
    ensures { out.new ≡ reshaped (dims_of from) (dims_of to) x.now }
{
    maps::reshape(x, from, to, out);
    show(rt, name, out);
}

pub fn transpose(
    rt: &impl Print,
    name: &[u8],
    x: &[u64],
    from: Shape,
    permutation: [usize; 6],
    to: Shape,
    out: &mut [u64],
)
    requires { Fit from x.now × Fit to out.old × IsTranspose (take from.rank permutation) (dims_of from) (dims_of to) }
    ensures { out.new ≡ transposed (take from.rank permutation) (dims_of from) (dims_of to) x.now }
{
    maps::transpose(x, from, permutation, to, out);
    show(rt, name, out);
}

pub fn reverse(
    rt: &impl Print,
    name: &[u8],
    x: &[u64],
    s: Shape,
    dimensions: [usize; 6],
    count: usize,
    out: &mut [u64],
)
    requires { Fit s x.now × Fit s out.old × Few count }
    ensures { out.new ≡ reversed (take count dimensions) (dims_of s) x.now }
{
    maps::reverse(x, s, dimensions, count, out);
    show(rt, name, out);
}

pub fn broadcast_in_dim(
    rt: &impl Print,
    name: &[u8],
    x: &[u64],
    from: Shape,
    dimensions: [usize; 6],
    to: Shape,
    out: &mut [u64],
)
    requires { Fit from x.now × Fit to out.old }
    ensures { out.new ≡ broadcasted (take from.rank dimensions) (dims_of from) (dims_of to) x.now }
{
    maps::broadcast_in_dim(x, from, dimensions, to, out);
    show(rt, name, out);
}

pub fn reduce(
    rt: &impl Print,
    name: &[u8],
    b: Body,
    t: ElementType,
    x: &[u64],
    from: Shape,
    dimensions: [usize; 6],
    count: usize,
    start: u64,
    to: Shape,
    out: &mut [u64],
)
    requires { Fit from x.now × Fit to out.old × Few count }
    ensures { out.new ≡ reduced b t (take count dimensions) (dims_of from) (dims_of to) start x.now }
{
    reduction::reduce(b, t, x, from, dimensions, count, start, to, out);
    show(rt, name, out);
}

pub fn slice(
    rt: &impl Print,
    name: &[u8],
    x: &[u64],
    from: Shape,
    start: [usize; 6],
    limit: [usize; 6],
    strides: [usize; 6],
    to: Shape,
    out: &mut [u64],
)
    requires { Fit from x.now × Fit to out.old × IsSlice (take from.rank start) (take from.rank limit) (take from.rank strides) (dims_of from) (dims_of to) }
    ensures { out.new ≡ sliced (take from.rank start) (take from.rank strides) (dims_of from) (dims_of to) x.now }
{
    maps::slice(x, from, start, limit, strides, to, out);
    show(rt, name, out);
}

pub fn pad(
    rt: &impl Print,
    name: &[u8],
    x: &[u64],
    from: Shape,
    low: [usize; 6],
    interior: [usize; 6],
    z: u64,
    to: Shape,
    out: &mut [u64],
)
    requires { Fit from x.now × Fit to out.old × IsPad (take from.rank interior) (dims_of from) (dims_of to) }
    ensures { out.new ≡ padded (map number_of (take from.rank low)) (take from.rank interior) (dims_of from) (dims_of to) x.now z }
{
    maps::pad(x, from, low, interior, z, to, out);
    show(rt, name, out);
}

pub fn dynamic_slice(
    rt: &impl Print,
    name: &[u8],
    x: &[u64],
    from: Shape,
    t: ElementType,
    starts: [u64; 6],
    to: Shape,
    out: &mut [u64],
)
    requires { Fit from x.now × Fit to out.old × IsDynamic (dims_of from) (dims_of to) }
    ensures { out.new ≡ dynamic_sliced t (take from.rank starts) (dims_of from) (dims_of to) x.now }
{
    maps::dynamic_slice(x, from, t, starts, to, out);
    show(rt, name, out);
}

pub fn concatenate(
    rt: &impl Print,
    name: &[u8],
    x: &[u64],
    dimension: usize,
    shapes: [Shape; 8],
    places: [usize; 8],
    count: usize,
    to: Shape,
    out: &mut [u64],
)
    requires { Fit to out.old × AreInputs x.now shapes places count × IsConcatenation dimension (shapes_of shapes count) (dims_of to) }
    ensures { out.new ≡ concatenated dimension (shapes_of shapes count) (inputs_in x.now shapes places count) (dims_of to) }
{
    maps::concatenate(x, dimension, shapes, places, count, to, out);
    show(rt, name, out);
}
