// 000's constraints, class by class of the op table: the number of the first that is broken (01, refusal 8).
#![tactic(auto)]

ghost use Rattle.std.specs.Prelude.{◌≡◌, true, ◌&&◌, ◌-◌, ◌≤◌, eqb};
ghost use Rattle.shape.specs.Dims.{Sized};
ghost use Rattle.dimrules.specs.Types.{AllSized, same_element, type_at};
ghost use Rattle.dimrules.specs.Whole.{number_of};
ghost use Rattle.checks.specs.Check.{broken_number};
ghost use Rattle.checks.specs.Formula.{ints};
ghost use Rattle.op_checks.specs.OpChecks.{types_from, compare_type_is, same_types_checks, abs_checks, constant_checks, convert_checks, iota_checks, reshape_checks, compare_checks, select_checks, clamp_checks, reverse_checks, transpose_checks, broadcast_checks, slice_checks, pad_checks, concatenate_checks, dynamic_slice_checks, reduce_checks};
ghost use Rattle.rule_laws.specs.Broken.{first_broken, sides_of};
ghost use Rattle.rules.specs.Constraint.{constraint_of};

use dimrules::{
    DimTest, Numbers, Sides, TensorType, TypeTest, all_dims, all_types, below, dim_at, kept_below,
    same_but_one, same_element, same_shape, same_type, sum_dims,
};
use element::ElementType;
use limits::Limits;
use optable::Choices;

// The number of the first constraint that doesn't hold.
fn first_broken(holds: &[bool]) -> Option<usize>
    ensures { result ≡ constraint_of (first_broken holds.now) }
{
    let k = holds.iter().position(|h| !*h)?;
    Some(k + 1)
}

// Three lists of n numbers each.
fn three_of(a: Numbers, b: Numbers, c: Numbers, n: usize) -> bool
    ensures { result ≡ eqb a.count n && eqb b.count n && eqb c.count n }
{
    a.count == n && b.count == n && c.count == n
}

fn sides_of(x: TensorType, r: TensorType, k: usize, a: Numbers, b: Numbers, c: Numbers) -> Sides
    ensures { result ≡ sides_of x r k a b c }
{
    Sides {
        k,
        a,
        b,
        c,
        n: x.shape,
        m: r.shape,
    }
}

pub fn same_types_broken(
    types: [TensorType; Limits::OPERANDS],
    arity: usize,
    r: TensorType,
) -> Option<usize>
    requires { (arity ≤ 8) × Sized r.shape }
    ensures { result ≡ constraint_of (broken_number (same_types_checks (types_from types 0 arity) r)) }
{
    let c1 = all_types(TypeTest::SameType, r, types, 0, arity, 0);
    first_broken(&[c1])
}

pub fn abs_broken(x: TensorType, r: TensorType) -> Option<usize>
    requires { Sized r.shape }
    ensures { result ≡ constraint_of (broken_number (abs_checks x r)) }
{
    let c1 = same_shape(r, x);
    let c2 = same_element(r, x);
    first_broken(&[c1, c2])
}

pub fn constant_broken(value: TensorType, r: TensorType) -> Option<usize>
    requires { Sized value.shape }
    ensures { result ≡ constraint_of (broken_number (constant_checks value r)) }
{
    let c1 = same_type(value, r);
    first_broken(&[c1])
}

pub fn convert_broken(x: TensorType, r: TensorType) -> Option<usize>
    requires { Sized x.shape }
    ensures { result ≡ constraint_of (broken_number (convert_checks x r)) }
{
    let c1 = same_shape(x, r);
    first_broken(&[c1])
}

pub fn iota_broken(dimension: usize, r: TensorType) -> Option<usize>
    ensures { result ≡ constraint_of (broken_number (iota_checks (number_of dimension) r)) }
{
    let c1 = below(dimension, r.shape.rank);
    first_broken(&[c1])
}

pub fn reshape_broken(x: TensorType, r: TensorType) -> Option<usize>
    requires { Sized x.shape × Sized r.shape }
    ensures { result ≡ constraint_of (broken_number (reshape_checks x r)) }
{
    let c1 = same_element(x, r);
    let c2 = shape::size_of(x.shape) == shape::size_of(r.shape);
    first_broken(&[c1, c2])
}

// compare_type is absent, or SIGNED for signed types and UNSIGNED for the others.
fn compare_type_is(choice: usize, e: ElementType) -> bool
    ensures { result ≡ compare_type_is choice e }
{
    let of_type = if e.is_signed() {
        Choices::SIGNED
    } else {
        Choices::UNSIGNED
    };
    choice == Choices::NONE || choice == of_type
}

pub fn compare_broken(x: TensorType, y: TensorType, choice: usize, r: TensorType) -> Option<usize>
    requires { Sized x.shape }
    ensures { result ≡ constraint_of (broken_number (compare_checks x y choice r)) }
{
    let c1 = same_element(x, y);
    let c2 = same_shape(x, y) && same_shape(x, r);
    let c3 = compare_type_is(choice, x.element);
    first_broken(&[c1, c2, c3])
}

pub fn select_broken(pred: TensorType, t: TensorType, f: TensorType, r: TensorType) -> Option<usize>
    requires { Sized pred.shape × Sized t.shape }
    ensures { result ≡ constraint_of (broken_number (select_checks pred t f r)) }
{
    let c1 = pred.shape.rank == 0 || same_shape(pred, t);
    let c2 = same_type(t, f) && same_type(t, r);
    first_broken(&[c1, c2])
}

pub fn clamp_broken(min: TensorType, x: TensorType, max: TensorType, r: TensorType) -> Option<usize>
    requires { Sized min.shape × Sized x.shape × Sized max.shape }
    ensures { result ≡ constraint_of (broken_number (clamp_checks min x max r)) }
{
    let c1 = min.shape.rank == 0 || same_shape(min, x);
    let c2 = max.shape.rank == 0 || same_shape(max, x);
    let c3 = same_element(min, x) && same_element(x, max);
    let c4 = same_type(x, r);
    first_broken(&[c1, c2, c3, c4])
}

pub fn reverse_broken(x: TensorType, dimensions: Numbers, r: TensorType) -> Option<usize>
    requires { Sized x.shape × (dimensions.count ≤ 6) }
    ensures { result ≡ constraint_of (broken_number (reverse_checks x (ints dimensions) r)) }
{
    let count = dimensions.count;
    let s = sides_of(x, r, r.shape.rank, dimensions, dimensions, dimensions);
    let c1 = same_type(x, r);
    let c2 = all_dims(DimTest::Unique, count, s);
    let c3 = all_dims(DimTest::Below, count, s);
    first_broken(&[c1, c2, c3])
}

pub fn transpose_broken(x: TensorType, permutation: Numbers, r: TensorType) -> Option<usize>
    requires { Sized x.shape × (permutation.count ≤ 6) }
    ensures { result ≡ constraint_of (broken_number (transpose_checks x (ints permutation) r)) }
{
    let rank = x.shape.rank;
    let s = sides_of(x, r, rank, permutation, permutation, permutation);
    let c1 = same_element(x, r);
    let c2 = permutation.count == rank
        && all_dims(DimTest::Below, rank, s)
        && all_dims(DimTest::Unique, rank, s);
    let c3 = r.shape.rank == rank && all_dims(DimTest::Moved, rank, s);
    first_broken(&[c1, c2, c3])
}

pub fn broadcast_broken(x: TensorType, dimensions: Numbers, r: TensorType) -> Option<usize>
    requires { Sized x.shape × (dimensions.count ≤ 6) }
    ensures { result ≡ constraint_of (broken_number (broadcast_checks x (ints dimensions) r)) }
{
    let rank = x.shape.rank;
    let count = dimensions.count;
    let s = sides_of(x, r, r.shape.rank, dimensions, dimensions, dimensions);
    let c1 = same_element(x, r);
    let c2 = count == rank;
    let c3 = all_dims(DimTest::Below, count, s);
    let c4 = all_dims(DimTest::Unique, count, s);
    let c5 = all_dims(DimTest::Stretched, rank, s);
    first_broken(&[c1, c2, c3, c4, c5])
}

pub fn slice_broken(
    x: TensorType,
    start: Numbers,
    limit: Numbers,
    strides: Numbers,
    r: TensorType,
) -> Option<usize>
    requires { Sized x.shape × (start.count ≤ 6) }
    ensures { result ≡ constraint_of (broken_number (slice_checks x (ints start) (ints limit) (ints strides) r)) }
{
    let rank = x.shape.rank;
    let s = sides_of(x, r, 0, start, limit, strides);
    let c1 = same_element(x, r);
    let c2 = three_of(start, limit, strides, rank);
    let c3 = all_dims(DimTest::InOrder, rank, s);
    let c4 = all_dims(DimTest::Positive, rank, s);
    let c5 = r.shape.rank == rank && all_dims(DimTest::Ceiling, rank, s);
    first_broken(&[c1, c2, c3, c4, c5])
}

pub fn pad_broken(
    x: TensorType,
    v: TensorType,
    low: Numbers,
    high: Numbers,
    interior: Numbers,
    r: TensorType,
) -> Option<usize>
    requires { Sized x.shape × (low.count ≤ 6) }
    ensures { result ≡ constraint_of (broken_number (pad_checks x v (ints low) (ints high) (ints interior) r)) }
{
    let rank = x.shape.rank;
    let s = sides_of(x, r, 0, low, high, interior);
    let c1 = same_element(x, v) && same_element(x, r);
    let c2 = three_of(low, high, interior, rank);
    let c3 = all_dims(DimTest::NonNegative, rank, s);
    let c4 = r.shape.rank == rank && all_dims(DimTest::Padded, rank, s);
    first_broken(&[c1, c2, c3, c4])
}

pub fn concatenate_broken(
    types: [TensorType; Limits::OPERANDS],
    arity: usize,
    dimension: usize,
    r: TensorType,
) -> Option<usize>
    requires { (arity ≤ 8) × AllSized types }
    ensures { result ≡ constraint_of (broken_number (concatenate_checks (types_from types 0 arity) (number_of dimension) r)) }
{
    let x = types[0];
    let size = sum_dims(types, arity, dimension);
    let c1 = all_types(TypeTest::SameElement, x, types, 0, arity, 0);
    let c2 = all_types(TypeTest::SameButOne, x, types, 0, arity, dimension);
    let c3 = 0 < arity;
    let c4 = below(dimension, x.shape.rank);
    let c5 = same_element(x, r);
    let c6 = same_but_one(x, r, dimension) && dim_at(r.shape, dimension) == size;
    first_broken(&[c1, c2, c3, c4, c5, c6])
}

pub fn dynamic_slice_broken(
    types: [TensorType; Limits::OPERANDS],
    arity: usize,
    sizes: Numbers,
    r: TensorType,
) -> Option<usize>
    requires { (arity ≤ 8) × AllSized types × (sizes.count ≤ 6) }
    ensures { result ≡ constraint_of (broken_number (dynamic_slice_checks (type_at types 0) (types_from types 1 (arity - 1)) (ints sizes) r)) }
{
    let x = types[0];
    let y = types[1];
    let rank = x.shape.rank;
    let starts = arity.saturating_sub(1);
    let s = sides_of(x, r, 0, sizes, sizes, sizes);
    let c1 = same_element(x, r);
    let c2 = starts == rank && sizes.count == rank;
    let c3 = all_types(TypeTest::SameType, y, types, 1, starts, 0);
    let c4 = all_dims(DimTest::InOrder, rank, s);
    let c5 = r.shape.rank == rank && all_dims(DimTest::SizeIs, rank, s);
    first_broken(&[c1, c2, c3, c4, c5])
}

// A body's argument: of rank 0 and the input's element type.
fn is_argument(x: TensorType, a: TensorType) -> bool
    ensures { result ≡ same_element x a && eqb a.shape.rank 0 }
{
    same_element(x, a) && a.shape.rank == 0
}

// The body's arguments have the types a and b.
pub fn reduce_broken(
    x: TensorType,
    v: TensorType,
    a: TensorType,
    b: TensorType,
    dimensions: Numbers,
    r: TensorType,
) -> Option<usize>
    requires { Sized x.shape × (dimensions.count ≤ 6) }
    ensures { result ≡ constraint_of (broken_number (reduce_checks x v a b (ints dimensions) r)) }
{
    let rank = x.shape.rank;
    let count = dimensions.count;
    let s = sides_of(x, r, rank, dimensions, dimensions, dimensions);
    let kept = kept_below(dimensions, rank);
    let c2 = same_element(x, v);
    let c4 = all_dims(DimTest::Below, count, s);
    let c5 = all_dims(DimTest::Unique, count, s);
    let c6 = is_argument(x, a) && is_argument(x, b);
    let c7 = r.shape.rank == kept && all_dims(DimTest::Kept, rank, s);
    let c8 = same_element(x, r);
    first_broken(&[true, c2, true, c4, c5, c6, c7, c8])
}
