// What 000's constraints ask of types, dimensions and attribute lists.
#![tactic(auto)]

ghost use Rattle.std.specs.Prelude.{◌≡◌, true, false, not, ◌&&◌, ◌||◌, ◌+◌, ◌-◌, ◌*◌, ◌≤◌, ◌<◌, take, eqb, IfSome, unwrap_or};
ghost use Rattle.shape.specs.Index.{at};
ghost use Rattle.shape.specs.Dims.{Sized};
ghost use Rattle.dimrules.specs.Count.{first_failing, everywhere};
ghost use Rattle.dimrules.specs.Whole.{number_of, up_of, down_of, non_negative, positive as «positive-number», below as «below-number», in_order, ceiling_is, padded_is};
ghost use Rattle.shape.specs.Place.{is_in};
ghost use Rattle.dimrules.specs.Dims.{dim, num, list_of, kept_below, kept_is, is_first, dim_test, SidesReady};
ghost use Rattle.dimrules.specs.Types.{same_element, same_shape, same_type, same_but_one, type_test, operand_test, all_types, sum_of_dims, shapes_beside, AllSized};

use element::ElementType;
use limits::Limits;
use shape::Shape;

#[derive(Clone, Copy)]
pub struct TensorType {
    pub element: ElementType,
    pub shape: Shape,
}

// An attribute's numbers: the first count of the list, each as its 64 bits.
#[derive(Clone, Copy)]
pub struct Numbers {
    pub count: usize,
    pub list: [usize; Limits::LIST],
}

// What a constraint asks of each dimension.
#[derive(Clone, Copy)]
pub enum DimTest {
    Same,
    SameExcept,
    InOrder,
    Positive,
    Ceiling,
    NonNegative,
    Padded,
    Below,
    Unique,
    Moved,
    Stretched,
    SizeIs,
    Kept,
}

// What a constraint asks of a type and each operand's.
#[derive(Clone, Copy)]
pub enum TypeTest {
    SameElement,
    SameType,
    SameButOne,
}

// What the tests of dimensions read: a number, three attribute lists, and the shapes of operand and result.
#[derive(Clone, Copy)]
pub struct Sides {
    pub k: usize,
    pub a: Numbers,
    pub b: Numbers,
    pub c: Numbers,
    pub n: Shape,
    pub m: Shape,
}

// 0 <= w, of a signed w.
fn non_negative(w: usize) -> bool
    ensures { result ≡ non_negative w }
{
    w < 9223372036854775808
}

// 0 < w, of a signed w.
#[tactic(auto, unfolding(crate::specs::Whole::positive, crate::specs::Whole::non_negative))]
fn positive(w: usize) -> bool
    ensures { result ≡ «positive-number» w }
{
    0 < w && non_negative(w)
}

// 0 <= w < k, of a signed w and a rank k.
#[tactic(auto, unfolding(crate::specs::Whole::below, crate::specs::Whole::non_negative))]
pub fn below(w: usize, k: usize) -> bool
    ensures { result ≡ «below-number» w k }
{
    non_negative(w) && w < k
}

// 0 <= s <= l <= n, of signed s and l.
#[tactic(auto, unfolding(crate::specs::Whole::in_order, crate::specs::Whole::non_negative))]
fn in_order(s: usize, l: usize, n: usize) -> bool
    ensures { result ≡ in_order s l n }
{
    non_negative(s) && non_negative(l) && s <= l && l <= n
}

// m is the ceiling of (l - s) / stride.
fn ceiling_is(s: usize, l: usize, stride: usize, m: usize) -> bool
    ensures { result ≡ ceiling_is s l stride m }
{
    stride != 0 && m == l.saturating_sub(s).div_ceil(stride)
}

// A signed number as a difference of two, one of them 0.
#[derive(Clone, Copy)]
struct Parts {
    up: usize,
    down: usize,
}

fn split(w: usize) -> Parts
    ensures { (result.up ≡ up_of (number_of w)) × (result.down ≡ down_of (number_of w)) }
{
    if w < 9223372036854775808 {
        return Parts { up: w, down: 0 };
    }
    Parts {
        up: 0,
        down: 18446744073709551615 - w + 1,
    }
}

// n + a + k * i + b == m + p + q, by halves of 32 bits, so that no sum passes 64 bits.
fn same_sums(n: usize, a: usize, k: usize, i: usize, b: usize, m: usize, p: usize, q: usize) -> bool
    requires { k ≤ 4096 }
    ensures { result ≡ eqb (m + p + q) (n + a + k * i + b) }
{
    let l = n % 4294967296 + a % 4294967296 + k * (i % 4294967296) + b % 4294967296;
    let h = n / 4294967296 + a / 4294967296 + k * (i / 4294967296) + b / 4294967296;
    let s = m % 4294967296 + p % 4294967296 + q % 4294967296;
    let t = m / 4294967296 + p / 4294967296 + q / 4294967296;
    t + s / 4294967296 == h + l / 4294967296 && s % 4294967296 == l % 4294967296
}

// m is n + low + max(n - 1, 0) * interior + high, and interior is not negative.
fn padded_is(low: usize, high: usize, interior: usize, n: usize, m: usize) -> bool
    requires { n ≤ 4096 }
    ensures { result ≡ padded_is low high interior n m }
{
    let l = split(low);
    let h = split(high);
    let k = n.saturating_sub(1);
    non_negative(interior) && same_sums(n, l.up, k, interior, h.up, m, l.down, h.down)
}

// The number at d of the first n of the list; 0 where there is none.
fn at_within(list: [usize; Limits::LIST], n: usize, d: usize) -> usize
    ensures { result ≡ at (take n list) d }
{
    if d < n && d < Limits::LIST {
        list[d]
    } else {
        0
    }
}

pub fn dim_at(s: Shape, d: usize) -> usize
    ensures { result ≡ dim s d }
{
    at_within(s.dims, s.rank, d)
}

pub fn number_at(a: Numbers, d: usize) -> usize
    ensures { result ≡ num a d }
{
    at_within(a.list, a.count, d)
}

// Whether d is one of the numbers.
fn is_in(a: Numbers, d: usize) -> bool
    requires { a.count ≤ 6 }
    ensures { result ≡ is_in (list_of a) d }
{
    shape::place_in(a.list, a.count, d).is_some()
}

// How many dimensions below d are not listed.
pub fn kept_below(a: Numbers, d: usize) -> usize
    requires { a.count ≤ 6 }
    ensures { result ≡ kept_below a d }
{
    (0..d).filter(|e| !is_in(a, *e)).count()
}

// Dimension d is listed, or its size is that of its place among those kept.
#[tactic(auto, unfolding(crate::specs::Dims::kept_is))]
fn kept_is(s: Sides, d: usize) -> bool
    requires { s.a.count ≤ 6 }
    ensures { result ≡ kept_is s d }
{
    let p = kept_below(s.a, d);
    is_in(s.a, d) || dim_at(s.n, d) == dim_at(s.m, p)
}

// The number at d stands at no place before.
#[tactic(auto, unfolding(crate::specs::Dims::is_first))]
fn is_first(a: Numbers, d: usize) -> bool
    requires { a.count ≤ 6 }
    ensures { result ≡ is_first a d }
{
    let x = number_at(a, d);
    shape::place_in(a.list, a.count, x).unwrap_or(a.count) == d
}

#[tactic(auto, unfolding(crate::specs::Dims::dim_test))]
fn dim_test(t: DimTest, s: Sides, d: usize) -> bool
    requires { SidesReady s }
    ensures { result ≡ dim_test t s d }
{
    let ad = number_at(s.a, d);
    let bd = number_at(s.b, d);
    let cd = number_at(s.c, d);
    let nd = dim_at(s.n, d);
    let md = dim_at(s.m, d);
    match t {
        DimTest::Same => nd == md,
        DimTest::SameExcept => d == s.k || nd == md,
        DimTest::InOrder => in_order(ad, bd, nd),
        DimTest::Positive => positive(cd),
        DimTest::Ceiling => ceiling_is(ad, bd, cd, md),
        DimTest::NonNegative => non_negative(cd),
        DimTest::Padded => padded_is(ad, bd, cd, nd, md),
        DimTest::Below => below(ad, s.k),
        DimTest::Unique => is_first(s.a, d),
        DimTest::Moved => md == dim_at(s.n, ad),
        DimTest::Stretched => nd == 1 || nd == dim_at(s.m, ad),
        DimTest::SizeIs => md == ad,
        DimTest::Kept => kept_is(s, d),
    }
}

// The first of count dimensions that fails the test.
pub fn first_dim(t: DimTest, count: usize, s: Sides) -> Option<usize>
    requires { SidesReady s }
    ensures place { unwrap_or result count ≡ first_failing count (dim_test t s) }
    ensures within { IfSome result (λ d. d < count) }
{
    for d in 0..count {
        if !dim_test(t, s, d) {
            return Some(d);
        }
    }
    None
}

// Each of count dimensions passes the test.
pub fn all_dims(t: DimTest, count: usize, s: Sides) -> bool
    requires { SidesReady s }
    ensures { result ≡ everywhere count (dim_test t s) }
{
    (0..count).all(|d| dim_test(t, s, d))
}

#[tactic(auto, unfolding(crate::specs::Types::same_element))]
pub fn same_element(x: TensorType, y: TensorType) -> bool
    ensures { result ≡ same_element x y }
{
    x.element == y.element
}

// Two shapes beside each other, and a dimension.
fn shapes_of(x: TensorType, y: TensorType, k: usize) -> Sides
    ensures { result ≡ shapes_beside x y k }
{
    let none = Numbers {
        count: 0,
        list: [0; Limits::LIST],
    };
    Sides {
        k,
        a: none,
        b: none,
        c: none,
        n: x.shape,
        m: y.shape,
    }
}

#[tactic(auto, unfolding(crate::specs::Types::same_shape))]
pub fn same_shape(x: TensorType, y: TensorType) -> bool
    requires { Sized x.shape }
    ensures { result ≡ same_shape x y }
{
    let rank = x.shape.rank;
    rank == y.shape.rank && all_dims(DimTest::Same, rank, shapes_of(x, y, 0))
}

#[tactic(auto, unfolding(crate::specs::Types::same_type))]
pub fn same_type(x: TensorType, y: TensorType) -> bool
    requires { Sized x.shape }
    ensures { result ≡ same_type x y }
{
    same_element(x, y) && same_shape(x, y)
}

// Of one rank, with the dimension k, and alike in the others.
#[tactic(auto, unfolding(crate::specs::Types::same_but_one))]
pub fn same_but_one(x: TensorType, y: TensorType, k: usize) -> bool
    requires { Sized x.shape }
    ensures { result ≡ same_but_one x y k }
{
    let rank = x.shape.rank;
    rank == y.shape.rank
        && below(k, rank)
        && all_dims(DimTest::SameExcept, rank, shapes_of(x, y, k))
}

#[tactic(auto, unfolding(crate::specs::Types::type_test))]
fn type_test(t: TypeTest, x: TensorType, y: TensorType, k: usize) -> bool
    requires { Sized x.shape }
    ensures { result ≡ type_test t k x y }
{
    match t {
        TypeTest::SameElement => same_element(x, y),
        TypeTest::SameType => same_type(x, y),
        TypeTest::SameButOne => same_but_one(x, y, k),
    }
}

// The first of n operands, counted from `from`, whose type fails the test beside x.
pub fn first_type(
    t: TypeTest,
    x: TensorType,
    types: [TensorType; Limits::OPERANDS],
    from: usize,
    n: usize,
    k: usize,
) -> Option<usize>
    requires { (from + n ≤ 8) × Sized x.shape }
    ensures place { unwrap_or result n ≡ first_failing n (operand_test t k x types from) }
    ensures within { IfSome result (λ j. j < n) }
{
    for j in 0..n {
        if !type_test(t, x, types[from + j], k) {
            return Some(j);
        }
    }
    None
}

// Each of n operands from one on passes the test beside x.
pub fn all_types(
    t: TypeTest,
    x: TensorType,
    types: [TensorType; Limits::OPERANDS],
    from: usize,
    n: usize,
    k: usize,
) -> bool
    requires { (from + n ≤ 8) × Sized x.shape }
    ensures { result ≡ all_types t k x types from n }
{
    (from..from + n).all(|j| type_test(t, x, types[j], k))
}

// The sum of the sizes of dimension k of n operands.
pub fn sum_dims(types: [TensorType; Limits::OPERANDS], n: usize, k: usize) -> usize
    requires { (n ≤ 8) × AllSized types }
    ensures { result ≡ sum_of_dims types n k }
{
    types[..n].iter().map(|t| dim_at(t.shape, k)).sum()
}
