// The operations on single values (01, "Element by element").
#![tactic(auto)]

ghost use Rattle.std.specs.Prelude.{◌≡◌};
ghost use Rattle.scalar.specs.Ops.{add_of, subtract_of, multiply_of, negate_of, iota_of, convert_of, abs_of, sign_of, lt_of, maximum_of, minimum_of, holds, compare_of, not_of, count_leading_zeros_of, popcnt_of, shift_left_of, shift_right_arithmetic_of, shift_right_logical_of, clamp_of, select_of, unary_of, binary_of};
ghost use Rattle.scalar.specs.Body.{body_of, binary_from};

use element::ElementType;

// Operations on one value.
#[derive(Clone, Copy)]
pub enum Unary {
    Negate,
    Abs,
    Sign,
    Not,
    CountLeadingZeros,
    Popcnt,
}

// Operations on two values, but division and comparison.
#[derive(Clone, Copy)]
pub enum Binary {
    Add,
    Subtract,
    Multiply,
    Maximum,
    Minimum,
    And,
    Or,
    Xor,
    ShiftLeft,
    ShiftRightArithmetic,
    ShiftRightLogical,
}

// The comparison_direction of compare.
#[derive(Clone, Copy)]
pub enum Direction {
    Eq,
    Ne,
    Ge,
    Gt,
    Le,
    Lt,
}

// The op of a reduction's body.
#[derive(Clone, Copy)]
pub enum Body {
    Add,
    Multiply,
    Maximum,
    Minimum,
    And,
    Or,
    Xor,
}

impl From<Body> for Binary {
    ghost from_gives = { λ op r. r ≡ binary_from op };

    fn from(op: Body) -> Binary {
        match op {
            Body::Add => Binary::Add,
            Body::Multiply => Binary::Multiply,
            Body::Maximum => Binary::Maximum,
            Body::Minimum => Binary::Minimum,
            Body::And => Binary::And,
            Body::Or => Binary::Or,
            Body::Xor => Binary::Xor,
        }
    }
}

fn add(t: ElementType, a: u64, b: u64) -> u64
    ensures { result ≡ add_of t a b }
{
    if t.is_bool() {
        a | b
    } else {
        element::fit(t, a.wrapping_add(b))
    }
}

fn subtract(t: ElementType, a: u64, b: u64) -> u64
    ensures { result ≡ subtract_of t a b }
{
    element::fit(t, a.wrapping_sub(b))
}

fn multiply(t: ElementType, a: u64, b: u64) -> u64
    ensures { result ≡ multiply_of t a b }
{
    if t.is_bool() {
        a & b
    } else {
        element::fit(t, a.wrapping_mul(b))
    }
}

fn negate(t: ElementType, a: u64) -> u64
    ensures { result ≡ negate_of t a }
{
    element::fit(t, a.wrapping_neg())
}

// Element k of an iota dimension.
pub fn iota(t: ElementType, k: u64) -> u64
    ensures { result ≡ iota_of t k }
{
    element::fit(t, k)
}

// A value of one type as one of another.
pub fn convert(from: ElementType, to: ElementType, a: u64) -> u64
    ensures { result ≡ convert_of from to a }
{
    if to.is_bool() {
        u64::from(a != 0)
    } else {
        element::fit(to, a)
    }
}

fn abs(t: ElementType, a: u64) -> u64
    ensures { result ≡ abs_of t a }
{
    if !element::is_negative(t, a) {
        a
    } else if a == t.lowest() {
        t.highest()
    } else {
        a.wrapping_neg()
    }
}

fn sign(t: ElementType, a: u64) -> u64
    ensures { result ≡ sign_of t a }
{
    if element::is_negative(t, a) {
        u64::MAX
    } else {
        u64::from(a != 0)
    }
}

// Whether a is below b, by value.
fn less(t: ElementType, a: u64, b: u64) -> bool
    ensures { result ≡ lt_of t a b }
{
    if t.is_signed() {
        a.cast_signed() < b.cast_signed()
    } else {
        a < b
    }
}

fn maximum(t: ElementType, a: u64, b: u64) -> u64
    ensures { result ≡ maximum_of t a b }
{
    if less(t, a, b) { b } else { a }
}

fn minimum(t: ElementType, a: u64, b: u64) -> u64
    ensures { result ≡ minimum_of t a b }
{
    if less(t, b, a) { b } else { a }
}

// Whether a comparison in a direction holds.
fn compares(d: Direction, t: ElementType, a: u64, b: u64) -> bool
    ensures { result ≡ holds d t a b }
{
    match d {
        Direction::Eq => a == b,
        Direction::Ne => a != b,
        Direction::Ge => !less(t, a, b),
        Direction::Gt => less(t, b, a),
        Direction::Le => !less(t, b, a),
        Direction::Lt => less(t, a, b),
    }
}

// 1 where a comparison in a direction holds, else 0.
pub fn compare(d: Direction, t: ElementType, a: u64, b: u64) -> u64
    ensures { result ≡ compare_of d t a b }
{
    u64::from(compares(d, t, a, b))
}

// Every bit of the value changed.
fn not(t: ElementType, a: u64) -> u64
    ensures { result ≡ not_of t a }
{
    a ^ t.all()
}

fn count_leading_zeros(t: ElementType, a: u64) -> u64
    ensures { result ≡ count_leading_zeros_of t a }
{
    let low = a & t.mask();
    u64::from(low.leading_zeros()) - (64 - t.width())
}

fn popcnt(t: ElementType, a: u64) -> u64
    ensures { result ≡ popcnt_of t a }
{
    u64::from((a & t.mask()).count_ones())
}

fn shift_left(t: ElementType, a: u64, b: u64) -> u64
    ensures { result ≡ shift_left_of t a b }
{
    if b < t.width() {
        element::fit(t, a << b)
    } else {
        0
    }
}

fn shift_right_arithmetic(t: ElementType, a: u64, b: u64) -> u64
    ensures { result ≡ shift_right_arithmetic_of t a b }
{
    let is_within = b < t.width();
    if element::is_negative(t, a) {
        if is_within { !(!a >> b) } else { u64::MAX }
    } else if is_within {
        a >> b
    } else {
        0
    }
}

fn shift_right_logical(t: ElementType, a: u64, b: u64) -> u64
    ensures { result ≡ shift_right_logical_of t a b }
{
    if b < t.width() {
        element::fit(t, (a & t.mask()) >> b)
    } else {
        0
    }
}

// x brought to min and max; max where min exceeds it.
pub fn clamp(t: ElementType, min: u64, x: u64, max: u64) -> u64
    ensures { result ≡ clamp_of t min x max }
{
    minimum(t, maximum(t, x, min), max)
}

// a where pred is true, else b.
pub fn select(pred: u64, a: u64, b: u64) -> u64
    ensures { result ≡ select_of pred a b }
{
    if pred == 0 { b } else { a }
}

// An op on one value of the type.
pub fn apply_unary(op: Unary, t: ElementType, a: u64) -> u64
    ensures { result ≡ unary_of op t a }
{
    match op {
        Unary::Negate => negate(t, a),
        Unary::Abs => abs(t, a),
        Unary::Sign => sign(t, a),
        Unary::Not => not(t, a),
        Unary::CountLeadingZeros => count_leading_zeros(t, a),
        Unary::Popcnt => popcnt(t, a),
    }
}

// An op on two values of the type.
pub fn apply_binary(op: Binary, t: ElementType, a: u64, b: u64) -> u64
    ensures { result ≡ binary_of op t a b }
{
    match op {
        Binary::Add => add(t, a, b),
        Binary::Subtract => subtract(t, a, b),
        Binary::Multiply => multiply(t, a, b),
        Binary::Maximum => maximum(t, a, b),
        Binary::Minimum => minimum(t, a, b),
        Binary::And => a & b,
        Binary::Or => a | b,
        Binary::Xor => a ^ b,
        Binary::ShiftLeft => shift_left(t, a, b),
        Binary::ShiftRightArithmetic => shift_right_arithmetic(t, a, b),
        Binary::ShiftRightLogical => shift_right_logical(t, a, b),
    }
}

// The body's op on two values of the type.
pub fn apply_body(op: Body, t: ElementType, a: u64, b: u64) -> u64
    ensures { result ≡ body_of op t a b }
{
    apply_binary(Binary::from(op), t, a, b)
}
