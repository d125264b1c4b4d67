// Signed quotient and remainder at each width, and on the slots of every element type.
#![tactic(auto)]

ghost use Rattle.std.specs.Prelude.{◌≡◌, true, pos};
ghost use Rattle.std.specs.Int.Signed.{rem_z};
ghost use Rattle.element.specs.Types.{SlotHolds, signed_of, width_of, wrap, value_of, wrap_to};
ghost use Rattle.division.specs.Division.{quotient_of, result_of, OfType, divided_numbers, division_of};

use element::ElementType;

// divide and remainder of 000.
#[derive(Clone, Copy)]
pub enum Division {
    Divide,
    Remainder,
}

// Kept: a signed quotient and remainder at each width, a rule of the project.
// The quotient toward zero; of the lowest value by -1 the lowest value.
pub fn quotient_i8(a: i8, b: i8) -> i8
    requires { b ≡ pos 0 → ⊥ }
    ensures { result ≡ quotient_of 8 a b }
{
    i8::wrapping_div(a, b)
}

// The remainder, with the dividend's sign; by -1 it is 0.
pub fn remainder_i8(a: i8, b: i8) -> i8
    requires { b ≡ pos 0 → ⊥ }
    ensures { result ≡ rem_z a b }
{
    i8::wrapping_rem(a, b)
}

// The quotient toward zero; of the lowest value by -1 the lowest value.
pub fn quotient_i16(a: i16, b: i16) -> i16
    requires { b ≡ pos 0 → ⊥ }
    ensures { result ≡ quotient_of 16 a b }
{
    i16::wrapping_div(a, b)
}

// The remainder, with the dividend's sign; by -1 it is 0.
pub fn remainder_i16(a: i16, b: i16) -> i16
    requires { b ≡ pos 0 → ⊥ }
    ensures { result ≡ rem_z a b }
{
    i16::wrapping_rem(a, b)
}

// The quotient toward zero; of the lowest value by -1 the lowest value.
pub fn quotient_i32(a: i32, b: i32) -> i32
    requires { b ≡ pos 0 → ⊥ }
    ensures { result ≡ quotient_of 32 a b }
{
    i32::wrapping_div(a, b)
}

// The remainder, with the dividend's sign; by -1 it is 0.
pub fn remainder_i32(a: i32, b: i32) -> i32
    requires { b ≡ pos 0 → ⊥ }
    ensures { result ≡ rem_z a b }
{
    i32::wrapping_rem(a, b)
}

// The quotient toward zero; of the lowest value by -1 the lowest value.
pub fn quotient_i64(a: i64, b: i64) -> i64
    requires { b ≡ pos 0 → ⊥ }
    ensures { result ≡ quotient_of 64 a b }
{
    i64::wrapping_div(a, b)
}

// The remainder, with the dividend's sign; by -1 it is 0.
pub fn remainder_i64(a: i64, b: i64) -> i64
    requires { b ≡ pos 0 → ⊥ }
    ensures { result ≡ rem_z a b }
{
    i64::wrapping_rem(a, b)
}

// Either, of two numbers of a signed type, at its width.
fn divide_numbers(op: Division, t: ElementType, x: i64, y: i64) -> i64
    requires { (signed_of t ≡ true) × (OfType t x × (OfType t y × (y ≡ pos 0 → ⊥))) }
    ensures { result ≡ wrap true (width_of t) (result_of op x y) }
{
    match (op, t.width()) {
        (Division::Divide, 8) => i64::from(quotient_i8(x as i8, y as i8)),
        (Division::Divide, 16) => i64::from(quotient_i16(x as i16, y as i16)),
        (Division::Divide, 32) => i64::from(quotient_i32(x as i32, y as i32)),
        (Division::Divide, _) => quotient_i64(x, y),
        (Division::Remainder, 8) => i64::from(remainder_i8(x as i8, y as i8)),
        (Division::Remainder, 16) => i64::from(remainder_i16(x as i16, y as i16)),
        (Division::Remainder, 32) => i64::from(remainder_i32(x as i32, y as i32)),
        (Division::Remainder, _) => remainder_i64(x, y),
    }
}

// Either, of two values of a signed type.
fn divide_signed(op: Division, t: ElementType, a: u64, b: u64) -> u64
    requires { (signed_of t ≡ true) × (SlotHolds t a × (SlotHolds t b × (b ≡ 0 → ⊥))) }
    ensures { result ≡ wrap_to t (result_of op (value_of t a) (value_of t b)) }
{
    divide_numbers(op, t, a.cast_signed(), b.cast_signed()).cast_unsigned()
}

// divide or remainder of two values of the type; None for a zero divisor.
pub fn apply_division(op: Division, t: ElementType, a: u64, b: u64) -> Option<u64>
    requires { SlotHolds t a × SlotHolds t b }
    ensures { divided_numbers result ≡ division_of op t a b }
{
    if b == 0 {
        None
    } else if t.is_signed() {
        Some(divide_signed(op, t, a, b))
    } else {
        match op {
            Division::Divide => Some(a / b),
            Division::Remainder => Some(a % b),
        }
    }
}
