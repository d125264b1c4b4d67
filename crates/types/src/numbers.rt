// The value of a number token.
ghost use Rattle.std.specs.Prelude.{◌≡◌, ◌+◌, ◌-◌, ◌*◌, ◌^◌, ◌≤◌, false, pos, negsuc, neg_ℤ, drop};
ghost use Rattle.types.specs.Numbers.{digits_from, as_decimal, decimal_read, decimal_of, decimal_number, number_read, number_in, pattern_in};

use element::{ElementType, slot_for};
use scan::bytes::{byte_at, is_digit, tail};
use scan::quantized::sign_end;

// A decimal number of any length: its sign, and the rest if that is below 2^64.
#[derive(Clone, Copy)]
pub struct SignedDecimal {
    pub negative: bool,
    pub magnitude: Option<u64>,
}

// The value of a digit; 0 for every byte below '0'.
pub fn digit_of(b: u8) -> u8
    ensures { result ≡ b - 48 }
{
    b.saturating_sub(b'0')
}

// The digits from `at` on, without a sign, if their number is below 2^64.
fn digits(text: &[u8], at: usize) -> Option<u64>
    ensures { decimal_read false result ≡ as_decimal false (digits_from 0 (drop at text.now)) }
{
    let mut v: u64 = 0;
    for b in tail(text, at) {
        if !is_digit(*b) {
            return Some(v);
        }
        v = v.checked_mul(10)?.checked_add(u64::from(digit_of(*b)))?;
    }
    Some(v)
}

// The number whose token starts at `start`.
pub fn decimal_at(text: &[u8], start: usize) -> SignedDecimal
    ensures { decimal_read result.negative result.magnitude ≡ decimal_of text.now start }
{
    SignedDecimal {
        negative: byte_at(text, start) == b'-',
        magnitude: digits(text, sign_end(text, start)),
    }
}

fn at_least_zero(n: u64, t: ElementType) -> Option<u64>
    ensures { number_read result ≡ number_in t (pos n) }
{
    if n <= t.highest() {
        Some(slot_for(t, false, n))
    } else {
        None
    }
}

// The number -1 - n.
fn below_zero(n: u64, t: ElementType) -> Option<u64>
    ensures { number_read result ≡ number_in t (negsuc n) }
{
    if t.is_signed() && n <= t.highest() {
        Some(slot_for(t, true, n + 1))
    } else {
        None
    }
}

// The number -m.
fn negated(m: u64, t: ElementType) -> Option<u64>
    ensures { number_read result ≡ number_in t (neg_ℤ (pos m)) }
{
    if m == 0 {
        at_least_zero(0, t)
    } else {
        below_zero(m - 1, t)
    }
}

// The number whose token starts at `start`, as a slot of type t.
pub fn number_in(text: &[u8], start: usize, t: ElementType) -> Option<u64>
    ensures { number_read result ≡ number_in t (decimal_number text.now start) }
{
    let d = decimal_at(text, start);
    let magnitude = d.magnitude?;
    if d.negative {
        negated(magnitude, t)
    } else {
        at_least_zero(magnitude, t)
    }
}

// The number n.
fn pattern_of(n: u64) -> Option<u64>
    ensures { number_read result ≡ pattern_in (pos n) }
{
    if n < 0x8000_0000_0000_0000 {
        Some(n)
    } else {
        None
    }
}

// The number -m.
fn negated_pattern(m: u64) -> Option<u64>
    ensures { number_read result ≡ pattern_in (neg_ℤ (pos m)) }
{
    if m <= 0x8000_0000_0000_0000 {
        Some(m.wrapping_neg())
    } else {
        None
    }
}

// The attribute number whose token starts at `start`, as a pattern of 64 bits (size 7).
pub fn pattern_in(text: &[u8], start: usize) -> Option<u64>
    ensures { number_read result ≡ pattern_in (decimal_number text.now start) }
{
    let d = decimal_at(text, start);
    let magnitude = d.magnitude?;
    if d.negative {
        negated_pattern(magnitude)
    } else {
        pattern_of(magnitude)
    }
}
