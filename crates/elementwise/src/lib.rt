// Whole tensors element by element: each function fills the stretch that it is lent.
#![tactic(auto)]

ghost use Rattle.std.specs.Prelude.{◌≡◌, eqb, ◌<◌, length};
ghost use Rattle.lists.specs.Lists.{tab, pick};
ghost use Rattle.element.specs.Types.{SlotHolds};
ghost use Rattle.division.specs.Division.{division_of};
ghost use Rattle.elementwise.specs.Elementwise.{Holds, TwoSized, SelectSized, ClampSized, spread, unary_at, binary_at, compare_at, convert_at, select_at, clamp_at, operand_at, zero_divisor, division_at, Divides};

use division::Division;
use element::ElementType;
use scalar::{Binary, Direction, Unary};

// The op and its first element whose divisor is zero.
#[derive(Clone, Copy)]
pub struct ZeroDivisor {
    pub op: usize,
    pub element: usize,
}

pub fn unary_into(op: Unary, t: ElementType, x: &[u64], out: &mut [u64])
    requires { length x.now ≡ length out.old }
    ensures { out.new ≡ tab (length out.old) (unary_at op t x.now) }
{
    for k in 0..out.len() {
        out[k] = scalar::apply_unary(op, t, x[k]);
    }
}

pub fn binary_into(op: Binary, t: ElementType, x: &[u64], y: &[u64], out: &mut [u64])
    requires { TwoSized (length out.old) x.now y.now }
    ensures { out.new ≡ tab (length out.old) (binary_at op t x.now y.now) }
{
    for k in 0..out.len() {
        out[k] = scalar::apply_binary(op, t, x[k], y[k]);
    }
}

// Operands of type t; the results are booleans.
pub fn compare_into(d: Direction, t: ElementType, x: &[u64], y: &[u64], out: &mut [u64])
    requires { TwoSized (length out.old) x.now y.now }
    ensures { out.new ≡ tab (length out.old) (compare_at d t x.now y.now) }
{
    for k in 0..out.len() {
        out[k] = scalar::compare(d, t, x[k], y[k]);
    }
}

pub fn convert_into(from: ElementType, to: ElementType, x: &[u64], out: &mut [u64])
    requires { length x.now ≡ length out.old }
    ensures { out.new ≡ tab (length out.old) (convert_at from to x.now) }
{
    for k in 0..out.len() {
        out[k] = scalar::convert(from, to, x[k]);
    }
}

// Element k of an operand of the result's shape, or the one element of an operand of rank 0.
fn spread_element(single: bool, x: &[u64], k: usize) -> u64
    requires { pick single 0 k < length x.now }
    ensures { result ≡ spread single x.now k }
{
    if single { x[0] } else { x[k] }
}

pub fn select_into(single: bool, pred: &[u64], x: &[u64], y: &[u64], out: &mut [u64])
    requires { SelectSized single (length out.old) pred.now x.now y.now }
    ensures { out.new ≡ tab (length out.old) (select_at single pred.now x.now y.now) }
{
    for k in 0..out.len() {
        let p = spread_element(single, pred, k);
        out[k] = scalar::select(p, x[k], y[k]);
    }
}

pub fn clamp_into(
    t: ElementType,
    one: bool,
    other: bool,
    min: &[u64],
    x: &[u64],
    max: &[u64],
    out: &mut [u64],
)
    requires { ClampSized one other (length out.old) min.now x.now max.now }
    ensures { out.new ≡ tab (length out.old) (clamp_at t one other min.now x.now max.now) }
{
    for k in 0..out.len() {
        let low = spread_element(one, min, k);
        let high = spread_element(other, max, k);
        out[k] = scalar::clamp(t, low, x[k], high);
    }
}

// Element k of operand j of a division: 0 the dividend, 1 the divisor.
fn operand_at(x: &[u64], y: &[u64], k: usize, j: usize) -> u64
    requires { (k < length x.now) × (k < length y.now) }
    ensures { result ≡ operand_at x.now y.now k j }
{
    if j == 0 { x[k] } else { y[k] }
}

// Whether v, of operand j, is a divisor and zero.
fn is_zero_divisor(j: usize, v: u64) -> bool
    ensures { result ≡ zero_divisor j v }
{
    j != 0 && v == 0
}

// The slot of a quotient or a remainder.
fn divide_slots(op: Division, t: ElementType, a: u64, b: u64) -> u64
    requires { SlotHolds t a × SlotHolds t b }
    ensures { result ≡ (division_of op t a b).1 }
{
    division::apply_division(op, t, a, b).unwrap_or(0)
}

// Kept: the nested walk of elements and operands, left by its label, is a rule of the project.
// Each element's operands in turn; a zero divisor ends the walk, which yields the op's number and the element.
pub fn division_into(
    number: usize,
    op: Division,
    t: ElementType,
    x: &[u64],
    y: &[u64],
    out: &mut [u64],
) -> Result<(), ZeroDivisor>
    requires { Holds t (length out.old) x.now × Holds t (length out.old) y.now }
    ensures { Divides number op t x.now y.now result out.old out.new }
{
    let mut answer = Ok(());
    'walk: for k in 0..out.len() {
        let mut pair = [0u64; 2];
        for j in 0..2 {
            let v = operand_at(x, y, k, j);
            if is_zero_divisor(j, v) {
                answer = Err(ZeroDivisor {
                    op: number,
                    element: k,
                });
                break 'walk;
            }
            pair[j] = v;
        }
        out[k] = divide_slots(op, t, pair[0], pair[1]);
    }
    answer
}
