// Quotients and remainders. A slot of a negative number is its 64-bit pattern.
#![tactic(auto)]

ghost use Rattle.shown_elements.specs.Held.{Held};

use division::Division;
use element::ElementType;

// The op on N elements.
fn division<const N: usize>(
    rt: &impl Print,
    name: &[u8],
    op: Division,
    t: ElementType,
    x: [u64; N],
    y: [u64; N],
)
    requires { Held t N x × Held t N y }
{
    let mut out = [0; N];
    shown_elements::division(rt, name, op, t, &x, &y, &mut out);
}

// divide or remainder: 01, the four signs, and the lowest by -1
pub fn division_examples(rt: &impl Print, name: &[u8], op: Division) {
    let dividends = [17, 18446744073709551599, 17, 18446744073709551599];
    let divisors = [3, 3, 18446744073709551613, 18446744073709551613];
    division(rt, name, op, ElementType::I32, dividends, divisors);
    let lowest = [18446744073709551488];
    let minus_one = [18446744073709551615];
    division(rt, name, op, ElementType::I8, lowest, minus_one);
}
