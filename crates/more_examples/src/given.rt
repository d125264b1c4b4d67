// constant. A slot of a negative number is its 64-bit pattern.
ghost use Rattle.std.specs.Prelude.{◌≡◌, length};

use shown::show;

// Fills the lent stretch with the given elements and shows it.
fn constant(rt: &impl Print, values: &[u64], out: &mut [u64])
    requires { length values.now ≡ length out.old }
    ensures { out.new ≡ values.now }
{
    constants::constant_into(values, out);
    show(rt, b"constant", out);
}

// A constant of N elements.
pub fn given<const N: usize>(rt: &impl Print, values: [u64; N]) -> [u64; N]
    ensures { result ≡ values.entry }
{
    let mut out = [77; N];
    constant(rt, &values, &mut out);
    out
}

// constant: 000, as integers; 01's text: the table and the ui8 255
pub fn paper_examples(rt: &impl Print) {
    given(rt, [0, 1, 2, 3]);
    given(rt, [1650, 1675, 1700, 1725]);
    given(rt, [255]);
}

// constant: booleans, negative numbers, one literal for every element, no elements
pub fn other_examples(rt: &impl Print) {
    given(rt, [1, 0]);
    given(rt, [18446744073709551488, 18446744073709551615, 127]);
    given(rt, [7; 6]);
    given::<0>(rt, []);
}
