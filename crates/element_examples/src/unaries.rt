// Ops on one operand, element by element.
use element::ElementType;
use scalar::Unary;

// The op on N elements.
fn unary<const N: usize>(rt: &impl Print, name: &[u8], op: Unary, t: ElementType, x: [u64; N]) {
    let mut out = [0; N];
    shown_elements::unary(rt, name, op, t, &x, &mut out);
}

fn convert<const N: usize>(rt: &impl Print, from: ElementType, to: ElementType, x: [u64; N]) {
    let mut out = [0; N];
    shown_elements::convert(rt, b"convert", from, to, &x, &mut out);
}

// abs: 000, and 01: i8 -128
pub fn abs_examples(rt: &impl Print) {
    unary(
        rt,
        b"abs",
        Unary::Abs,
        ElementType::I32,
        [18446744073709551614, 0, 2],
    );
    unary(
        rt,
        b"abs",
        Unary::Abs,
        ElementType::I8,
        [18446744073709551488],
    );
}

// sign: 000, as integers
pub fn sign_examples(rt: &impl Print) {
    unary(
        rt,
        b"sign",
        Unary::Sign,
        ElementType::I64,
        [18446744073709551609, 18446744073709551615, 0, 1],
    );
}

// negate: 000
pub fn negate_examples(rt: &impl Print) {
    unary(
        rt,
        b"negate",
        Unary::Negate,
        ElementType::I32,
        [0, 18446744073709551614],
    );
}

// not: 000, integers and booleans
pub fn bit_not_examples(rt: &impl Print) {
    unary(rt, b"not", Unary::Not, ElementType::I32, [1, 2, 3, 4]);
    unary(rt, b"not", Unary::Not, ElementType::I1, [1, 0]);
}

// count_leading_zeros: 000
pub fn count_leading_zeros_examples(rt: &impl Print) {
    unary(
        rt,
        b"count_leading_zeros",
        Unary::CountLeadingZeros,
        ElementType::I64,
        [0, 1, 128, 18446744073709551615],
    );
}

// popcnt: 000
pub fn popcnt_examples(rt: &impl Print) {
    unary(
        rt,
        b"popcnt",
        Unary::Popcnt,
        ElementType::I64,
        [0, 1, 2, 127],
    );
}

// convert: 000, to i8 and to i1; 01: i32 300 to ui8, ui8 200 to i8
pub fn convert_examples(rt: &impl Print) {
    convert(
        rt,
        ElementType::I64,
        ElementType::I8,
        [18446744073709551615, 0, 1],
    );
    convert(
        rt,
        ElementType::I64,
        ElementType::I1,
        [18446744073709551615, 0, 1],
    );
    convert(rt, ElementType::I32, ElementType::U8, [300]);
    convert(rt, ElementType::U8, ElementType::I8, [200]);
}
