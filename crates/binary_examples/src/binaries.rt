// Ops on two operands, element by element.
use element::ElementType;
use scalar::Binary;

// The op on N elements.
fn binary<const N: usize>(
    rt: &impl Print,
    name: &[u8],
    op: Binary,
    t: ElementType,
    x: [u64; N],
    y: [u64; N],
) {
    let mut out = [0; N];
    shown_elements::binary(rt, name, op, t, &x, &y, &mut out);
}

// add: 000; 01: i8 127 + 1, ui8 255 + 1, i1 true + true
pub fn add_examples(rt: &impl Print) {
    binary(
        rt,
        b"add",
        Binary::Add,
        ElementType::I32,
        [1, 2, 3, 4],
        [5, 6, 7, 8],
    );
    binary(rt, b"add", Binary::Add, ElementType::I8, [127], [1]);
    binary(rt, b"add", Binary::Add, ElementType::U8, [255], [1]);
    binary(rt, b"add", Binary::Add, ElementType::I1, [1], [1]);
}

// subtract: 000, as integers
pub fn subtract_examples(rt: &impl Print) {
    binary(
        rt,
        b"subtract",
        Binary::Subtract,
        ElementType::I32,
        [6, 8, 10, 12],
        [5, 6, 7, 8],
    );
}

// multiply: 000
pub fn multiply_examples(rt: &impl Print) {
    binary(
        rt,
        b"multiply",
        Binary::Multiply,
        ElementType::I32,
        [1, 2, 3, 4],
        [5, 6, 7, 8],
    );
}

// maximum: 000
pub fn maximum_examples(rt: &impl Print) {
    binary(
        rt,
        b"maximum",
        Binary::Maximum,
        ElementType::I32,
        [1, 2, 7, 8],
        [5, 6, 3, 4],
    );
}

// minimum: 000
pub fn minimum_examples(rt: &impl Print) {
    binary(
        rt,
        b"minimum",
        Binary::Minimum,
        ElementType::I32,
        [1, 2, 7, 8],
        [5, 6, 3, 4],
    );
}

// and: 000 and 01
pub fn bit_and_examples(rt: &impl Print) {
    binary(
        rt,
        b"and",
        Binary::And,
        ElementType::I32,
        [1, 2, 3, 4],
        [5, 6, 7, 8],
    );
}

// or: 000, integers and booleans
pub fn bit_or_examples(rt: &impl Print) {
    binary(
        rt,
        b"or",
        Binary::Or,
        ElementType::I32,
        [1, 2, 3, 4],
        [5, 6, 7, 8],
    );
    binary(
        rt,
        b"or",
        Binary::Or,
        ElementType::I1,
        [0, 0, 1, 1],
        [0, 1, 0, 1],
    );
}

// xor: 000, integers and booleans
pub fn bit_xor_examples(rt: &impl Print) {
    binary(
        rt,
        b"xor",
        Binary::Xor,
        ElementType::I32,
        [1, 2, 3, 4],
        [5, 6, 7, 8],
    );
    binary(
        rt,
        b"xor",
        Binary::Xor,
        ElementType::I1,
        [0, 0, 1, 1],
        [0, 1, 0, 1],
    );
}

// shift_left: 000
pub fn shift_left_examples(rt: &impl Print) {
    binary(
        rt,
        b"shift_left",
        Binary::ShiftLeft,
        ElementType::I64,
        [18446744073709551615, 0, 1],
        [1, 2, 3],
    );
}

// shift_right_arithmetic: 000; 01: i8 -128 by 8
pub fn shift_right_arithmetic_examples(rt: &impl Print) {
    binary(
        rt,
        b"shift_right_arithmetic",
        Binary::ShiftRightArithmetic,
        ElementType::I64,
        [18446744073709551615, 0, 8],
        [1, 2, 3],
    );
    binary(
        rt,
        b"shift_right_arithmetic",
        Binary::ShiftRightArithmetic,
        ElementType::I8,
        [18446744073709551488],
        [8],
    );
}

// shift_right_logical: 000; 01: i8 -128 by 7
pub fn shift_right_logical_examples(rt: &impl Print) {
    binary(
        rt,
        b"shift_right_logical",
        Binary::ShiftRightLogical,
        ElementType::I64,
        [18446744073709551615, 0, 8],
        [1, 2, 3],
    );
    binary(
        rt,
        b"shift_right_logical",
        Binary::ShiftRightLogical,
        ElementType::I8,
        [18446744073709551488],
        [7],
    );
}
