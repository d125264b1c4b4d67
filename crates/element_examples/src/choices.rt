// Comparing and choosing.
use element::ElementType;
use scalar::Direction;

// The op on N elements.
fn compare<const N: usize>(
    rt: &impl Print,
    d: Direction,
    t: ElementType,
    x: [u64; N],
    y: [u64; N],
) {
    let mut out = [0; N];
    shown_elements::compare(rt, b"compare", d, t, &x, &y, &mut out);
}

fn select<const N: usize>(rt: &impl Print, pred: [u64; N], x: [u64; N], y: [u64; N]) {
    let mut out = [0; N];
    shown_elements::select(rt, b"select", &pred, &x, &y, &mut out);
}

fn clamp<const N: usize>(
    rt: &impl Print,
    t: ElementType,
    min: [u64; N],
    x: [u64; N],
    max: [u64; N],
) {
    let mut out = [0; N];
    shown_elements::clamp(rt, b"clamp", t, &min, &x, &max, &mut out);
}

// compare: 000, times ten as integers; the other directions on the same operands
pub fn compare_examples(rt: &impl Print) {
    let directions = [
        Direction::Lt,
        Direction::Eq,
        Direction::Ne,
        Direction::Ge,
        Direction::Gt,
        Direction::Le,
    ];
    for d in directions {
        compare(rt, d, ElementType::I32, [10, 30], [11, 29]);
    }
}

// select: 000
pub fn select_examples(rt: &impl Print) {
    select(rt, [0, 1, 1, 0], [1, 2, 3, 4], [5, 6, 7, 8]);
}

// clamp: 000; 01: min 5, x 4, max 3
pub fn clamp_examples(rt: &impl Print) {
    clamp(rt, ElementType::I32, [5, 10, 15], [3, 13, 23], [10, 15, 20]);
    clamp(rt, ElementType::I32, [5], [4], [3]);
}
