// Dense values: "one literal for every element, or lists nested one level per dimension with exactly the sizes of the shape" (01, "The text").
#![tactic(auto)]

ghost use Rattle.std.specs.Prelude.{◌≡◌, ◌-◌, ◌≤◌, eqb};
ghost use Rattle.laid.specs.Laid.{laid};
ghost use Rattle.shape.specs.Index.{rest};
ghost use Rattle.shape.specs.Dims.{dims_of, Fills};
ghost use Rattle.types.specs.Numbers.{number_read};
ghost use Rattle.dense.specs.Dense.{boolean_of, literal_of, mark_at, comma_before, one_at, dense_at, dense_value};
ghost use Rattle.dense.specs.Filled.{dense_reading, outcome, after, reading_of, filled, filled_by};

use element::ElementType;
use laid::put;
use shape::Shape;
use text::names::is_word;
use text::{Token, token_at};
use types::numbers::number_in;

// Where reading stands: the place after what was read, and the place of the next slot to write.
#[derive(Clone, Copy)]
pub struct Position {
    pub next: usize,
    pub place: usize,
}

#[tactic(auto, using(std::proofs::lemmas::Bool::Decides::nat_tests), unfolding(crate::specs::Dense::boolean_of))]
fn boolean(text: &[u8], t: Token) -> Option<u64>
    ensures { number_read result ≡ boolean_of text.now t }
{
    if is_word(text, t.start, t.end, b"true") {
        Some(1)
    } else if is_word(text, t.start, t.end, b"false") {
        Some(0)
    } else {
        None
    }
}

// The slot of a literal of type e.
#[tactic(auto, using(std::proofs::lemmas::Bool::Decides::nat_tests), unfolding(crate::specs::Dense::literal_of))]
fn literal(text: &[u8], t: Token, e: ElementType) -> Option<u64>
    ensures { number_read result ≡ literal_of e text.now t }
{
    if e.is_bool() {
        boolean(text, t)
    } else if t.kind == 2 {
        number_in(text, t.start, e)
    } else {
        None
    }
}

// A mark. `Err`, here and below: where reading stands at the fault.
#[tactic(auto, using(std::proofs::lemmas::Bool::Decides::nat_tests), unfolding(crate::specs::Dense::mark_at))]
fn mark(text: &[u8], at: usize, b: u8, place: usize) -> Result<Position, Position>
    ensures { dense_reading result ≡ reading_of (mark_at b text.now at) place }
{
    let t = token_at(text, at);
    let position = Position { next: t.end, place };
    if t.kind == b {
        Ok(position)
    } else {
        Err(position)
    }
}

// The comma before item j, or nothing before the first.
#[tactic(auto, using(std::proofs::lemmas::Bool::Decides::nat_tests), unfolding(crate::specs::Dense::comma_before, crate::specs::Dense::mark_at))]
fn separator(text: &[u8], at: usize, j: usize, place: usize) -> Result<Position, Position>
    ensures { dense_reading result ≡ reading_of (comma_before (eqb j 0) text.now at) place }
{
    if j == 0 {
        Ok(Position { next: at, place })
    } else {
        mark(text, at, b',', place)
    }
}

// One element.
fn element(
    text: &[u8],
    at: usize,
    e: ElementType,
    out: &mut [u64],
    place: usize,
) -> Result<Position, Position>
    ensures { outcome (dense_reading result) out.new ≡ after (one_at e text.now at) (laid place out.old) }
{
    let t = token_at(text, at);
    match literal(text, t, e) {
        Some(bits) => Ok(Position {
            next: t.end,
            place: put(out, place, bits),
        }),
        None => Err(Position { next: t.end, place }),
    }
}

// The lists of the last k dimensions of the shape: k falls at each call.
fn lists(
    text: &[u8],
    at: usize,
    e: ElementType,
    shape: Shape,
    k: usize,
    out: &mut [u64],
    from: usize,
) -> Result<Position, Position>
    requires { (k ≤ shape.rank) × (shape.rank ≤ 6) }
    ensures { outcome (dense_reading result) out.new ≡ after (dense_at e (rest shape.dims shape.rank (shape.rank - k)) text.now at) (laid from out.old) }
{
    if k == 0 {
        return element(text, at, e, out, from);
    }
    let size = shape.dims[shape.rank - k];
    let mut here = mark(text, at, b'[', from)?;
    for j in 0..size {
        let item = separator(text, here.next, j, here.place)?;
        here = lists(text, item.next, e, shape, k - 1, out, item.place)?;
    }
    mark(text, here.next, b']', here.place)
}

// The dense value at `at` into `out`, which has a slot for each element: whether it is one of the type and the shape.
pub fn read_dense(text: &[u8], at: usize, e: ElementType, shape: Shape, out: &mut [u64]) -> bool
    requires { (shape.rank ≤ 6) × Fills out.old shape }
    ensures { filled result out.new ≡ filled_by (dense_value e (dims_of shape) text.now at) out.old }
{
    let t = token_at(text, at);
    if t.kind == b'[' {
        return lists(text, at, e, shape, shape.rank, out, 0).is_ok();
    }
    match literal(text, t, e) {
        Some(bits) => {
            out.fill(bits);
            true
        }
        None => false,
    }
}

// Whether the dense value at `at` is one of the type and the shape (refusal 7); its elements are kept nowhere.
pub fn dense_fits(text: &[u8], at: usize, e: ElementType, shape: Shape) -> bool
    requires { shape.rank ≤ 6 }
    ensures { result ≡ (dense_value e (dims_of shape) text.now at).ok }
{
    let t = token_at(text, at);
    if t.kind == b'[' {
        let mut none = [0u64; 1];
        return lists(text, at, e, shape, shape.rank, &mut none, 0).is_ok();
    }
    literal(text, t, e).is_some()
}
