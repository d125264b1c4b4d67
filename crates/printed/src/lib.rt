// Results as the evaluating program prints them, for example `dense<[1725]> : tensor<1xui16>`.
#![tactic(auto)]

ghost use Rattle.std.specs.Prelude.{◌≡◌, [], ◌+◌, ◌-◌, ◌<◌, ◌≤◌, length, drop, eqb, ◌||◌};
ghost use Rattle.lists.specs.Lists.{pick};
ghost use Rattle.scan.specs.Ascii.{ascii};
ghost use Rattle.laid.specs.Laid.{laid, lay, written};
ghost use Rattle.element.specs.Types.{signed_of, bool_of, value_of};
ghost use Rattle.shape.specs.Index.{size, rest};
ghost use Rattle.shape.specs.Dims.{dims_of, Sized, Fills};
ghost use Rattle.printed.specs.Printed.{digits_of, number_text, literal_text, value_text, shape_text, element_text, printed};

use element::{ElementType, is_negative, magnitude};
use laid::put;
use shape::Shape;

// The place after what was printed, and the slot after those printed.
#[derive(Clone, Copy)]
pub struct Printing {
    pub place: usize,
    pub slot: usize,
}

fn digit(n: u64) -> u8
    requires { n < 10 }
    ensures { result ≡ 48 + n }
{
    b'0' + n as u8
}

// The decimal digits of n, at most `most`, which falls at each call.
fn put_digits(n: u64, most: usize, out: &mut [u8], from: usize) -> usize
    ensures { laid result out.new ≡ lay (digits_of most n) (laid from out.old) }
{
    if most == 0 {
        from
    } else if n < 10 {
        put(out, from, digit(n))
    } else {
        let p = put_digits(n / 10, most - 1, out, from);
        put(out, p, digit(n % 10))
    }
}

// The bytes of a text, as far as there is room; the place after them.
pub fn put_text(out: &mut [u8], from: usize, word: &[u8]) -> usize
    ensures { laid result out.new ≡ lay word.now (laid from out.old) }
{
    let mut place = from;
    for b in word {
        place = put(out, place, *b);
    }
    place
}

// The number that a slot holds: `-` where it is below 0, and its digits.
fn put_number(e: ElementType, s: u64, out: &mut [u8], from: usize) -> usize
    ensures { laid result out.new ≡ lay (number_text (value_of e s)) (laid from out.old) }
{
    let m = magnitude(e, s);
    if is_negative(e, s) {
        let p = put(out, from, b'-');
        put_digits(m, 20, out, p)
    } else {
        put_digits(m, 20, out, from)
    }
}

fn put_boolean(s: u64, out: &mut [u8], from: usize) -> usize
    ensures { laid result out.new ≡ lay (pick (eqb s 0) (ascii "false") (ascii "true")) (laid from out.old) }
{
    if s == 0 {
        put_text(out, from, b"false")
    } else {
        put_text(out, from, b"true")
    }
}

// A slot as a literal of its type.
fn put_literal(e: ElementType, s: u64, out: &mut [u8], from: usize) -> usize
    ensures { laid result out.new ≡ lay (literal_text e s) (laid from out.old) }
{
    if e.is_bool() {
        put_boolean(s, out, from)
    } else {
        put_number(e, s, out, from)
    }
}

// `, ` before item j, or nothing before the first.
fn put_separator(j: usize, out: &mut [u8], from: usize) -> usize
    ensures { laid result out.new ≡ lay (pick (eqb j 0) [] (ascii ", ")) (laid from out.old) }
{
    if j == 0 {
        from
    } else {
        put_text(out, from, b", ")
    }
}

// The lists of the last k dimensions of the shape, of the elements from `slot` on: k falls at each call.
fn put_lists(
    e: ElementType,
    shape: Shape,
    k: usize,
    slots: &[u64],
    slot: usize,
    out: &mut [u8],
    from: usize,
) -> Printing
    requires { (k ≤ shape.rank) × (shape.rank ≤ 6) × (slot + size (rest shape.dims shape.rank (shape.rank - k)) ≤ length slots.now) }
    ensures { (result.slot ≡ slot + size (rest shape.dims shape.rank (shape.rank - k)))
        × (laid result.place out.new ≡ lay (value_text e (rest shape.dims shape.rank (shape.rank - k)) (drop slot slots.now)) (laid from out.old)) }
{
    if k == 0 {
        return Printing {
            place: put_literal(e, slots[slot], out, from),
            slot: slot + 1,
        };
    }
    let count = shape.dims[shape.rank - k];
    let mut place = put(out, from, b'[');
    let mut here = slot;
    for j in 0..count {
        let p = put_separator(j, out, place);
        let r = put_lists(e, shape, k - 1, slots, here, out, p);
        place = r.place;
        here = r.slot;
    }
    Printing {
        place: put(out, place, b']'),
        slot: here,
    }
}

// The sizes of the shape, each followed by an 'x'.
fn put_shape(shape: Shape, out: &mut [u8], from: usize) -> usize
    requires { shape.rank ≤ 6 }
    ensures { laid result out.new ≡ lay (shape_text (dims_of shape)) (laid from out.old) }
{
    let mut place = from;
    for d in &shape.dims[..shape.rank] {
        let p = put_digits(*d as u64, 20, out, place);
        place = put(out, p, b'x');
    }
    place
}

// The `u` of the unsigned types.
fn put_sign(e: ElementType, out: &mut [u8], from: usize) -> usize
    ensures { laid result out.new ≡ lay (pick (signed_of e || bool_of e) [] (ascii "u")) (laid from out.old) }
{
    if e.is_signed() || e.is_bool() {
        from
    } else {
        put(out, from, b'u')
    }
}

// The name of the element type.
fn put_element(e: ElementType, out: &mut [u8], from: usize) -> usize
    ensures { laid result out.new ≡ lay (element_text e) (laid from out.old) }
{
    let p = put_sign(e, out, from);
    let q = put(out, p, b'i');
    put_digits(e.width(), 20, out, q)
}

// The value and its type into `out` from `from` on, and the place after the last byte: no value of a shape within the sizes of 01 takes more than 200,000.
pub fn print_dense(
    e: ElementType,
    shape: Shape,
    slots: &[u64],
    out: &mut [u8],
    from: usize,
) -> usize
    requires { Sized shape × Fills slots.now shape × (from + 200000 ≤ length out.old) }
    ensures { laid result out.new ≡ written (printed e (dims_of shape) slots.now) from out.old }
{
    let a = put_text(out, from, b"dense<");
    let r = put_lists(e, shape, shape.rank, slots, 0, out, a);
    let b = put_text(out, r.place, b"> : tensor<");
    let c = put_shape(shape, out, b);
    let d = put_element(e, out, c);
    put_text(out, d, b">")
}
