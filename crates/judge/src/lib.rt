// Refusals 1 to 4 of a text (01, "The twelve refusals").
#![tactic(auto)]

mod roles;
mod sizes;
mod tally;

ghost use Rattle.std.specs.Prelude.{◌≡◌, ◌≤◌, true, length, Err};
ghost use Rattle.grammar.specs.Symbols.{Program};
ghost use Rattle.syntax.specs.Readings.{reading, readings_of};
ghost use Rattle.judge.specs.Tally.{TallyWithin, at_start};
ghost use Rattle.judge.specs.Refusals.{numbers_of};
ghost use Rattle.judge.specs.Judge.{unknown, refusal_at, earliest, refusal_from, text_refusal};

use crate::roles::{is_op, is_type};
use crate::sizes::size_passed;
use crate::tally::{Tally, after_token};
use grammar::start;
use grammar::symbols::{Role, Symbol};
use limits::Limits;
use optable::{find_attribute, find_choice, find_choice_kind, find_op};
use reader::{Reader, new};
use syntax::{Stack, read_token};
use text::Token;
use types::tensors::type_at;

// Why a text or a run is refused: refusals 1 to 12 of 01 in order, with A and B.
#[derive(Clone, Copy)]
pub enum Refused {
    // The text has this length, which is too long.
    TextTooLong(usize),
    // At this byte the grammar fails.
    Grammar(usize),
    // At this byte stands the name of an op, a type, an attribute or a choice that is not known.
    UnknownName(usize),
    // The token at this byte passes the size of this number.
    SizePassed(usize, usize),
    // The value name at this byte is not defined before.
    Undefined(usize),
    // The value name at this byte is defined twice.
    Redefined(usize),
    // The op of this number, or the return, is not well typed.
    Typing(usize),
    // The op of the first number breaks the constraint of the second number.
    Constraint(usize, usize),
    // The store has fewer slots than this number, which the program needs.
    StoreShort(usize),
    // The inputs have another number of slots than this, which the program takes.
    InputCount(usize),
    // The input slot of this number holds no value of its type.
    ForeignInput(usize),
    // The op of the first number divides by zero at the element of the second.
    ZeroDivisor(usize, usize),
}

impl Refused {
    // The refusal's number, A and B; 0 where 01 names none.
    pub fn numbers(self) -> (usize, usize, usize)
        ensures { numbers_of (Err self) ≡ record { number = result.0; a = result.1; b = result.2 } }
    {
        match self {
            Refused::TextTooLong(a) => (1, a, 0),
            Refused::Grammar(a) => (2, a, 0),
            Refused::UnknownName(a) => (3, a, 0),
            Refused::SizePassed(a, b) => (4, a, b),
            Refused::Undefined(a) => (5, a, 0),
            Refused::Redefined(a) => (6, a, 0),
            Refused::Typing(a) => (7, a, 0),
            Refused::Constraint(a, b) => (8, a, b),
            Refused::StoreShort(a) => (9, a, 0),
            Refused::InputCount(a) => (10, a, 0),
            Refused::ForeignInput(a) => (11, a, 0),
            Refused::ZeroDivisor(a, b) => (12, a, b),
        }
    }
}

// Whether a token of this role is a name that 01 and 000 lack (refusal 3).
#[tactic(auto, unfolding(crate::specs::Judge::unknown))]
fn is_unknown(text: &[u8], role: u8, t: Token) -> bool
    ensures { result ≡ unknown text.now role t }
{
    if is_op(role) {
        return find_op(text, t.start, t.end).is_none();
    }
    if is_type(role) {
        return type_at(text, t.start).is_none();
    }
    match role {
        Role::ATTRIBUTE_NAME => find_attribute(text, t.start, t.end).is_none(),
        Role::CHOICE_KIND => find_choice_kind(text, t.start, t.end).is_none(),
        Role::CHOICE => find_choice(text, t.start, t.end).is_none(),
        _ => false,
    }
}

// Refusal 3 or 4 of one token, by the state before it.
#[tactic(auto, unfolding(crate::specs::Judge::refusal_at))]
fn refusal_at(text: &[u8], s: Tally, role: u8, t: Token) -> Result<(), Refused>
    requires { TallyWithin 65536 s }
    ensures { numbers_of result ≡ refusal_at text.now s (reading true role t) }
{
    if is_unknown(text, role, t) {
        return Err(Refused::UnknownName(t.start));
    }
    match size_passed(text, s, role, t) {
        Some(size) => Err(Refused::SizePassed(t.start, size)),
        None => Ok(()),
    }
}

// The earliest refusal of a text's tokens from a byte on; the array holds what the grammar expects.
fn earliest_refusal(text: &[u8], from: usize, stack: &mut [u8]) -> Result<(), Refused>
    requires { (length text.now ≤ 65536) × (length stack.old ≡ 655380) }
    ensures { numbers_of result ≡ earliest text.now at_start (readings_of Program text.now from) }
{
    let mut top = start(stack, Symbol::PROGRAM);
    let mut at = from;
    let mut s = Tally {
        more: false,
        items: 0,
        elements: 0,
        ops: 0,
        depth: 0,
    };
    for _ in 0..=text.len() {
        if top == stack.len() {
            return Ok(());
        }
        let turn = read_token(text, at, stack, top);
        let t = turn.token;
        let Some(taken) = turn.taken else {
            return Err(Refused::Grammar(t.start));
        };
        refusal_at(text, s, taken.role, t)?;
        s = after_token(text, s, taken.role, t);
        top = taken.top;
        at = t.end;
    }
    Ok(())
}

// Refusal 1, 2, 3 or 4 of a text that is read from byte at on, or none.
pub fn refusal_from(text: &[u8], at: usize) -> Result<(), Refused>
    ensures { numbers_of result ≡ refusal_from text.now at }
{
    if Limits::TEXT < text.len() {
        return Err(Refused::TextTooLong(text.len()));
    }
    let mut stack: [u8; Stack::SIZE] = [0; Stack::SIZE];
    earliest_refusal(text, at, &mut stack)
}

// The same of a reader's text, from its position on.
pub fn refusal_of<'a>(r: Reader<'a>) -> Result<(), Refused>
    ensures { numbers_of result ≡ refusal_from r.entry.text.now r.entry.at }
{
    refusal_from(r.text, r.at)
}

// Refusal 1, 2, 3 or 4 of a text, or none.
#[tactic(auto, unfolding(crate::specs::Judge::text_refusal))]
pub fn read_refusal(text: &[u8]) -> Result<(), Refused>
    ensures { numbers_of result ≡ text_refusal text.now }
{
    refusal_of(new(text))
}
