// Value names in scope: refusals 5 and 6.
#![tactic(auto)]

ghost use Rattle.std.specs.Prelude.{◌≡◌, ◌+◌, ◌<◌, ◌≤◌, [], ◌∷◌, length, drop, Ok};
ghost use Rattle.grammar.specs.Symbols.{Op};
ghost use Rattle.syntax.specs.Readings.{readings_of};
ghost use Rattle.scope.specs.Scope.{scope, name_at, same_at, defines, visible, define, look, settle, begins, ends, placed, turned, names_from, names_of, inputs_from, fault_of};
ghost use Rattle.scope.specs.Faults.{name_numbers};
ghost use Rattle.scope.specs.Scoped.{ScopeAnswered, Forgotten, waiting_count};

use grammar::start;
use grammar::symbols::{Role, Symbol};
use syntax::read_token;
use text::names::{Name, same_name};
use text::token_at;

// The opening of a body among the entries. Below it an entry is a defined name, above it a waiting one.
const BODY: usize = 131072;

// A waiting name is an entry of this number more than its first byte.
const WAITING: usize = BODY + 1;

// A value name that is refused, by its first byte.
#[derive(Clone, Copy)]
pub enum BadName {
    // It is not defined before.
    Undefined(usize),
    // It is defined twice.
    Redefined(usize),
}

#[tactic(auto, unfolding(crate::specs::Scope::name_at))]
fn name_at(text: &[u8], a: usize) -> Name
    ensures { result ≡ name_at text.now a }
{
    Name {
        at: a,
        len: token_at(text, a).end - a,
    }
}

// Whether one name stands at both places.
#[tactic(auto, unfolding(crate::specs::Scope::same_at))]
pub fn same_at(text: &[u8], a: usize, b: usize) -> bool
    ensures { result ≡ same_at text.now a b }
{
    same_name(text, name_at(text, a), name_at(text, b))
}

// Whether the entry defines the name at a.
#[tactic(auto, unfolding(crate::specs::Scope::defines))]
fn is_definition(text: &[u8], entry: usize, a: usize) -> bool
    ensures { result ≡ defines text.now entry a }
{
    entry < BODY && same_at(text, entry, a)
}

fn is_visible(text: &[u8], a: usize, entries: &[usize], top: usize) -> bool
    ensures { result ≡ visible text.now a (drop top entries.now) }
{
    for i in top..entries.len() {
        if is_definition(text, entries[i], a) {
            return true;
        }
    }
    false
}

// Puts an entry on top, and answers where the entries then start.
fn push(entry: usize, entries: &mut [usize], top: usize) -> usize
    requires { (1 ≤ top) × (top ≤ length entries.old) }
    ensures { ScopeAnswered (scope (entry ∷ drop top entries.old)) 1 entries.old top (Ok result) entries.new }
{
    entries[top - 1] = entry;
    top - 1
}

// Defines the name at a, and answers where the entries then start.
fn define_name(text: &[u8], a: usize, entries: &mut [usize], top: usize) -> Result<usize, BadName>
    requires { (1 ≤ top) × (top ≤ length entries.old) }
    ensures { ScopeAnswered (define text.now a (drop top entries.old)) 1 entries.old top result entries.new }
{
    if is_visible(text, a, entries, top) {
        return Err(BadName::Redefined(a));
    }
    Ok(push(a, entries, top))
}

fn look_up(text: &[u8], a: usize, entries: &[usize], top: usize) -> Result<usize, BadName>
    requires { top ≤ length entries.now }
    ensures { ScopeAnswered (look text.now a (drop top entries.now)) 0 entries.now top result entries.now }
{
    if is_visible(text, a, entries, top) {
        return Ok(top);
    }
    Err(BadName::Undefined(a))
}

// Where the waiting names on top end.
fn waiting_end(entries: &[usize], top: usize) -> usize
    requires { top ≤ length entries.now }
    ensures { result ≡ top + waiting_count (drop top entries.now) }
{
    for i in top..entries.len() {
        if entries[i] <= BODY {
            return i;
        }
    }
    entries.len()
}

// Defines the waiting names on top from the lowest up.
fn settle_names(text: &[u8], entries: &mut [usize], top: usize) -> Result<usize, BadName>
    requires { top ≤ length entries.old }
    ensures { ScopeAnswered (settle text.now (drop top entries.old)) 0 entries.old top result entries.new }
{
    for k in (top..waiting_end(entries, top)).rev() {
        let a = entries[k] - WAITING;
        if is_visible(text, a, entries, k + 1) {
            return Err(BadName::Redefined(a));
        }
        entries[k] = a;
    }
    Ok(top)
}

// Where the entries before the last open body start.
fn forget_body(entries: &[usize], top: usize) -> usize
    requires { top ≤ length entries.now }
    ensures { Forgotten entries.now top result }
{
    for i in top..entries.len() {
        if entries[i] == BODY {
            return i + 1;
        }
    }
    entries.len()
}

// Whether an op begins at a token of this role, after one of the role previous.
#[tactic(auto, unfolding(crate::specs::Scope::begins, scan::specs::Bytes::among))]
fn begins_op(previous: u8, role: u8) -> bool
    ensures { result ≡ begins previous role }
{
    match role {
        Role::RESULT_NAME => previous != Role::COMMA,
        Role::OP_NAME | Role::FUNC_RETURN | Role::BODY_OP_NAME | Role::BODY_RETURN => {
            previous != Role::EQUALS
        }
        _ => false,
    }
}

#[tactic(auto, unfolding(crate::specs::Scope::ends))]
fn ends_op(previous: u8, role: u8) -> bool
    ensures { result ≡ ends previous role }
{
    role == Role::BODY_CLOSE || begins_op(previous, role)
}

// One token of this role at byte a.
fn place_name(
    text: &[u8],
    role: u8,
    a: usize,
    entries: &mut [usize],
    top: usize,
) -> Result<usize, BadName>
    requires { (1 ≤ top) × (top ≤ length entries.old) × (a ≤ 65536) }
    ensures { ScopeAnswered (placed text.now role a (drop top entries.old)) 1 entries.old top result entries.new }
{
    match role {
        Role::INPUT_NAME | Role::ARGUMENT_NAME => define_name(text, a, entries, top),
        Role::RESULT_NAME => Ok(push(a + WAITING, entries, top)),
        Role::OPERAND_NAME => look_up(text, a, entries, top),
        Role::BODY_OPEN => Ok(push(BODY, entries, top)),
        Role::BODY_CLOSE => Ok(forget_body(entries, top)),
        _ => Ok(top),
    }
}

// The same, after the results of an op that ends before the token.
fn turn(
    text: &[u8],
    previous: u8,
    role: u8,
    a: usize,
    entries: &mut [usize],
    top: usize,
) -> Result<usize, BadName>
    requires { (1 ≤ top) × (top ≤ length entries.old) × (a ≤ 65536) }
    ensures { ScopeAnswered (turned text.now previous role a (drop top entries.old)) 1 entries.old top result entries.new }
{
    if ends_op(previous, role) {
        let settled = settle_names(text, entries, top)?;
        return place_name(text, role, a, entries, settled);
    }
    place_name(text, role, a, entries, top)
}

// The tokens of the op whose first is at or after byte at.
fn read_names(
    text: &[u8],
    at: usize,
    stack: &mut [u8],
    entries: &mut [usize],
    top: usize,
) -> Result<usize, BadName>
    requires { (length text.now ≤ 65536) × (length stack.old ≡ 655380) × (at ≤ length text.now) × (length text.now + 1 ≤ top) × (top ≤ length entries.old) }
    ensures { ScopeAnswered (names_from text.now 0 (drop top entries.old) (readings_of Op text.now at)) (length text.now + 1) entries.old top result entries.new }
{
    let mut first = top;
    let mut previous = 0;
    let mut next = start(stack, Symbol::OP);
    let mut place = at;
    for _ in 0..=text.len() {
        if next == stack.len() {
            return Ok(first);
        }
        let read = read_token(text, place, stack, next);
        let Some(taken) = read.taken else {
            return Ok(first);
        };
        first = turn(text, previous, taken.role, read.token.start, entries, first)?;
        previous = taken.role;
        next = taken.top;
        place = read.token.end;
    }
    Ok(first)
}

// The entries after the op whose first token is at or after byte at; past the end of the text there is none.
fn after_op(
    text: &[u8],
    at: usize,
    stack: &mut [u8],
    entries: &mut [usize],
    top: usize,
) -> Result<usize, BadName>
    requires { (length text.now ≤ 65536) × (length stack.old ≡ 655380) × (length text.now + 1 ≤ top) × (top ≤ length entries.old) }
    ensures { ScopeAnswered (names_of text.now at (drop top entries.old)) (length text.now + 1) entries.old top result entries.new }
{
    if at > text.len() {
        return settle_names(text, entries, top);
    }
    let read = read_names(text, at, stack, entries, top)?;
    settle_names(text, entries, read)
}

// The names of that op, those in the array from top on being known. The array needs a free place for each token.
pub fn names_in(
    text: &[u8],
    at: usize,
    stack: &mut [u8],
    entries: &mut [usize],
    top: usize,
) -> Result<(), BadName>
    requires { (length text.now ≤ 65536) × (length stack.old ≡ 655380) × (length text.now + 1 ≤ top) × (top ≤ length entries.old) }
    ensures { name_numbers result ≡ fault_of (names_of text.now at (drop top entries.old)) }
{
    after_op(text, at, stack, entries, top)?;
    Ok(())
}

// The entries after the inputs' names, at these places.
fn after_inputs(
    text: &[u8],
    places: &[usize],
    entries: &mut [usize],
    top: usize,
) -> Result<usize, BadName>
    requires { (length places.now ≤ top) × (top ≤ length entries.old) }
    ensures { ScopeAnswered (inputs_from text.now (drop top entries.old) places.now) (length places.now) entries.old top result entries.new }
{
    let mut first = top;
    for place in places {
        first = define_name(text, *place, entries, first)?;
    }
    Ok(first)
}

// The inputs' names, at these places. The array needs a free place for each.
pub fn inputs_in(text: &[u8], places: &[usize], entries: &mut [usize]) -> Result<(), BadName>
    requires { length places.now ≤ length entries.old }
    ensures { name_numbers result ≡ fault_of (inputs_from text.now [] places.now) }
{
    after_inputs(text, places, entries, entries.len())?;
    Ok(())
}
