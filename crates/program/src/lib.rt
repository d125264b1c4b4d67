// The program of a text, as places in it.
#![tactic(auto)]

ghost use Rattle.std.specs.Prelude.{◌≡◌, false, ◌<◌, ◌≤◌, length};
ghost use Rattle.syntax.specs.Readings.{readings};
ghost use Rattle.program.specs.Parts.{part_of, no_parts, added_to, noted, depth_after, parts_of, parts_at, op_at, body_at};
ghost use Rattle.program.specs.Program.{no_program, begun, in_header, names_op, begins_op, naming_after, outlined, program_from, program_of};

use grammar::start;
use grammar::symbols::{Role, Symbol};
use limits::Limits;
use syntax::{Stack, read_token};

// The places of eleven parts: of each as many as size 5 lets a list have.
const PLACES: usize = 11 * Limits::OPERANDS;

// Part k has count[k] tokens, 9 standing for more than eight; the first eight start at the bytes at[8k] to at[8k + 7].
#[derive(Clone, Copy)]
pub struct Parts {
    pub count: [usize; 11],
    pub at: [usize; PLACES],
}

impl Parts {
    // The count of a part that has more tokens than places.
    pub const MORE: usize = Limits::OPERANDS + 1;
}

// For each role 48 more than the number of its part.
const PARTS: [u8; 256] = *b";;:789100234\
    6:7800;5;;;;;;;;;;;;;;;;;;;;;;;;;;;;;;;;;;;;;;;;;;;;\
    ;;;;;;;;;;;;;;;;;;;;;;;;;;;;;;;;;;;;;;;;;;;;;;;;;;;;;;;;;;;;;;;;\
    ;;;;;;;;;;;;;;;;;;;;;;;;;;;;;;;;;;;;;;;;;;;;;;;;;;;;;;;;;;;;;;;;\
    ;;;;;;;;;;;;;;;;;;;;;;;;;;;;;;;;;;;;;;;;;;;;;;;;;;;;;;;;;;;;;;;;";

// The part to which a token of this role belongs, 11 for none.
fn part_of(role: u8) -> u8
    ensures { result ≡ part_of role }
{
    PARTS[role as usize] - 48
}

#[tactic(auto, unfolding(crate::specs::Parts::no_parts))]
fn empty_parts() -> Parts
    ensures { result ≡ no_parts }
{
    Parts {
        count: [0; 11],
        at: [0; PLACES],
    }
}

// One token more of part k.
#[tactic(auto, unfolding(crate::specs::Parts::added_to))]
fn added_to(p: Parts, k: usize, place: usize) -> Parts
    requires { k < 11 }
    ensures { result ≡ added_to p k place }
{
    let mut next = p;
    let n = next.count[k];
    if n < Limits::OPERANDS {
        next.count[k] = n + 1;
        next.at[Limits::OPERANDS * k + n] = place;
    } else {
        next.count[k] = Parts::MORE;
    }
    next
}

// One token more, in the part of its role.
#[tactic(auto, unfolding(crate::specs::Parts::noted))]
fn note(p: Parts, role: u8, place: usize) -> Parts
    ensures { result ≡ noted p role place }
{
    let k = part_of(role) as usize;
    if k < 11 { added_to(p, k, place) } else { p }
}

// How many bodies are open after a token of this role.
#[tactic(auto, unfolding(crate::specs::Parts::depth_after))]
fn depth_after(depth: usize, role: u8) -> usize
    requires { depth ≤ 65537 }
    ensures { result ≡ depth_after depth role }
{
    match role {
        Role::BODY_OPEN => depth + 1,
        Role::BODY_CLOSE => depth.saturating_sub(1),
        _ => depth,
    }
}

// The parts of what the symbol derives, read from byte at on: of its tokens inside so many bodies.
fn parts_of(symbol: u8, level: usize, text: &[u8], at: usize, stack: &mut [u8]) -> Parts
    requires { (length text.now ≤ 65536) × (length stack.old ≡ 655380) }
    ensures { result ≡ parts_of symbol level text.now at }
{
    let mut parts = empty_parts();
    let mut depth = 0;
    let mut top = start(stack, symbol);
    let mut place = at;
    for _ in 0..=text.len() {
        if top == stack.len() {
            return parts;
        }
        let turn = read_token(text, place, stack, top);
        let Some(taken) = turn.taken else {
            return parts;
        };
        if depth == level {
            parts = note(parts, taken.role, turn.token.start);
        }
        depth = depth_after(depth, taken.role);
        top = taken.top;
        place = turn.token.end;
    }
    parts
}

// The same for a text of any length: of one that is longer than 65,536 bytes nothing is read.
fn parts_at(symbol: u8, level: usize, text: &[u8], at: usize) -> Parts
    ensures { result ≡ parts_at symbol level text.now at }
{
    if text.len() > Limits::TEXT {
        return empty_parts();
    }
    let mut stack: [u8; Stack::SIZE] = [0; Stack::SIZE];
    parts_of(symbol, level, text, at, &mut stack)
}

// The op whose first token is at or after byte at.
#[tactic(auto, unfolding(crate::specs::Parts::op_at))]
pub fn op_at(text: &[u8], at: usize) -> Parts
    ensures { result ≡ op_at text.now at }
{
    parts_at(Symbol::OP, 0, text, at)
}

// The body whose opening brace is at or after byte at.
#[tactic(auto, unfolding(crate::specs::Parts::body_at))]
pub fn body_at(text: &[u8], at: usize) -> Parts
    ensures { result ≡ body_at text.now at }
{
    parts_at(Symbol::BODY, 1, text, at)
}

// The parts of the header; how many ops there are, the return among them, 258 standing for more than 257; where each begins.
#[derive(Clone, Copy)]
pub struct Program {
    pub header: Parts,
    pub count: usize,
    pub ops: [usize; Limits::OPS_WITH_RETURN],
}

impl Program {
    // The count of a program that has more ops than places.
    pub const MORE: usize = Limits::OPS_WITH_RETURN + 1;
}

#[tactic(auto, unfolding(crate::specs::Program::no_program))]
fn empty_program() -> Program
    ensures { result ≡ no_program }
{
    let header = empty_parts();
    Program {
        header: header,
        count: 0,
        ops: [0; Limits::OPS_WITH_RETURN],
    }
}

// One op more.
#[tactic(auto, unfolding(crate::specs::Program::begun))]
fn begin(p: Program, place: usize) -> Program
    ensures { result ≡ begun p place }
{
    let mut next = p;
    let n = next.count;
    if n < Limits::OPS_WITH_RETURN {
        next.count = n + 1;
        next.ops[n] = place;
    } else {
        next.count = Program::MORE;
    }
    next
}

#[tactic(auto, unfolding(crate::specs::Program::in_header, scan::specs::Bytes::among))]
fn in_header(role: u8) -> bool
    ensures { result ≡ in_header role }
{
    matches!(
        role,
        Role::FUNCTION_NAME | Role::INPUT_NAME | Role::INPUT_TYPE | Role::OUTPUT_TYPE
    )
}

#[tactic(auto, unfolding(crate::specs::Program::names_op, scan::specs::Bytes::among))]
fn names_op(role: u8) -> bool
    ensures { result ≡ names_op role }
{
    matches!(role, Role::OP_NAME | Role::FUNC_RETURN)
}

// Whether an op begins at a token of this role.
#[tactic(auto, unfolding(crate::specs::Program::begins_op))]
fn begins_op(naming: bool, role: u8) -> bool
    ensures { result ≡ begins_op naming role }
{
    !naming && (role == Role::RESULT_NAME || names_op(role))
}

#[tactic(auto, unfolding(crate::specs::Program::naming_after))]
fn naming_after(naming: bool, role: u8) -> bool
    ensures { result ≡ naming_after naming role }
{
    role == Role::RESULT_NAME || (naming && !names_op(role))
}

// One token more of the function itself.
#[tactic(auto, unfolding(crate::specs::Program::outlined))]
fn outline(p: Program, naming: bool, role: u8, place: usize) -> Program
    ensures { result ≡ outlined p naming role place }
{
    if in_header(role) {
        return Program {
            header: note(p.header, role, place),
            ..p
        };
    }
    if begins_op(naming, role) {
        return begin(p, place);
    }
    p
}

// The program of a text that is not too long.
fn program_in(text: &[u8], stack: &mut [u8]) -> Program
    requires { (length text.now ≤ 65536) × (length stack.old ≡ 655380) }
    ensures { result ≡ program_from no_program false 0 (readings text.now) }
{
    let mut program = empty_program();
    let mut naming = false;
    let mut depth = 0;
    let mut top = start(stack, Symbol::PROGRAM);
    let mut place = 0;
    for _ in 0..=text.len() {
        if top == stack.len() {
            return program;
        }
        let turn = read_token(text, place, stack, top);
        let Some(taken) = turn.taken else {
            return program;
        };
        if depth == 0 {
            program = outline(program, naming, taken.role, turn.token.start);
            naming = naming_after(naming, taken.role);
        }
        depth = depth_after(depth, taken.role);
        top = taken.top;
        place = turn.token.end;
    }
    program
}

// The program of a text; of one that is longer than 65,536 bytes nothing is read.
pub fn program_of(text: &[u8]) -> Program
    ensures { result ≡ program_of text.now }
{
    if text.len() > Limits::TEXT {
        return empty_program();
    }
    let mut stack: [u8; Stack::SIZE] = [0; Stack::SIZE];
    program_in(text, &mut stack)
}
