// The grammar as tables, and the machine that runs it: one token is one step, and what is expected stands in an array.
#![tactic(auto)]

pub mod symbols;
mod tables;

ghost use Rattle.std.specs.Prelude.{◌≡◌, ◌<◌, ◌≤◌, length, get_or};
ghost use Rattle.grammar.specs.Machine.{cell};
ghost use Rattle.grammar.specs.Tables.{right_of, head_of, tail_of, lettered, IsRule};
ghost use Rattle.grammar.specs.Advance.{step_of, Started, Pushed, Advanced};

use symbols::{Kind, Symbol};

// The letter of a symbol's cell.
fn cell_at(s: u8, kind: u8) -> u8
    ensures { (lettered s result ≡ cell s kind) × (result < 122) }
{
    if s < Symbol::COUNT && kind < Kind::COUNT {
        tables::CELLS[s as usize * 32 + kind as usize]
    } else {
        b'.'
    }
}

// Symbol number k of the right side of a production, by the production's letter.
fn symbol_of(p: u8, k: usize) -> u8
    requires { IsRule p × (k < 10) }
    ensures { result ≡ get_or (right_of p) k 0 }
{
    tables::RIGHTS[(p as usize - 48) * 10 + k] - 48
}

// How many symbols stand after the first.
fn tail_length(p: u8) -> u8
    requires { IsRule p }
    ensures { result ≡ length (tail_of (right_of p)) }
{
    tables::LENGTHS[p as usize - 48] - 48
}

// The stack is an array's end and grows down. It starts with one symbol.
pub fn start(stack: &mut [u8], symbol: u8) -> usize
    requires { 0 < length stack.old }
    ensures { Started stack.old symbol result stack.new }
{
    let top = stack.len() - 1;
    stack[top] = symbol;
    top
}

// The symbols of a production after its first go onto the stack.
fn push(stack: &mut [u8], top: usize, p: u8) -> usize
    requires { IsRule p × (9 ≤ top) × (top ≤ length stack.old) }
    ensures { Pushed stack.old top (tail_of (right_of p)) result stack.new }
{
    let n = tail_length(p) as usize;
    let next = top - n;
    for k in 0..n {
        stack[next + k] = symbol_of(p, k + 1);
    }
    next
}

// A token's role, and where the stack then starts.
#[derive(Clone, Copy)]
pub struct Taken {
    pub role: u8,
    pub top: usize,
}

// One token of this kind, none where it does not fit: what is expected stands in the array from top to its end, the next symbol first.
pub fn advance(stack: &mut [u8], top: usize, kind: u8) -> Option<Taken>
    requires { (10 ≤ top) × (top ≤ length stack.old) }
    ensures { Advanced stack.old top kind (step_of (length stack.old) result) stack.new }
{
    for i in top..stack.len() {
        let s = stack[i];
        match cell_at(s, kind) {
            b'-' => {}
            b'+' => {
                return Some(Taken {
                    role: s,
                    top: i + 1,
                });
            }
            p if p >= b'0' => {
                return Some(Taken {
                    role: symbol_of(p, 0),
                    top: push(stack, i + 1, p),
                });
            }
            _ => return None,
        }
    }
    None
}
