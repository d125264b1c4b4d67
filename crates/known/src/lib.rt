// The names of one op against the values before it, and of the inputs: refusals 5 and 6.
#![tactic(auto)]

ghost use Rattle.std.specs.Prelude.{◌≡◌, ◌-◌, ◌≤◌, length, drop};
ghost use Rattle.scope.specs.Faults.{name_numbers};
ghost use Rattle.known.specs.Known.{known_names, names_fault, inputs_fault};

use limits::Limits;
use places::Part;
use program::Parts;
use scope::{BadName, inputs_in, names_in};
use values::Values;

// The names in scope: one free place for each token of the longest text, and one for each value.
#[derive(Drop)]
pub struct Entries {}

impl Entries {
    pub const SIZE: usize = Limits::TEXT + 1 + Limits::VALUES;
}

// Lays the names of the first n values at the end of the array, the last one first.
fn lay_names(values: Values, n: usize, entries: &mut [usize])
    requires { (n ≤ 264) × (n ≤ length entries.old) }
    ensures { drop (length entries.old - n) entries.new ≡ known_names values.list n }
{
    let list = values.list;
    let mut top = entries.len();
    for k in 0..n {
        let value = list[k];
        top -= 1;
        entries[top] = value.name;
    }
}

// The names of the op whose first token is at or after byte at, n values being defined before it.
pub fn op_names(
    text: &[u8],
    at: usize,
    values: Values,
    n: usize,
    stack: &mut [u8],
    entries: &mut [usize],
) -> Result<(), BadName>
    requires { (length text.now ≤ 65536) × (length stack.old ≡ 655380) × (n ≤ 264) × (length entries.old ≡ 65801) }
    ensures { name_numbers result ≡ names_fault text.now values.list n at }
{
    lay_names(values, n, entries);
    names_in(text, at, stack, entries, Entries::SIZE - n)
}

// The names of the first n inputs of a header.
pub fn input_names(
    text: &[u8],
    header: Parts,
    n: usize,
    entries: &mut [usize],
) -> Result<(), BadName>
    requires { (n ≤ 8) × (length entries.old ≡ 65801) }
    ensures { name_numbers result ≡ inputs_fault text.now header n }
{
    let places = header.at;
    let first = Limits::OPERANDS * Part::INPUT_NAME;
    inputs_in(text, &places[first..first + n], entries)
}
