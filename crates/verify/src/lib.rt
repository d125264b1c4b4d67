// Refusals 0 to 8 of a text.
#![tactic(auto)]

ghost use Rattle.std.specs.Prelude.{◌≡◌, ◌≤◌};
ghost use Rattle.judge.specs.Refusals.{numbers_of};
ghost use Rattle.judge.specs.Judge.{text_refusal};
ghost use Rattle.program.specs.Program.{program_of};
ghost use Rattle.values.specs.Values.{values_in};
ghost use Rattle.opwise.specs.Opwise.{Lent};
ghost use Rattle.verify.specs.Verify.{program_refusal, verdict};

use judge::{Refused, read_refusal};
use known::{Entries, input_names};
use opwise::{by_name, first_refused};
use program::{Program, program_of};
use syntax::Stack;
use values::{Values, values_in};

// Refusals 5 to 8 of a program with its values.
fn program_refusal(
    text: &[u8],
    p: Program,
    vs: Values,
    stack: &mut [u8],
    entries: &mut [usize],
) -> Result<(), Refused>
    requires { (p.count ≤ 257) × (vs.inputs ≤ 8) × Lent text.now stack.old entries.old }
    ensures { numbers_of result ≡ program_refusal text.now p vs }
{
    by_name(input_names(text, p.header, vs.inputs, entries))?;
    first_refused(text, p, vs, stack, entries)
}

// Refusals 5 to 8 of a text without refusals 1 to 4.
fn checked(text: &[u8]) -> Result<(), Refused>
    requires { (text_refusal text.now).number ≡ 0 }
    ensures { numbers_of result ≡ program_refusal text.now (program_of text.now) (values_in text.now (program_of text.now)) }
{
    let mut stack: [u8; Stack::SIZE] = [0; Stack::SIZE];
    let mut entries: [usize; Entries::SIZE] = [0; Entries::SIZE];
    let p = program_of(text);
    let vs = values_in(text, p);
    program_refusal(text, p, vs, &mut stack, &mut entries)
}

// The refusal of a text of kinds 0 to 8, A and B.
pub fn check(text: &[u8]) -> Result<(), Refused>
    ensures { numbers_of result ≡ verdict text.now }
{
    read_refusal(text)?;
    checked(text)
}
