// Refusals 5 to 8 of one op, and of the first op that is refused.
#![tactic(auto)]

ghost use Rattle.std.specs.Prelude.{◌≡◌, Err, ◌+◌, ◌<◌, ◌≤◌};
ghost use Rattle.judge.specs.Refusals.{numbers_of};
ghost use Rattle.scope.specs.Faults.{name_numbers};
ghost use Rattle.typing.specs.Typing.{judged_of};
ghost use Rattle.opwise.specs.Opwise.{by_name, by_op, typing_of, op_refusal, ops_from, Lent};

use judge::Refused;
use known::op_names;
use outputs::return_judged;
use program::{Program, op_at};
use scope::BadName;
use typing::{OpFault, op_judged};
use values::Values;

// Refusal 5 or 6 of a name.
#[tactic(auto, unfolding(crate::specs::Opwise::by_name))]
fn name_refused(bad: BadName) -> Refused
    ensures { numbers_of (Err result) ≡ by_name (name_numbers (Err bad)) }
{
    match bad {
        BadName::Undefined(a) => Refused::Undefined(a),
        BadName::Redefined(a) => Refused::Redefined(a),
    }
}

// Refusal 5 or 6.
#[tactic(auto, unfolding(crate::specs::Opwise::by_name))]
pub fn by_name(named: Result<(), BadName>) -> Result<(), Refused>
    ensures { numbers_of result ≡ by_name (name_numbers named) }
{
    match named {
        Ok(()) => Ok(()),
        Err(bad) => Err(name_refused(bad)),
    }
}

// Refusal 7 or 8 of op k, by its fault.
#[tactic(auto, unfolding(crate::specs::Opwise::by_op))]
fn op_refused(k: usize, fault: OpFault) -> Refused
    ensures { numbers_of (Err result) ≡ by_op k (judged_of (Err fault)) }
{
    match fault {
        OpFault::Typing => Refused::Typing(k),
        OpFault::Constraint(c) => Refused::Constraint(k, c),
    }
}

// Refusal 7 or 8 of op k.
#[tactic(auto, unfolding(crate::specs::Opwise::by_op))]
fn by_op(k: usize, judged: Result<(), OpFault>) -> Result<(), Refused>
    ensures { numbers_of result ≡ by_op k (judged_of judged) }
{
    match judged {
        Ok(()) => Ok(()),
        Err(fault) => Err(op_refused(k, fault)),
    }
}

// Refusals 7 and 8 of op k; the return is the last.
fn typing_of(text: &[u8], p: Program, vs: Values, k: usize) -> Result<(), OpFault>
    requires { (k < 257) × (vs.inputs + k ≤ 264) }
    ensures { judged_of result ≡ typing_of text.now p vs k }
{
    let ops = p.ops;
    let header = p.header;
    let op = op_at(text, ops[k]);
    let n = vs.inputs + k;
    if k + 1 == p.count {
        return return_judged(text, op, header, vs, n);
    }
    op_judged(text, op, vs, n)
}

// Refusals 5 to 8 of op k.
fn op_refusal(
    text: &[u8],
    p: Program,
    vs: Values,
    k: usize,
    stack: &mut [u8],
    entries: &mut [usize],
) -> Result<(), Refused>
    requires { (k < 257) × (vs.inputs + k ≤ 264) × Lent text.now stack.old entries.old }
    ensures { numbers_of result ≡ op_refusal text.now p vs k }
{
    let ops = p.ops;
    by_name(op_names(text, ops[k], vs, vs.inputs + k, stack, entries))?;
    by_op(k, typing_of(text, p, vs, k))
}

// The first op that is refused.
pub fn first_refused(
    text: &[u8],
    p: Program,
    vs: Values,
    stack: &mut [u8],
    entries: &mut [usize],
) -> Result<(), Refused>
    requires { (p.count ≤ 257) × (vs.inputs ≤ 8) × Lent text.now stack.old entries.old }
    ensures { numbers_of result ≡ ops_from text.now p vs p.count 0 }
{
    for k in 0..p.count {
        op_refusal(text, p, vs, k, stack, entries)?;
    }
    Ok(())
}
