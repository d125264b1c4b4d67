// The bench's functions for C and Rust to link.
#![tactic(auto)]

ghost use Rattle.std.specs.Prelude.{◌≡◌};
ghost use Rattle.judge.specs.Refusals.{numbers_of};
ghost use Rattle.judge.specs.Judge.{text_refusal};
ghost use Rattle.verifier.specs.Verdict.{verdict_of};
ghost use Rattle.answers.specs.Answered.{answer_of};
ghost use Rattle.answers.specs.FreeRuns.{FreeOfOrder};
ghost use Rattle.bench.specs.Numbers.{three_numbers};

use evaluate::evaluate;
use judge::{Refused, read_refusal};
use verify::check;

// An answer has three numbers; the refusal is 0 where there is none, and numbers that 01 leaves unnamed are 0.
#[repr(C)]
#[derive(Clone, Copy)]
pub struct Answer {
    pub refusal: u64,
    pub a: u64,
    pub b: u64,
}

fn answer_of(r: Result<(), Refused>) -> Answer
    ensures { result ≡ three_numbers (numbers_of r) }
{
    match r {
        Ok(()) => Answer {
            refusal: 0,
            a: 0,
            b: 0,
        },
        Err(e) => {
            let (refusal, a, b) = e.numbers();
            Answer {
                refusal: refusal as u64,
                a: a as u64,
                b: b as u64,
            }
        }
    }
}

// Refusals 0 to 12: the text is evaluated on the inputs over the store; and the answer owes nothing to the order of work.
#[unsafe(no_mangle)]
pub extern "C" fn bench_evaluate(text: &[u8], inputs: &[u64], store: &mut [u64]) -> Answer
    ensures value { result ≡ three_numbers (answer_of text.now inputs.now store.old).refusal }
    ensures store_after { store.new ≡ (answer_of text.now inputs.now store.old).store }
    ensures free_of_order { FreeOfOrder text.now inputs.now result.refusal store.new }
{
    answer_of(evaluate(text, inputs, store))
}

// Refusals 0 to 8: of reading and of verifying.
#[unsafe(no_mangle)]
pub extern "C" fn bench_check(text: &[u8]) -> Answer
    ensures { result ≡ three_numbers (verdict_of text.now) }
{
    answer_of(check(text))
}

// Refusals 0 to 4: of reading alone.
#[unsafe(no_mangle)]
pub extern "C" fn bench_read(text: &[u8]) -> Answer
    ensures { result ≡ three_numbers (text_refusal text.now) }
{
    answer_of(read_refusal(text))
}
