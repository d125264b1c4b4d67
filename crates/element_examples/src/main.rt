// Runs the proved ops that work element by element on the examples of 01 and of 000, as examples/element_ops.mlir has them, and writes their
// results; those on two operands are in binary_examples. A constant is its literal: reading it is the crate dense's work.
#![tactic(auto)]

mod choices;
mod unaries;

use division::Division;

fn run_unaries(rt: &impl Print) {
    unaries::abs_examples(rt);
    unaries::sign_examples(rt);
    unaries::negate_examples(rt);
    unaries::bit_not_examples(rt);
    unaries::count_leading_zeros_examples(rt);
    unaries::popcnt_examples(rt);
    unaries::convert_examples(rt);
}

fn run_choices(rt: &impl Print) {
    choices::compare_examples(rt);
    choices::select_examples(rt);
    choices::clamp_examples(rt);
}

fn run_quotients(rt: &impl Print) {
    quotient_examples::division_examples(rt, b"divide", Division::Divide);
    quotient_examples::division_examples(rt, b"remainder", Division::Remainder);
}

fn main(rt: HostRuntime) {
    run_unaries(&rt);
    run_choices(&rt);
    run_quotients(&rt);
}
