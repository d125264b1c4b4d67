// Runs the proved ops on what element_examples, binary_examples and shape_examples leave out, as examples/more_ops.mlir has it, and writes their
// results: constant, operands of rank 0 that serve every element, and tensors without elements. Every operand is made by constant.
#![tactic(auto)]

mod empty;
mod given;
mod single;

fn main(rt: HostRuntime) {
    given::paper_examples(&rt);
    given::other_examples(&rt);
    single::select_examples(&rt);
    single::clamp_examples(&rt);
    empty::start_examples(&rt);
    empty::empty_examples(&rt);
    empty::pad_examples(&rt);
}
