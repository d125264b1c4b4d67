// Runs the proved ops that work shape by shape on the examples of 01 and of 000, as examples/shape_ops.mlir has them, and writes their results.
#![tactic(auto)]

mod folded;
mod moved;

fn run_moved(rt: &impl Print) {
    moved::iota_examples(rt);
    moved::reshape_examples(rt);
    moved::transpose_examples(rt);
    moved::reverse_examples(rt);
    moved::broadcast_in_dim_examples(rt);
}

fn run_parts(rt: &impl Print) {
    part_examples::slice_examples(rt);
    part_examples::pad_examples(rt);
    part_examples::dynamic_slice_examples(rt);
    part_examples::concatenate_examples(rt);
}

fn run_folded(rt: &impl Print) {
    folded::sums_examples(rt);
    folded::bodies_examples(rt);
}

fn main(rt: HostRuntime) {
    run_moved(&rt);
    run_parts(&rt);
    run_folded(&rt);
}
