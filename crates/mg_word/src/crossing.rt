//! The values that threads share may be sent and read across threads.

use crate::{Input, Inst, LitSet, NoMemory, Problem};

// What may be sent to another thread and read from several.
fn crosses<T: Send + Sync>(_: &T) {}

fn problem_crosses(problem: &Problem) {
    crosses(problem);
}

fn input_crosses(input: &Input) {
    crosses(input);
}

fn lit_set_crosses(set: &LitSet) {
    crosses(set);
}

fn inst_crosses(inst: &Inst) {
    crosses(inst);
}

fn no_memory_crosses(failure: &NoMemory) {
    crosses(failure);
}
