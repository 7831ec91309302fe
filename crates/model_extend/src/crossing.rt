//! Branches and steps may be sent and read across threads.

use crate::{Branch, Mark, Step};

// What may be sent to another thread and read from several.
fn crosses<T: Send + Sync>(_: &T) {}

fn branch_crosses(branch: &Branch) {
    crosses(branch);
}

fn step_crosses(step: &Step) {
    crosses(step);
}

fn mark_crosses(mark: &Mark) {
    crosses(mark);
}
