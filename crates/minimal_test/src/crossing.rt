//! Verdicts may be sent and read across threads.

use crate::Verdict;

// What may be sent to another thread and read from several.
fn crosses<T: Send + Sync>(_: &T) {}

fn verdict_crosses(verdict: &Verdict) {
    crosses(verdict);
}
