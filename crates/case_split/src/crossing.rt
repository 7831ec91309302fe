//! Children may be sent and read across threads.

use crate::Child;

// What may be sent to another thread and read from several.
fn crosses<T: Send + Sync>(_: &T) {}

fn child_crosses(child: &Child) {
    crosses(child);
}
