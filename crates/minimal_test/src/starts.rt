//! Where the looks at rules begin.

use mg_word::NoMemory;
use std::alloc::Global;

/// Where a look at a rule begins: at which of its premises, and at which of its conclusions. A look goes round, so it may
/// begin anywhere.
#[derive(Clone, Copy, Debug)]
pub struct Start {
    pub premises: usize,
    pub conclusions: usize,
}

/// For each rule where the next look at it begins: where the last one ended, since what that one went past is mostly still
/// as it was.
#[derive(Debug, Drop)]
pub struct Starts {
    starts: Vec<Start>,
}

// The first premise and the first conclusion.
fn first() -> Start {
    Start {
        premises: 0,
        conclusions: 0,
    }
}

impl Starts {
    /// The looks at so many rules begin at their first places.
    pub fn new(alloc: Global, count: usize) -> Result<Starts, NoMemory> {
        let mut starts = Vec::with_capacity(alloc, count)?;
        for _ in 0..count {
            starts.push(first())?;
        }
        Ok(Starts { starts })
    }

    /// Where the next look at the rule of that number begins.
    pub fn at(&self, number: usize) -> Start {
        self.starts.get(number).copied().unwrap_or(first())
    }

    /// The next look at the rule of that number begins there.
    pub fn set(&mut self, number: usize, start: Start) {
        if number < self.starts.len() {
            self.starts[number] = start;
        }
    }
}
