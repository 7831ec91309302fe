//! A sink in memory that fails at the calls that it is told to, for tests.

ghost use Rattle.std.specs.Prelude.{◌≡◌, ◌≤◌, ◌+◌, ◌++◌, vec_capacity, vec_len, IfOk, length, take};
ghost use Rattle.mg_outside.specs.Putting.{Puts};
ghost use Rattle.mg_outside.specs.SinkRule.{taken_at, put_answer, after_put, new_sink, told_seen};

use crate::{PutAnswer, Sink};
use mg_word::NoMemory;
use std::alloc::Global;
use std::marker::Model;

/// A put that fails: its number, counted from 1, and how many bytes of its piece it takes.
#[derive(Clone, Copy, Debug, PartialEq, Eq)]
pub struct FailAt {
    pub call: u64,
    pub taken: u64,
}

/// A sink in memory, with room for a given number of bytes.
#[derive(Drop)]
pub struct MemorySink {
    bytes: Vec<u8>,
    room: u64,
    failing: Vec<FailAt>,
    calls: u64,
    faults: u64,
}

impl Model for MemorySink {
    ghost use Rattle.std.specs.Prelude.{vec_capacity, vec_len, ◌≤◌};
    ghost use Rattle.mg_outside.specs.SinkRule.{SinkState};

    ghost Value = { SinkState };

    ghost view = { λ m. record { held = m.bytes.items; room = m.room; failing = m.failing.items; calls = m.calls; faults = m.faults } };

    // The room lies ready, so no put takes memory.
    ghost invariant = { λ m. (m.room ≤ vec_capacity m.bytes) × (vec_len m.bytes ≤ m.room) };
}

impl MemorySink {
    /// A sink with room for `room` bytes, which it takes at once. The listed puts fail; of two
    /// entries for one put the first counts.
    pub fn new(alloc: Global, room: u64, failing: Vec<FailAt>) -> Result<MemorySink, NoMemory>
        ensures { IfOk result (λ made. made ≡ new_sink room failing.items) }
    {
        Ok(MemorySink {
            bytes: Vec::with_capacity(alloc, room as usize)?,
            room,
            failing,
            calls: 0,
            faults: 0,
        })
    }

    /// All bytes taken so far.
    pub fn held(&self) -> &[u8]
        ensures { result.now ≡ self.now.held }
    {
        self.bytes.as_slice()
    }
}

// Appends the first `count` bytes, for which there is room.
fn push_front(into: &mut Vec<u8>, bytes: &[u8], count: usize)
    requires within { count ≤ length bytes.now }
    requires room { vec_len into.old + count ≤ vec_capacity into.old }
    ensures appended { into.new.items ≡ into.old.items ++ take count bytes.now }
    ensures len { vec_len into.new ≡ vec_len into.old + count }
    ensures room { vec_capacity into.old ≤ vec_capacity into.new }
{
    match into.extend_from_slice(&bytes[..count]) {
        Ok(()) => {}
        Err(_) => unreachable!(),
    }
}

// How many bytes the call takes, if it is listed.
fn find_taken(failing: &[FailAt], call: u64) -> Option<u64>
    ensures { result ≡ taken_at failing.now call }
{
    failing
        .iter()
        .find(|fail| fail.call == call)
        .map(|fail| fail.taken)
}

impl Sink for MemorySink {
    ghost seen = { λ m. told_seen m };

    fn put(&mut self, bytes: &[u8]) -> PutAnswer
        ensures puts { Puts result (told_seen self.old) (told_seen self.new) bytes.now }

        // Beyond the trait: the answer and what is held are the rule's.
        ensures answer { result ≡ put_answer self.old bytes.now }
        ensures after { self.new ≡ after_put self.old bytes.now }
    {
        self.calls = self.calls.saturating_add(1);
        let room_left = (self.room - self.bytes.len() as u64) as usize;
        let listed = find_taken(&self.failing, self.calls);
        let wanted = match listed {
            Some(taken) => taken.min(bytes.len() as u64) as usize,
            None => bytes.len(),
        };
        push_front(&mut self.bytes, bytes, wanted.min(room_left));
        if listed.is_some() || room_left < bytes.len() {
            self.faults = self.faults.saturating_add(1);
            return PutAnswer::Failed;
        }
        PutAnswer::Done
    }
}
