//! The opening of files: tries of names, one after the other.

ghost use Rattle.std.specs.Prelude.{◌≡◌, ◌≤◌, IfOk};
ghost use Rattle.mg_outside.specs.Counting.{CallEnds, counted};
ghost use Rattle.cnf_reader.specs.Openings.{IsTry, IsOpening, found_read, names_tried, tried_read};

use crate::names::Tries;
use mg_outside::{Files, ReadAnswer};
use mg_word::NoMemory;
use std::alloc::Global;

/// What comes of one try.
#[derive(Drop)]
pub enum Tried {
    /// The bytes of the file.
    Opened(Vec<u8>),
    Absent,
    TooLong,
    Failed,
}

/// What comes of tries.
#[derive(Drop)]
pub enum Found {
    /// The name and the bytes of the file.
    Opened(String, Vec<u8>),
    Absent,
    TooLong,
    Failed,
}

// Tries to read the file of this name, of at most so many bytes.
fn try_name<F: Files>(
    alloc: Global,
    files: &mut F,
    name: &str,
    limit: u64,
) -> Result<Tried, NoMemory>
    ensures same { F.table files.new ≡ F.table files.old }
    ensures counted { F.counts files.new ≡ counted (tried_read result) (F.counts files.old) }
    ensures tried { IfOk result (λ tried. IsTry (F.table files.old) name.now limit tried) }
{
    let mut bytes = Vec::new(alloc);
    match files.read(name, limit, &mut bytes) {
        ReadAnswer::Done => Ok(Tried::Opened(bytes)),
        ReadAnswer::Absent => Ok(Tried::Absent),
        ReadAnswer::TooLong => Ok(Tried::TooLong),
        ReadAnswer::Failed => Ok(Tried::Failed),
        ReadAnswer::NoMemory => Err(NoMemory),
    }
}

/// Tries the names in order: the second only where the first is absent.
pub fn open<F: Files>(
    alloc: Global,
    files: &mut F,
    tries: Tries,
    limit: u64,
) -> Result<Found, NoMemory>
    ensures same { F.table files.new ≡ F.table files.old }
    ensures counted { CallEnds (found_read result) (F.counts files.old) (F.counts files.new) }
    ensures opened { IfOk result (λ found. IsOpening (F.table files.old) (names_tried tries) limit found) }
{
    let Tries { first, second } = tries;
    match try_name(alloc, files, first.as_str(), limit)? {
        Tried::Opened(bytes) => return Ok(Found::Opened(first, bytes)),
        Tried::Absent => {}
        Tried::TooLong => return Ok(Found::TooLong),
        Tried::Failed => return Ok(Found::Failed),
    }
    let Some(second) = second else {
        return Ok(Found::Absent);
    };
    match try_name(alloc, files, second.as_str(), limit)? {
        Tried::Opened(bytes) => Ok(Found::Opened(second, bytes)),
        Tried::Absent => Ok(Found::Absent),
        Tried::TooLong => Ok(Found::TooLong),
        Tried::Failed => Ok(Found::Failed),
    }
}
