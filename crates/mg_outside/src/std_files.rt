//! Real files, whose content no clause tells.

ghost use Rattle.std.specs.Prelude.{◌≡◌, ◌≢◌, ◌≤◌, ◌<◌, ◌+◌, ◌++◌, ◌-◌, ◌^◌, None, IfSome, length};
ghost use Rattle.std.specs.Io.{ReadsAtMost};
ghost use Rattle.std.specs.Io.KnownBytes.{ReadConsumes};
ghost use Rattle.std.specs.IoError.{error_kind};
ghost use Rattle.mg_outside.specs.Reading.{TakesFile, IsAbsent, IsTooLong, Extends, told_answer, untold};
ghost use Rattle.mg_outside.specs.Counting.{counted, no_counts};
ghost use Rattle.mg_outside.specs.RealFiles.{counts_of};
ghost use Rattle.mg_outside.specs.RealErrors.{unread_answer, unopened_answer};

use crate::counts::ReadCounter;
use crate::{Files, ReadAnswer};
use std::io::{self, ErrorKind, Read};
use std::{fs, rt};

/// How many bytes are asked for in one read.
const BUFFER_LEN: usize = 32 * 1024;

/// Real files, by their paths.
///
/// An absence is that opening finds no such file, an overrun that more bytes were read than the
/// limit allows. Every other error of opening or reading but want of memory is a fault, also that
/// a part of the path is no folder, and that the path names a folder. A read that a signal
/// interrupts is tried again; an interrupted opening is a fault.
#[derive(Drop)]
pub struct StdFiles<'a, R> {
    runtime: &'a R,
    counts: ReadCounter,
}

impl<'a, R: rt::Files + Alloc> StdFiles<'a, R> {
    /// The files that this runtime reaches.
    pub fn new(rt: &'a R) -> StdFiles<'a, R>
        ensures untold { ⟦<StdFiles<'a, R> as Files>⟧.table result ≡ None }
        ensures counts { ⟦<StdFiles<'a, R> as Files>⟧.counts result ≡ no_counts }
    {
        StdFiles {
            runtime: rt,
            counts: ReadCounter::new(),
        }
    }
}

// What an error of reading answers.
fn unread(error: &io::Error) -> ReadAnswer
    ensures none { (result ≢ ReadAnswer.Done) × (result ≢ ReadAnswer.TooLong) × (result ≢ ReadAnswer.Absent) }
    ensures value { result ≡ unread_answer (error_kind error.now) }
{
    match error.kind() {
        ErrorKind::OutOfMemory => ReadAnswer::NoMemory,
        _ => ReadAnswer::Failed,
    }
}

// What an error of opening answers.
fn unopened(error: &io::Error) -> ReadAnswer
    ensures none { (result ≢ ReadAnswer.Done) × (result ≢ ReadAnswer.TooLong) }
    ensures value { result ≡ unopened_answer (error_kind error.now) }
{
    match error.kind() {
        ErrorKind::NotFound => ReadAnswer::Absent,
        _ => unread(error),
    }
}

// One read, tried again while signals interrupt it.
fn read_some<F: Read>(file: &mut F, buffer: &mut [u8]) -> io::Result<usize>
    ensures bound { ReadsAtMost result buffer.new }
    ensures bytes { ReadConsumes (F.remaining file.old) (F.remaining file.new) result buffer.new }
{
    'tries: for _ in 0..u64::MAX {
        match file.read(buffer) {
            Ok(count) => return Ok(count),
            Err(error) if error.kind() == ErrorKind::Interrupted => {}
            Err(error) => return Err(error),
        }
    }
    Err(io::Error::from(ErrorKind::Interrupted))
}

// Appends what the reader gives until its end, where that is at most `limit` bytes.
fn append_all<F: Read>(file: &mut F, limit: u64, into: &mut Vec<u8>) -> ReadAnswer
    ensures extends { Extends into.old.items into.new.items }
    ensures within { result ≡ ReadAnswer.Done → (length into.new.items ≤ length into.old.items + limit) }
    ensures limited { result ≡ ReadAnswer.TooLong → (limit < 2 ^ 64 - 1) }
    ensures whole { result ≡ ReadAnswer.Done → (IfSome (F.remaining file.old) (λ bytes. into.new.items ≡ into.old.items ++ bytes)) }
    ensures longer { result ≡ ReadAnswer.TooLong → (IfSome (F.remaining file.old) (λ bytes. limit < length bytes)) }
    ensures present { result ≢ ReadAnswer.Absent }
{
    let mut buffer = [0u8; BUFFER_LEN];
    let mut left = limit;
    'reads: loop {
        let count = match read_some(file, &mut buffer) {
            Ok(count) => count,
            Err(error) => return unread(&error),
        };
        if count == 0 {
            return ReadAnswer::Done;
        }
        if count as u64 > left {
            return ReadAnswer::TooLong;
        }
        if into.extend_from_slice(&buffer[..count]).is_err() {
            return ReadAnswer::NoMemory;
        }
        left -= count as u64;
    }
}

// Appends the whole file of this path, or leaves `into` as it was.
fn read_path<R: rt::Files>(runtime: &R, path: &str, limit: u64, into: &mut Vec<u8>) -> ReadAnswer
    ensures done { result ≡ ReadAnswer.Done → (TakesFile untold path.now limit into.old.items into.new.items) }
    ensures limited { result ≡ ReadAnswer.TooLong → (limit < 2 ^ 64 - 1) }
    ensures as_before { result ≢ ReadAnswer.Done → into.new.items ≡ into.old.items }
{
    let start = into.len();
    let mut file = match fs::open(runtime, path) {
        Ok(file) => file,
        Err(error) => return unopened(&error),
    };
    let answer = append_all(&mut file, limit, into);
    if answer != ReadAnswer::Done {
        into.truncate(start);
    }
    answer
}

impl<R: rt::Files + Alloc> Files for StdFiles<'_, R> {
    ghost table = { λ _. untold };

    ghost counts = { λ s. counts_of s };

    fn read(&mut self, name: &str, limit: u64, into: &mut Vec<u8>) -> ReadAnswer
        ensures same { untold ≡ untold }
        ensures counted { counts_of self.new ≡ counted result (counts_of self.old) }
        ensures done { result ≡ ReadAnswer.Done → TakesFile untold name.now limit into.old.items into.new.items }
        ensures absent { result ≡ ReadAnswer.Absent → IsAbsent untold name.now }
        ensures too_long { result ≡ ReadAnswer.TooLong → IsTooLong untold name.now limit }
        ensures as_before { result ≢ ReadAnswer.Done → into.new.items ≡ into.old.items }
        ensures exact { result ≢ ReadAnswer.Failed → result ≢ ReadAnswer.NoMemory
            → IfSome untold (λ files. result ≡ told_answer (files name.now) limit) }
    {
        let answer = read_path(self.runtime, name, limit, into);
        self.counts.count(answer);
        answer
    }
}
