//! The opening of a problem's files: the first, and those that are included.

ghost use Rattle.std.specs.Prelude.{◌≡◌, ◌≤◌, ◌+◌, ◌∷◌, [], IfOk, IsTrue, MatchResult, length, string_bytes};
ghost use Rattle.std.specs.List.{list_all};
ghost use Rattle.std.specs.Option.{option_map};
ghost use Rattle.mg_word.specs.Facts.{is_name_byte};
ghost use Rattle.mg_outside.specs.Counting.{CallEnds};
ghost use Rattle.cnf_reader.specs.Entering.{FaultIs, IsNotEntered, IsBegun, IsNotBegun, IsAdmitted, IsTakenIn};
ghost use Rattle.cnf_reader.specs.Frames.{Enters};
ghost use Rattle.cnf_reader.specs.Openings.{names_tried};
ghost use Rattle.cnf_reader.specs.Reading.{nothing_kept, result_read};

use crate::fault::{ReadFault, ReadKind};
use crate::files::OpenFile;
use crate::kept::Kept;
use crate::names::{Tries, make_tries};
use crate::opening::{Found, open};
use crate::pending::Asked;
use mg_outside::Files;
use mg_word::{NoMemory, Text};
use std::alloc::Global;
use std::str::from_utf8;

/// The most bytes of all files of a problem together.
const MOST_BYTES: u64 = 16_777_216;

/// The most includes of all files of a problem together.
const MOST_INCLUDES: u32 = 256;

/// The most files that stand open around one that is included.
const MOST_LEVELS: usize = 15;

/// A fault at this line and column of a file.
pub fn fault_at(
    alloc: Global,
    kind: ReadKind,
    file: &str,
    line: u32,
    column: u32,
    subject: &[u8],
) -> ReadFault
    ensures { FaultIs kind file.now line column subject.now result }
{
    match copies(alloc, file.as_bytes(), subject) {
        Err(NoMemory) => ReadFault::NoMemory,
        Ok((file, subject)) => ReadFault::At {
            kind,
            file,
            line,
            column,
            subject,
        },
    }
}

// Copies of two texts.
fn copies(alloc: Global, first: &[u8], second: &[u8]) -> Result<(Text, Text), NoMemory>
    ensures { IfOk result (λ made. (made.0 ≡ first.now) × (made.1 ≡ second.now)) }
{
    let first = Text::new(Vec::from_slice(alloc, first)?);
    let second = Text::new(Vec::from_slice(alloc, second)?);
    Ok((first, second))
}

// A fault at an include, which stands in this file.
fn fault_at_include(
    alloc: Global,
    kind: ReadKind,
    file: &OpenFile,
    asked: &Asked,
    subject: &[u8],
) -> ReadFault
    ensures { FaultIs kind file.now.name asked.now.line asked.now.column subject.now result }
{
    fault_at(alloc, kind, file.name(), asked.line, asked.column, subject)
}

// Takes in a file that was opened.
fn admit(alloc: Global, kept: &mut Kept, name: String, bytes: Vec<u8>) -> Result<OpenFile, NoMemory>
    requires small { length bytes.items ≤ 16777216 }
    requires few { kept.old.bytes ≤ 16777216 }
    requires count { length kept.old.files ≤ 4294967295 }
    ensures { IfOk result (λ file. IsAdmitted kept.old (string_bytes name) bytes.items kept.new file) }
{
    let number = kept.files.as_slice().len() as u32;
    let listed = Text::new(Vec::from_slice(alloc, name.as_bytes())?);
    kept.files.push(listed)?;
    kept.bytes += bytes.len() as u64;
    Ok(OpenFile::new(name, number, bytes))
}

/// Opens the file that an include asks for, which stands in a file that so many others are open
/// around, or answers the fault that stands at the include.
pub fn enter<F: Files>(
    alloc: Global,
    files: &mut F,
    root: Option<&str>,
    kept: &mut Kept,
    file: &OpenFile,
    depth: usize,
    asked: &Asked,
) -> Result<OpenFile, ReadFault>
    requires small { kept.old.bytes ≤ 16777216 }
    requires files { length kept.old.files ≤ kept.old.includes + 1 }
    requires asked { IsTrue (list_all is_name_byte asked.now.file) }
    ensures same { F.table files.new ≡ F.table files.old }
    ensures counted { CallEnds (result_read result) (F.counts files.old) (F.counts files.new) }
    ensures entered { MatchResult result
        (λ inner. Enters (F.table files.old) (option_map (λ r. r.now) root.entry) kept.old file.now depth asked.now kept.new inner)
        (λ fault. IsNotEntered (F.table files.old) (option_map (λ r. r.now) root.entry) kept.old file.now depth asked.now fault) }
    ensures taken { IfOk result (IsTakenIn kept.old kept.new) }
{
    if kept.includes >= MOST_INCLUDES {
        return Err(fault_at_include(alloc, ReadKind::TooManyIncludes, file, asked, &[]));
    }
    if depth >= MOST_LEVELS {
        return Err(fault_at_include(alloc, ReadKind::IncludeDepth, file, asked, &[]));
    }
    let Ok(wanted) = from_utf8(asked.file.as_slice()) else {
        unreachable!()
    };
    let tries = make_tries(alloc, root, file.name(), wanted)?;
    match open(alloc, files, tries, MOST_BYTES - kept.bytes)? {
        Found::Opened(name, bytes) => {
            kept.includes += 1;
            Ok(admit(alloc, kept, name, bytes)?)
        }
        Found::Absent => Err(fault_at_include(
            alloc,
            ReadKind::IncludeAbsent,
            file,
            asked,
            asked.file.as_slice(),
        )),
        Found::TooLong => Err(fault_at_include(alloc, ReadKind::TooLong, file, asked, &[])),
        Found::Failed => Err(fault_at_include(alloc, ReadKind::Files, file, asked, &[])),
    }
}

// This name alone.
fn only(alloc: Global, name: &str) -> Result<Tries, NoMemory>
    ensures { IfOk result (λ tries. names_tried tries ≡ name.now ∷ []) }
{
    Ok(Tries {
        first: String::from_str(alloc, name)?,
        second: None,
    })
}

/// Opens the problem file, or answers the fault that stands there.
pub fn begin<F: Files>(
    alloc: Global,
    files: &mut F,
    kept: &mut Kept,
    name: &str,
) -> Result<OpenFile, ReadFault>
    requires { kept.old ≡ nothing_kept }
    ensures same { F.table files.new ≡ F.table files.old }
    ensures counted { CallEnds (result_read result) (F.counts files.old) (F.counts files.new) }
    ensures begun { MatchResult result
        (λ inner. IsBegun (F.table files.old) name.now kept.old kept.new inner)
        (λ fault. IsNotBegun (F.table files.old) name.now fault) }
    ensures taken { IfOk result (IsTakenIn kept.old kept.new) }
{
    let tries = only(alloc, name)?;
    match open(alloc, files, tries, MOST_BYTES)? {
        Found::Opened(name, bytes) => Ok(admit(alloc, kept, name, bytes)?),
        Found::Absent => Err(fault_at(alloc, ReadKind::ProblemAbsent, name, 1, 1, &[])),
        Found::TooLong => Err(fault_at(alloc, ReadKind::TooLong, name, 1, 1, &[])),
        Found::Failed => Err(fault_at(alloc, ReadKind::Files, name, 1, 1, &[])),
    }
}
