//! The reading of a problem from its files.

ghost use Rattle.std.specs.Prelude.{◌≡◌, ◌≤◌, ◌∷◌, OnOk, IfOk, MatchResult, Some, length};
ghost use Rattle.std.specs.Option.{option_map};
ghost use Rattle.mg_outside.specs.Counting.{CallEnds};
ghost use Rattle.cnf_reader.specs.Reading.{Reads, IsFault, nothing_kept, result_read};
ghost use Rattle.cnf_reader.specs.Bounds.{IsBounded};
ghost use Rattle.cnf_reader.specs.Frames.{ReadsKept};
ghost use Rattle.cnf_reader.specs.Keeping.{input_of};
ghost use Rattle.cnf_reader.specs.Sound.{IsSoundKept, AreFewNames};

use crate::enter::{begin, enter, fault_at};
use crate::fault::ReadFault;
use crate::files::{OpenFile, OpenFiles};
use crate::kept::Kept;
use crate::part::Part;
use crate::pending::Asked;
use crate::selections::Selections;
use mg_outside::Files;
use mg_word::{Input, Items, NoMemory, Symbols};
use std::alloc::Global;

// Nothing is kept yet.
fn make_kept(alloc: Global) -> Result<Kept, NoMemory>
    ensures { IfOk result (λ kept. kept ≡ nothing_kept) }
{
    Ok(Kept {
        symbols: Symbols::new(alloc)?,
        files: Items::empty(alloc),
        clauses: Items::empty(alloc),
        includes: 0,
        bytes: 0,
    })
}

// Leaves a file open around another, which is read under the names that are asked for too.
fn go_in(
    selections: &mut Selections,
    outer: &mut OpenFiles,
    asked: Asked,
    file: OpenFile,
) -> Result<(), NoMemory>
    requires { AreFewNames 16777216 asked.names }
    ensures { OnOk result ((selections.new ≡ asked.names ∷ selections.old) × (outer.new ≡ file ∷ outer.old)) }
{
    let Asked {
        file: _,
        line: _,
        column: _,
        names,
    } = asked;
    selections.push(names)?;
    outer.push(file)?;
    Ok(())
}

// Reads all files of a problem, one statement after the other.
fn read_files<F: Files>(
    alloc: Global,
    files: &mut F,
    name: &str,
    root: Option<&str>,
) -> Result<Kept, ReadFault>
    ensures same { F.table files.new ≡ F.table files.old }
    ensures counted { CallEnds (result_read result) (F.counts files.old) (F.counts files.new) }
    ensures read { MatchResult result
        (λ kept. ReadsKept (F.table files.old) name.now (option_map (λ r. r.now) root.entry) kept)
        (λ fault. IsFault (F.table files.old) name.now (option_map (λ r. r.now) root.entry) fault) }
    ensures sound { IfOk result (λ kept. IsSoundKept kept × (length kept.symbols ≤ 16777216)) }
{
    let mut kept = make_kept(alloc)?;
    let mut file = match begin(alloc, files, &mut kept, name) {
        Ok(file) => file,
        Err(fault) => return Err(fault),
    };
    let mut outer = OpenFiles::empty(alloc);
    let mut selections = Selections::empty(alloc);
    selections.push(None)?;
    'statements: loop {
        let (part, next) = file.read(alloc, &selections, &mut kept)?;
        match part {
            Part::Ended => {
                let Some(around) = outer.pop() else {
                    return Ok(kept);
                };
                selections.close();
                file = around;
                continue;
            }
            Part::Clause => {
                file = next;
                continue;
            }
            Part::Include(asked) => {
                let inner = match enter(alloc, files, root, &mut kept, &next, outer.len(), &asked) {
                    Ok(inner) => inner,
                    Err(fault) => return Err(fault),
                };
                go_in(&mut selections, &mut outer, asked, next)?;
                file = inner;
                continue;
            }
            Part::Fault(kind, line, column) => {
                return Err(fault_at(alloc, kind, next.name(), line, column, &[]));
            }
        }
    }
}

// The input of what is kept.
fn make_input(kept: Kept) -> Input
    requires sound { IsSoundKept kept }
    requires few { length kept.symbols ≤ 16777216 }
    ensures input { result ≡ input_of kept }
    ensures bounded { IsBounded result }
{
    let Kept {
        symbols,
        files,
        clauses,
        includes: _,
        bytes: _,
    } = kept;
    Input {
        symbols,
        files,
        clauses,
    }
}

/// Reads a problem from its file and the files that it includes. A name that an include has is tried
/// beside the file that has it, and then, where a root is given, at the root; a name that begins
/// with a slash is tried as it is. The first fault in reading order is answered, with its place.
pub fn read_problem<F: Files>(
    alloc: Global,
    files: &mut F,
    name: &str,
    root: Option<&str>,
) -> Result<Input, ReadFault>
    ensures same { F.table files.new ≡ F.table files.old }
    ensures counted { CallEnds (result_read result) (F.counts files.old) (F.counts files.new) }
    ensures bounded { IfOk result IsBounded }
    ensures read { MatchResult result
        (λ input. Reads (F.table files.old) name.now (option_map (λ r. r.now) root.entry) input)
        (λ fault. IsFault (F.table files.old) name.now (option_map (λ r. r.now) root.entry) fault) }
{
    match read_files(alloc, files, name, root) {
        Ok(kept) => Ok(make_input(kept)),
        Err(fault) => Err(fault),
    }
}
