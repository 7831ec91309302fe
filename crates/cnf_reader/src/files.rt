//! Files that are open: how far each was read.

ghost use Rattle.std.specs.Prelude.{◌≡◌, ◌∷◌, ◌≤◌, [], IfOk, OnOk, MatchOption, length, string_bytes, ◌<◌, ◌+◌};
ghost use Rattle.cnf_reader.specs.Frames.{Advances, left_in};
ghost use Rattle.cnf_reader.specs.Led.{IsPaid};
ghost use Rattle.cnf_reader.specs.Parts.{Stays};
ghost use Rattle.cnf_reader.specs.Sound.{IsSoundKept};
ghost use Rattle.tptp_lexer.specs.Tokens.{start_cursor};

use crate::kept::Kept;
use crate::part::{Part, read_part};
use crate::selections::Selections;
use mg_word::NoMemory;
use std::alloc::Global;
use std::marker::Model;
use tptp_lexer::Cursor;

/// A file that is open. Contracts see its name, its number, its bytes, and the cursor behind the
/// statements that were read.
#[derive(Drop)]
pub struct OpenFile {
    name: String,
    number: u32,
    bytes: Vec<u8>,
    cursor: Cursor,
}

impl Model for OpenFile {
    ghost use Rattle.cnf_reader.specs.Frames.{FileData, file_seen, IsFileOpen};

    ghost Value = { FileData };

    ghost view = { file_seen };

    ghost invariant = { IsFileOpen };
}

impl OpenFile {
    /// The file of this name and number, of which nothing was read.
    pub fn new(name: String, number: u32, bytes: Vec<u8>) -> OpenFile
        requires { length bytes.items ≤ 16777216 }
        ensures { result ≡ record { name = string_bytes name; number = number; bytes = bytes.items; cursor = start_cursor } }
    {
        OpenFile {
            name,
            number,
            bytes,
            cursor: Cursor::start(),
        }
    }

    /// The name under which it was read.
    pub fn name(&self) -> &str
        ensures { result.now ≡ self.now.name }
    {
        self.name.as_str()
    }

    /// Reads one statement, and keeps it if it is a clause.
    pub fn read(
        self,
        alloc: Global,
        selections: &Selections,
        kept: &mut Kept,
    ) -> Result<(Part, OpenFile), NoMemory>
        requires sound { IsSoundKept kept.old }
        requires file { self.number < length kept.old.files }
        requires room { length kept.old.symbols + left_in self ≤ 16777216 }
        ensures stays { OnOk result (Stays kept.old kept.new) }
        ensures sound { OnOk result (IsSoundKept kept.new) }
        ensures paid { IfOk result (λ made. IsPaid made.0 kept.old (left_in self) kept.new (left_in made.1)) }
        ensures advances { IfOk result (λ made. Advances selections.now kept.old self made.0 kept.new made.1) }
    {
        let OpenFile {
            name,
            number,
            bytes,
            mut cursor,
        } = self;
        let part = read_part(alloc, &bytes, &mut cursor, number, selections, kept)?;
        let file = OpenFile {
            name,
            number,
            bytes,
            cursor,
        };
        Ok((part, file))
    }
}

/// The files that are open outside of the innermost. Contracts see them as a list, the innermost
/// first.
#[derive(Drop)]
pub struct OpenFiles {
    files: Vec<OpenFile>,
}

impl Model for OpenFiles {
    ghost use Rattle.std.specs.Prelude.{List, reverse};
    ghost use Rattle.cnf_reader.specs.Frames.{FileData};

    ghost Value = { List FileData };

    ghost view = { λ stack. reverse stack.files.items };
}

impl OpenFiles {
    /// No file. It takes no memory.
    pub fn empty(alloc: Global) -> OpenFiles
        ensures { result ≡ [] }
    {
        OpenFiles {
            files: Vec::new(alloc),
        }
    }

    /// How many files there are.
    pub fn len(&self) -> usize
        ensures { result ≡ length self.now }
    {
        self.files.len()
    }

    /// Puts a file inside of the others.
    pub fn push(&mut self, file: OpenFile) -> Result<(), NoMemory>
        ensures { OnOk result (self.new ≡ file ∷ self.old) }
    {
        self.files.push(file)?;
        Ok(())
    }

    /// Takes the innermost file.
    pub fn pop(&mut self) -> Option<OpenFile>
        ensures { MatchOption result (self.old ≡ []) (λ file. self.old ≡ file ∷ self.new) }
    {
        self.files.pop()
    }
}
