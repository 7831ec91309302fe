//! One statement of a file, from its first token to its dot.

ghost use Rattle.std.specs.Prelude.{◌≡◌, ◌+◌, ◌<◌, ◌≤◌, length, IfOk, OnOk};
ghost use Rattle.tptp_lexer.specs.Tokens.{left_of, IsAt};
ghost use Rattle.cnf_grammar.specs.Seen.{seen};
ghost use Rattle.cnf_reader.specs.Keeping.{is_full};
ghost use Rattle.cnf_reader.specs.Led.{count_left, IsPaid};
ghost use Rattle.cnf_reader.specs.Parts.{IsPart, IsEnd, Stays};
ghost use Rattle.cnf_reader.specs.Sound.{IsSoundKept};
ghost use Rattle.cnf_reader.specs.declared.part.Part.TheVariants.{Include};

use crate::end::end_of;
use crate::fault::ReadKind;
use crate::keep::keep;
use crate::kept::Kept;
use crate::pending::{Asked, Pending};
use crate::selections::Selections;
use cnf_grammar::{Lexeme, Position, State};
use mg_word::NoMemory;
use std::alloc::Global;
use tptp_lexer::{Cursor, next_token};

/// The most clauses of a problem.
const MOST_CLAUSES: usize = 20_000;

/// What stands in a file behind the statements that were read.
#[derive(Drop)]
pub enum Part {
    /// The end of the file.
    Ended,
    /// A clause, which is kept if it is selected.
    Clause,
    /// An include.
    Include(Asked),
    /// A fault at this line and column.
    Fault(ReadKind, u32, u32),
}

// What the end of the tokens is at this position.
fn end_part(bytes: &[u8], position: &Position) -> Part
    requires { length bytes.now ≤ 16777216 }
    ensures { IsEnd bytes.now position.now result }
{
    match position.state {
        State::Statement => Part::Ended,
        _ => {
            let (line, column) = end_of(bytes);
            Part::Fault(ReadKind::Expected, line, column)
        }
    }
}

/// Reads one statement of a file, whose number this is, and keeps it if it is a clause.
pub fn read_part(
    alloc: Global,
    bytes: &[u8],
    cursor: &mut Cursor,
    number: u32,
    selections: &Selections,
    kept: &mut Kept,
) -> Result<Part, NoMemory>
    requires small { length bytes.now ≤ 16777216 }
    requires at { IsAt bytes.now cursor.old }
    requires sound { IsSoundKept kept.old }
    requires file { number < length kept.old.files }
    requires room { length kept.old.symbols + count_left bytes.now cursor.old ≤ 16777216 }
    ensures at { IsAt bytes.now cursor.new }
    ensures stays { OnOk result (Stays kept.old kept.new) }
    ensures sound { OnOk result (IsSoundKept kept.new) }
    ensures paid { IfOk result (λ part. IsPaid part kept.old (count_left bytes.now cursor.old) kept.new (count_left bytes.now cursor.new)) }
    ensures part { IfOk result (λ part. IsPart number bytes.now selections.now kept.old (left_of bytes.now cursor.old) part kept.new (left_of bytes.now cursor.new)) }
{
    let is_full = kept.clauses.as_slice().len() >= MOST_CLAUSES;
    let mut pending = Pending::fresh(alloc);
    loop {
        let found = match next_token(bytes, cursor) {
            Ok(found) => found,
            Err(fault) => {
                return Ok(Part::Fault(ReadKind::Lex(fault.kind), fault.line, fault.column));
            }
        };
        let Some(token) = found else {
            return Ok(end_part(bytes, &pending.position));
        };
        let lexeme = Lexeme {
            kind: token.kind,
            text: &bytes[token.start as usize..token.end as usize],
            plain: token.plain,
        };
        let state = pending.position.state;
        let fault = pending.take(
            alloc,
            is_full,
            selections,
            &lexeme,
            token.line,
            token.column,
        )?;
        if let Some(kind) = fault {
            return Ok(Part::Fault(kind, token.line, token.column));
        }
        match state {
            State::ClauseClosed => {
                keep(alloc, selections, kept, number, pending)?;
                return Ok(Part::Clause);
            }
            State::IncludeClosed => return Ok(include_part(pending)),
            _ => {}
        }
    }
}

// The include of the statement.
fn include_part(pending: Pending) -> Part
    ensures { result ≡ Include pending.entry.asked }
{
    let Pending {
        position: _,
        line: _,
        column: _,
        name: _,
        draft: _,
        words: _,
        item: _,
        chosen: _,
        conclude: _,
        asked,
    } = pending;
    Part::Include(asked)
}
