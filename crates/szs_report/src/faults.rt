//! The reports of what was refused: a status line, and a message.

ghost use Rattle.std.specs.Prelude.{◌≡◌, ◌≢◌, ◌<◌, ◌++◌, [], ◌∷◌, IfOk, OnOk, IsTrue, codes, length};
ghost use Rattle.std.specs.List.{flat_map};
ghost use Rattle.szs_report.specs.Lines.{status_line, read_value, lex_words, read_words, fault_words, read_messages, message, form_words, unrestricted_words, variable_text, faulty_clause, form_messages, tree_message, usage_lines};
ghost use Rattle.szs_report.specs.Troubles.{read_out, trouble_out, trouble_err, IsTrouble};

use crate::Report;
use crate::lines::add_status;
use crate::report::joined;
use clause_form::FormFault;
use cnf_reader::{ReadFault, ReadKind};
use mg_word::{Clause, Input, NoMemory, Text, push_name};
use std::alloc::Global;
use tptp_lexer::LexKind;

/// What is refused.
pub enum Trouble<'a> {
    /// The problem was not read.
    Read(&'a ReadFault),
    /// The problem was read, and has no forms.
    Form(&'a Input, &'a FormFault),
    /// There is no file of that name, where a tree is wanted.
    TreeAbsent(&'a str),
    /// The reading of the tree's file failed.
    TreeFailed(&'a str),
    /// The words ask for no command.
    Usage,
}

/// The lines for the output and those for the messages.
#[derive(Debug, Drop)]
pub struct FaultReport {
    pub out: Report,
    pub err: Report,
}

// The status value of a fault of reading.
fn read_value(kind: ReadKind) -> &'static str
    ensures { result.now ≡ read_value kind }
{
    match kind {
        ReadKind::Lex(_) | ReadKind::Expected | ReadKind::BadConclude => "SyntaxError",
        ReadKind::IncludeAbsent | ReadKind::ProblemAbsent => "InputError",
        ReadKind::Files => "OSError",
        _ => "Inappropriate",
    }
}

// What is wrong with the bytes of a file, in words.
fn lex_words(kind: LexKind) -> &'static str
    ensures { result.now ≡ lex_words kind }
{
    match kind {
        LexKind::BadByte => "byte not allowed",
        LexKind::OpenQuote => "quote not closed",
        LexKind::BadEscape => "bad escape",
        LexKind::OpenComment => "comment not closed",
    }
}

// What is wrong, in words.
fn read_words(kind: ReadKind) -> &'static str
    ensures { result.now ≡ read_words kind }
{
    match kind {
        ReadKind::Lex(kind) => lex_words(kind),
        ReadKind::Expected => "syntax error",
        ReadKind::Role => "role not accepted",
        ReadKind::NotCnf => "not a cnf formula",
        ReadKind::Equality => "equality not accepted",
        ReadKind::Number => "number not accepted",
        ReadKind::Defined => "defined word not accepted",
        ReadKind::BadConclude => "bad conclude list",
        ReadKind::IncludeAbsent => "include file not found:",
        ReadKind::IncludeDepth => "includes nested too deep",
        ReadKind::TooManyIncludes => "too many includes",
        ReadKind::TooLong => "input too long",
        ReadKind::TooManyClauses => "too many clauses",
        ReadKind::TooManyLiterals => "too many literals",
        ReadKind::TooManyVariables => "too many variables",
        ReadKind::TooDeep => "brackets nested too deep",
        ReadKind::ProblemAbsent => "file not found",
        ReadKind::Files => "read failed",
    }
}

// What is wrong, with the name of a file that is absent.
fn fault_words(alloc: Global, kind: ReadKind, subject: &Text) -> Result<Vec<u8>, NoMemory>
    ensures { IfOk result (λ words. words.items ≡ fault_words kind subject.now) }
{
    let mut words = Vec::from_slice(alloc, read_words(kind).as_bytes())?;
    if let ReadKind::IncludeAbsent = kind {
        words.push(b' ')?;
        words.extend_from_slice(subject.as_slice())?;
    }
    Ok(words)
}

// Adds a message at a place.
fn add_message(
    alloc: Global,
    report: &mut Report,
    file: &Text,
    line: u32,
    column: u32,
    words: &[u8],
) -> Result<(), NoMemory>
    ensures { OnOk result (report.new ≡ report.old ++ message file.now line column words.now ∷ []) }
{
    let line = format!(in alloc; "{line}")?;
    let column = format!(in alloc; "{column}")?;
    report.add(&[
        b"mgtp: ",
        file.as_slice(),
        b":",
        line.as_bytes(),
        b":",
        column.as_bytes(),
        b": ",
        words,
        b"\n",
    ])
}

// The report of a fault of reading.
fn report_read(alloc: Global, name: &str, fault: &ReadFault) -> Result<FaultReport, NoMemory>
    requires { fault.now ≢ ReadFault.NoMemory }
    ensures out { IfOk result (λ report. report.out ≡ read_out name.now fault.now) }
    ensures err { IfOk result (λ report. report.err ≡ read_messages fault.now) }
{
    let ReadFault::At {
        kind,
        file,
        line,
        column,
        subject,
    } = fault
    else {
        unreachable!()
    };
    let mut out = Report::new(alloc);
    add_status(&mut out, read_value(*kind), name)?;
    let mut err = Report::new(alloc);
    let words = fault_words(alloc, *kind, subject)?;
    add_message(alloc, &mut err, file, *line, *column, &words)?;
    Ok(FaultReport { out, err })
}

// The text of a variable of the clause.
fn variable_text(clause: &Clause, variable: u32) -> &[u8]
    ensures { result.now ≡ variable_text clause.now variable }
{
    match clause.variables.as_slice().get(variable as usize) {
        None => &[],
        Some(name) => name.as_slice(),
    }
}

// What is wrong with a form that is not range restricted, in words.
fn unrestricted_words(
    alloc: Global,
    name: &[u8],
    form: u32,
    variable: &[u8],
) -> Result<Vec<u8>, NoMemory>
    ensures { IfOk result (λ words. words.items ≡ unrestricted_words name.now form variable.now) }
{
    let form = format!(in alloc; "{form}")?;
    joined(
        alloc,
        &[
            b"clause ",
            name,
            b", form ",
            form.as_bytes(),
            b": variable ",
            variable,
            b" of a conclusion is in no premise",
        ],
    )
}

// What is wrong with the form of a clause, in words.
fn form_words(alloc: Global, clause: &Clause, fault: FormFault) -> Result<Vec<u8>, NoMemory>
    requires { fault ≢ FormFault.NoMemory }
    ensures { IfOk result (λ words. words.items ≡ form_words clause.now fault) }
{
    let mut name = Vec::new(alloc);
    push_name(&mut name, clause.name.kind, clause.name.text.as_slice())?;
    match fault {
        FormFault::TooHeavy { clause: _, literal } => {
            let literal = format!(in alloc; "{literal}")?;
            joined(
                alloc,
                &[
                    b"clause ",
                    &name,
                    b", literal ",
                    literal.as_bytes(),
                    b": more than 4096 symbols",
                ],
            )
        }
        FormFault::TooManyForms { clause: _ } => joined(alloc, &[b"too many forms"]),
        FormFault::NotRestricted {
            clause: _,
            form,
            variable,
        } => { unrestricted_words(alloc, &name, form, variable_text(clause, variable)) }
        FormFault::NoMemory => unreachable!(),
    }
}

// The report of a fault of forms.
fn report_form(
    alloc: Global,
    name: &str,
    input: &Input,
    fault: FormFault,
) -> Result<FaultReport, NoMemory>
    requires some { fault ≢ FormFault.NoMemory }
    requires there { faulty_clause fault < length input.now.clauses }
    ensures out { IfOk result (λ report. report.out ≡ status_line (codes "Inappropriate") name.now ∷ []) }
    ensures err { IfOk result (λ report. report.err ≡ form_messages input.now fault) }
{
    let clause = &input.clauses.as_slice()[faulty_clause(fault) as usize];
    let words = form_words(alloc, clause, fault)?;
    let mut out = Report::new(alloc);
    add_status(&mut out, "Inappropriate", name)?;
    let mut err = Report::new(alloc);
    let file = &input.files.as_slice()[clause.place.file as usize];
    add_message(
        alloc,
        &mut err,
        file,
        clause.place.line,
        clause.place.column,
        &words,
    )?;
    Ok(FaultReport { out, err })
}

// The index of the clause that the fault names.
fn faulty_clause(fault: FormFault) -> u32
    requires { fault ≢ FormFault.NoMemory }
    ensures { result ≡ faulty_clause fault }
{
    match fault {
        FormFault::TooHeavy { clause, literal: _ } => clause,
        FormFault::TooManyForms { clause } => clause,
        FormFault::NotRestricted {
            clause,
            form: _,
            variable: _,
        } => clause,
        FormFault::NoMemory => unreachable!(),
    }
}

// The report of a tree's file that could not be read.
fn report_tree(
    alloc: Global,
    value: &str,
    name: &str,
    tree: &str,
    words: &str,
) -> Result<FaultReport, NoMemory>
    ensures out { IfOk result (λ report. report.out ≡ status_line value.now name.now ∷ []) }
    ensures err { IfOk result (λ report. report.err ≡ tree_message tree.now words.now ∷ []) }
{
    let mut out = Report::new(alloc);
    add_status(&mut out, value, name)?;
    let mut err = Report::new(alloc);
    err.add(&[b"mgtp: ", tree.as_bytes(), b": ", words.as_bytes(), b"\n"])?;
    Ok(FaultReport { out, err })
}

// The report of words that ask for no command.
fn report_usage(alloc: Global) -> Result<FaultReport, NoMemory>
    ensures out { IfOk result (λ report. report.out ≡ []) }
    ensures err { IfOk result (λ report. report.err ≡ usage_lines) }
{
    let mut err = Report::new(alloc);
    err.add(&[b"usage: mgtp prove FILE [--workers N] [--budget N] [--weight N] [--root DIR]\n"])?;
    err.add(&[b"       mgtp models FILE [--workers N] [--budget N] [--weight N] [--root DIR]\n"])?;
    err.add(&[b"       mgtp check FILE TREE [--root DIR]\n"])?;
    err.add(&[b"       mgtp forms FILE [--root DIR]\n"])?;
    err.add(&[b"       mgtp sample K [--workers N] [--budget N]\n"])?;
    Ok(FaultReport {
        out: Report::new(alloc),
        err,
    })
}

/// The report of what is refused, for the problem of this name.
pub fn report_fault(
    alloc: Global,
    name: &str,
    trouble: Trouble<'_>,
) -> Result<FaultReport, NoMemory>
    requires { IsTrouble trouble }
    ensures out { IfOk result (λ report. report.out ≡ trouble_out name.now trouble.entry) }
    ensures err { IfOk result (λ report. report.err ≡ trouble_err trouble.entry) }
{
    match trouble {
        Trouble::Read(fault) => report_read(alloc, name, fault),
        Trouble::Form(input, fault) => report_form(alloc, name, input, *fault),
        Trouble::TreeAbsent(tree) => report_tree(alloc, "InputError", name, tree, "file not found"),
        Trouble::TreeFailed(tree) => report_tree(alloc, "OSError", name, tree, "read failed"),
        Trouble::Usage => report_usage(alloc),
    }
}
