//! Reports: lists of texts, each of one or more lines with their line feeds.

ghost use Rattle.std.specs.Prelude.{◌≡◌, ◌≢◌, ◌<◌, ◌++◌, [], ◌∷◌, IfOk, OnOk, length};
ghost use Rattle.std.specs.List.{flat_map};
ghost use Rattle.mg_outside.specs.Putting.{Puts};
ghost use Rattle.szs_report.specs.Printing.{text_of};

use ascii_text::line_len;
use mg_outside::{PutAnswer, Sink};
use mg_word::{NoMemory, Text};
use std::alloc::Global;
use std::marker::Model;

/// Texts in order, each of one or more lines with their line feeds.
#[derive(Debug, Drop)]
pub struct Report {
    texts: Vec<Text>,
}

impl Model for Report {
    ghost use Rattle.std.specs.Prelude.{List, ℕ};

    ghost Value = { List (List ℕ) };

    ghost view = { λ report. report.texts.items };
}

impl Report {
    /// The report without texts. It takes no memory.
    pub fn new(alloc: Global) -> Report
        ensures { result ≡ [] }
    {
        Report {
            texts: Vec::new(alloc),
        }
    }

    /// Adds a text, made of these parts.
    pub fn add(&mut self, parts: &[&[u8]]) -> Result<(), NoMemory>
        ensures { OnOk result (self.new ≡ self.old ++ flat_map (λ part. part.now) parts.now ∷ []) }
    {
        let bytes = joined(*self.texts.allocator(), parts)?;
        self.texts.push(Text::new(bytes))?;
        Ok(())
    }
}

/// The parts, one after the other.
pub(crate) fn joined(alloc: Global, parts: &[&[u8]]) -> Result<Vec<u8>, NoMemory>
    ensures { IfOk result (λ bytes. bytes.items ≡ flat_map (λ part. part.now) parts.now) }
{
    let mut bytes = Vec::new(alloc);
    for part in parts {
        bytes.extend_from_slice(part)?;
    }
    Ok(bytes)
}

// The first line of a text, with its line feed, and what is behind it.
fn cut_line(text: &[u8]) -> (&[u8], &[u8])
    ensures cut { text.now ≡ result.0.now ++ result.1.now }
    ensures shorter { text.now ≢ [] → length result.1.now < length text.now }
{
    let count = line_len(text);
    if count < text.len() {
        return text.split_at(count + 1);
    }
    (text, &[])
}

// Puts one line of a text after the other. At the first failure it stops.
fn put_lines<O: Sink>(text: &[u8], sink: &mut O) -> PutAnswer
    ensures { Puts result (O.seen sink.old) (O.seen sink.new) text.now }
{
    let mut rest = text;
    while !rest.is_empty() {
        let (line, behind) = cut_line(rest);
        if let PutAnswer::Failed = sink.put(line) {
            return PutAnswer::Failed;
        }
        rest = behind;
    }
    PutAnswer::Done
}

/// Puts one line after the other. At the first failure it stops. It takes no memory.
pub fn put_report<O: Sink>(report: &Report, sink: &mut O) -> PutAnswer
    ensures { Puts result (O.seen sink.old) (O.seen sink.new) (text_of report.now) }
{
    for text in &report.texts {
        if let PutAnswer::Failed = put_lines(text.as_slice(), sink) {
            return PutAnswer::Failed;
        }
    }
    PutAnswer::Done
}
