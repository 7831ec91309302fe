//! Files in memory that fail at the calls that they are told to, for tests.

ghost use Rattle.std.specs.Prelude.{◌≡◌, ◌≢◌, [], Some, IfSome, IsOkAnd};
ghost use Rattle.std.specs.List.{find};
ghost use Rattle.std.specs.Option.{option_map, option_copied};
ghost use Rattle.std.specs.Str.{bytes_eq};
ghost use Rattle.mg_outside.specs.Counting.{counted};
ghost use Rattle.mg_outside.specs.Reading.{TakesFile, IsAbsent, IsTooLong, told_answer};
ghost use Rattle.mg_outside.specs.FilesRule.{named_files, file_named, new_files, read_answer, after_read};

use crate::counts::ReadCounter;
use crate::{Files, ReadAnswer};
use mg_word::{NoMemory, Text};
use std::marker::Model;

/// Files in memory. Contracts see the files by name, the calls that fail, and the counts.
#[derive(Drop)]
pub struct MemoryFiles {
    files: Vec<(Text, Vec<u8>)>,
    /// The numbers of the calls that fail, from 1.
    failing: Vec<u64>,
    calls: u64,
    counts: ReadCounter,
}

impl Model for MemoryFiles {
    ghost use Rattle.mg_outside.specs.FilesRule.{FilesState, named_files};

    ghost Value = { FilesState };

    ghost view = { λ m. record { files = named_files m.files.items; failing = m.failing.items; calls = m.calls; counts = m.counts } };
}

impl MemoryFiles {
    /// The files of this list, of which the first with a name counts. The calls with the numbers
    /// of `failing`, counted from 1, fail. It takes no memory, and always answers the files.
    pub fn new(files: Vec<(Text, Vec<u8>)>, failing: Vec<u64>) -> Result<MemoryFiles, NoMemory>
        ensures { IsOkAnd result (λ made. made ≡ new_files (named_files files.items) failing.items) }
    {
        Ok(MemoryFiles {
            files,
            failing,
            calls: 0,
            counts: ReadCounter::new(),
        })
    }
}

// The first pair with the name.
fn find_pair<'a>(files: &'a [(Text, Vec<u8>)], name: &str) -> Option<&'a (Text, Vec<u8>)>
    ensures { option_copied result ≡ find (λ pair. bytes_eq pair.0 name.now) files.now }
{
    files
        .iter()
        .find(|file| file.0.as_slice() == name.as_bytes())
}

// The bytes of the first file with the name.
#[tactic(auto, using(crate::proofs::NamedFiles::find_named))]
fn find_file<'a>(files: &'a [(Text, Vec<u8>)], name: &str) -> Option<&'a [u8]>
    ensures { option_map (λ bytes. bytes.now) result ≡ file_named (named_files files.now) name.now }
{
    match find_pair(files, name) {
        None => None,
        Some(file) => Some(file.1.as_slice()),
    }
}

impl Files for MemoryFiles {
    ghost table = { λ m. Some (file_named m.files) };

    ghost counts = { λ m. m.counts };

    fn read(&mut self, name: &str, limit: u64, into: &mut Vec<u8>) -> ReadAnswer
        ensures same { Some (file_named self.new.files) ≡ Some (file_named self.old.files) }
        ensures counted { self.new.counts ≡ counted result self.old.counts }
        ensures done { result ≡ ReadAnswer.Done → TakesFile (Some (file_named self.old.files)) name.now limit into.old.items into.new.items }
        ensures absent { result ≡ ReadAnswer.Absent → IsAbsent (Some (file_named self.old.files)) name.now }
        ensures too_long { result ≡ ReadAnswer.TooLong → IsTooLong (Some (file_named self.old.files)) name.now limit }
        ensures as_before { result ≢ ReadAnswer.Done → into.new.items ≡ into.old.items }
        ensures exact { result ≢ ReadAnswer.Failed → result ≢ ReadAnswer.NoMemory
            → IfSome (Some (file_named self.old.files)) (λ files. result ≡ told_answer (files name.now) limit) }

        // Beyond the trait: the answer is the rule's, but that memory may run out at the append.
        ensures answer { result ≢ ReadAnswer.NoMemory → result ≡ read_answer self.old name.now limit }
        ensures memory { result ≡ ReadAnswer.NoMemory → read_answer self.old name.now limit ≡ ReadAnswer.Done }
        ensures spared { self.old.failing ≡ [] → result ≢ ReadAnswer.Failed }
        ensures after { self.new ≡ after_read self.old name.now limit }
    {
        self.calls = self.calls.saturating_add(1);
        if self.failing.contains(&self.calls) {
            self.counts.count(ReadAnswer::Failed);
            return ReadAnswer::Failed;
        }
        let Some(bytes) = find_file(&self.files, name) else {
            self.counts.count(ReadAnswer::Absent);
            return ReadAnswer::Absent;
        };
        if bytes.len() as u64 > limit {
            self.counts.count(ReadAnswer::TooLong);
            return ReadAnswer::TooLong;
        }
        match into.extend_from_slice(bytes) {
            Ok(()) => ReadAnswer::Done,
            Err(_) => ReadAnswer::NoMemory,
        }
    }
}
