//! What the words after the program's name ask for.

ghost use Rattle.std.specs.Prelude.{◌≡◌, ◌∷◌, ℕ, List, Option, IfOk, MatchBool, MatchOption, map, option_map, string_bytes};
ghost use Rattle.command_words.specs.Asking.{AreWords, Asks, IsCheck, IsForms, IsSample, IsSearch, file_place, search_options};
ghost use Rattle.command_words.specs.Asking.{Check as CheckOf, Forms as FormsOf, Sample as SampleOf, Search as SearchOf};
ghost use Rattle.command_words.specs.Clap.{Hold};
ghost use Rattle.command_words.specs.Given.{Values, Word};
ghost use Rattle.command_words.specs.Requests.{AsksFor, AsksNothing, search_seen};

use crate::arguments::{Arguments, read_arguments};
use crate::options::{
    BUDGET, FILE_PLACE, ROOT_OPTION, SAMPLE_OPTIONS, SEARCH_OPTIONS, SIZE_PLACE, TREE_PLACES,
    WEIGHT, WORKERS,
};
use crate::values::{file, number, root, size};
use mg_word::NoMemory;
use std::alloc::Global;

/// What a search is asked for.
#[derive(Clone, Copy, Debug)]
pub struct Search<'a> {
    /// The problem's file.
    pub file: &'a str,
    /// The folder where included files are looked for, too.
    pub root: Option<&'a str>,
    pub workers: u32,
    /// How many extensions the search may make.
    pub budget: u32,
    /// The greatest weight of an instance.
    pub weight: u32,
}

/// A command, with what it is given.
#[derive(Clone, Copy, Debug)]
pub enum Request<'a> {
    /// Whether the problem is unsatisfiable.
    Prove(Search<'a>),
    /// The minimal models of the problem.
    Models(Search<'a>),
    /// Whether the tree is a proof that the problem is unsatisfiable.
    Check {
        file: &'a str,
        tree: &'a str,
        root: Option<&'a str>,
    },
    /// The forms of the problem.
    Forms {
        file: &'a str,
        root: Option<&'a str>,
    },
    /// The minimal models of a problem that is made, of this size.
    Sample {
        size: u32,
        workers: u32,
        budget: u32,
    },
}

// Whether the first word is the command.
fn is_asked(words: &[String], command: &str) -> bool
    ensures { MatchBool result ((arguments : List Word) × (map string_bytes words.now ≡ command.now ∷ arguments)) ((arguments : List Word) → map string_bytes words.now ≡ command.now ∷ arguments → ⊥) }
{
    let [first, ..] = words else {
        return false;
    };
    first.as_str() == command
}

// What the values ask of a search.
fn search_of<'a>(given: &Arguments<'a>) -> Option<Search<'a>>
    ensures { (values : Values) → Hold given.now values → MatchOption result
        ((wanted : SearchOf) → IsSearch wanted values → ⊥) (λ found. IsSearch (search_seen found) values) }
{
    Some(Search {
        file: file(given, "FILE")?,
        root: root(given)?,
        workers: number(given, &WORKERS)?,
        budget: number(given, &BUDGET)?,
        weight: number(given, &WEIGHT)?,
    })
}

// What the values ask of a check.
fn check_of<'a>(given: &Arguments<'a>) -> Option<(&'a str, &'a str, Option<&'a str>)>
    ensures { (values : Values) → Hold given.now values → MatchOption result
        ((name tree : Word) (folder : Option Word) → IsCheck name tree folder values → ⊥)
        (λ found. IsCheck found.0.now found.1.now (option_map (λ folder. folder.now) found.2) values) }
{
    Some((file(given, "FILE")?, file(given, "TREE")?, root(given)?))
}

// Which forms the values ask for.
fn forms_of<'a>(given: &Arguments<'a>) -> Option<(&'a str, Option<&'a str>)>
    ensures { (values : Values) → Hold given.now values → MatchOption result
        ((name : Word) (folder : Option Word) → IsForms name folder values → ⊥)
        (λ found. IsForms found.0.now (option_map (λ folder. folder.now) found.1) values) }
{
    Some((file(given, "FILE")?, root(given)?))
}

// Which problem the values ask to be made, and with how many workers and extensions it is searched.
fn sample_of(given: &Arguments<'_>) -> Option<(u32, u32, u32)>
    ensures { (values : Values) → Hold given.now values → MatchOption result
        ((k n m : ℕ) → IsSample k n m values → ⊥) (λ found. IsSample found.0 found.1 found.2 values) }
{
    Some((
        size(given)?,
        number(given, &WORKERS)?,
        number(given, &BUDGET)?,
    ))
}

// The search that the words ask for by this command.
fn search_asked<'a>(
    alloc: Global,
    command: &str,
    words: &'a [String],
) -> Result<Option<Search<'a>>, NoMemory>
    ensures { IfOk result (λ found. MatchOption found
        ((wanted : SearchOf) → AreWords command.now search_options file_place (map string_bytes words.entry.now) (IsSearch wanted) → ⊥)
        (λ search. AreWords command.now search_options file_place (map string_bytes words.entry.now) (IsSearch (search_seen search)))) }
{
    if !is_asked(words, command) {
        return Ok(None);
    }
    let options = SEARCH_OPTIONS.as_slice();
    let places = FILE_PLACE.as_slice();
    let Some(given) = read_arguments(alloc, options, places, words)? else {
        return Ok(None);
    };
    Ok(search_of(&given))
}

// The check that the words ask for.
fn check_asked<'a>(
    alloc: Global,
    words: &'a [String],
) -> Result<Option<(&'a str, &'a str, Option<&'a str>)>, NoMemory>
    ensures { IfOk result (λ found. MatchOption found
        ((name tree : Word) (folder : Option Word) → Asks (map string_bytes words.entry.now) (CheckOf name tree folder) → ⊥)
        (λ asked. Asks (map string_bytes words.entry.now) (CheckOf asked.0.now asked.1.now (option_map (λ folder. folder.now) asked.2)))) }
{
    if !is_asked(words, "check") {
        return Ok(None);
    }
    let options = ROOT_OPTION.as_slice();
    let places = TREE_PLACES.as_slice();
    let Some(given) = read_arguments(alloc, options, places, words)? else {
        return Ok(None);
    };
    Ok(check_of(&given))
}

// The forms that the words ask for.
fn forms_asked<'a>(
    alloc: Global,
    words: &'a [String],
) -> Result<Option<(&'a str, Option<&'a str>)>, NoMemory>
    ensures { IfOk result (λ found. MatchOption found
        ((name : Word) (folder : Option Word) → Asks (map string_bytes words.entry.now) (FormsOf name folder) → ⊥)
        (λ asked. Asks (map string_bytes words.entry.now) (FormsOf asked.0.now (option_map (λ folder. folder.now) asked.1)))) }
{
    if !is_asked(words, "forms") {
        return Ok(None);
    }
    let options = ROOT_OPTION.as_slice();
    let places = FILE_PLACE.as_slice();
    let Some(given) = read_arguments(alloc, options, places, words)? else {
        return Ok(None);
    };
    Ok(forms_of(&given))
}

// The made problem that the words ask for.
fn sample_asked(alloc: Global, words: &[String]) -> Result<Option<(u32, u32, u32)>, NoMemory>
    ensures { IfOk result (λ found. MatchOption found
        ((k n m : ℕ) → Asks (map string_bytes words.now) (SampleOf k n m) → ⊥)
        (λ asked. Asks (map string_bytes words.now) (SampleOf asked.0 asked.1 asked.2))) }
{
    if !is_asked(words, "sample") {
        return Ok(None);
    }
    let options = SAMPLE_OPTIONS.as_slice();
    let places = SIZE_PLACE.as_slice();
    let Some(given) = read_arguments(alloc, options, places, words)? else {
        return Ok(None);
    };
    Ok(sample_of(&given))
}

/// What the words ask for, and `None` where they ask for nothing.
pub fn request_of(alloc: Global, words: &[String]) -> Result<Option<Request<'_>>, NoMemory>
    ensures { IfOk result (λ found. MatchOption found (AsksNothing (map string_bytes words.now)) (AsksFor (map string_bytes words.now))) }
{
    if let Some(search) = search_asked(alloc, "prove", words)? {
        return Ok(Some(Request::Prove(search)));
    }
    if let Some(search) = search_asked(alloc, "models", words)? {
        return Ok(Some(Request::Models(search)));
    }
    if let Some((file, tree, root)) = check_asked(alloc, words)? {
        return Ok(Some(Request::Check { file, tree, root }));
    }
    if let Some((file, root)) = forms_asked(alloc, words)? {
        return Ok(Some(Request::Forms { file, root }));
    }
    if let Some((size, workers, budget)) = sample_asked(alloc, words)? {
        return Ok(Some(Request::Sample {
            size,
            workers,
            budget,
        }));
    }
    Ok(None)
}
