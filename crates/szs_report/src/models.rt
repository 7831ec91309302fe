//! The reports of a list of sets, whole and in short.

ghost use Rattle.std.specs.Prelude.{◌≡◌, ◌++◌, ◌∷◌, All, IfOk, OnOk, IsTrue};
ghost use Rattle.mg_meaning.specs.Instances.{are_literals};
ghost use Rattle.szs_report.specs.ModelLines.{block_lines, count_lines, count_words, end_lines, last_set, list_value, models_lines, sample_lines, set_lines, stop_lines};

use crate::Report;
use crate::lines::{add_end, add_number, add_reason, add_start, add_status};
use crate::sets::{lits_line, set_line};
use mg_word::{LitSet, NoMemory, Problem, Symbols};
use std::alloc::Global;
use tree_board::{Limit, Limits};

/// The sets that a search listed, in order.
pub struct ModelsAnswer<'a> {
    pub sets: &'a [LitSet],
    /// The limit that stopped the search; without one the list is complete.
    pub gave_up: Option<Limit>,
}

// The status value of a list of sets.
fn list_value(sets: &[LitSet], gave_up: Option<Limit>) -> &'static str
    ensures { result.now ≡ list_value sets.now gave_up }
{
    match gave_up {
        Some(_) => "GaveUp",
        None => match sets {
            [] => "Unsatisfiable",
            [_, ..] => "Satisfiable",
        },
    }
}

// Adds a line for each set, numbered from 1.
fn add_sets(
    alloc: Global,
    report: &mut Report,
    symbols: &Symbols,
    sets: &[LitSet],
) -> Result<(), NoMemory>
    requires { All (λ set. IsTrue (are_literals symbols.now set)) sets.now }
    ensures { OnOk result (report.new ≡ report.old ++ set_lines symbols.now sets.now) }
{
    for (index, set) in sets.iter().enumerate() {
        let line = set_line(alloc, symbols, index + 1, set)?;
        report.add(&[&line])?;
    }
    Ok(())
}

// Adds the sets as an output, where there are some.
fn add_block(
    alloc: Global,
    report: &mut Report,
    symbols: &Symbols,
    name: &str,
    sets: &[LitSet],
) -> Result<(), NoMemory>
    requires { All (λ set. IsTrue (are_literals symbols.now set)) sets.now }
    ensures { OnOk result (report.new ≡ report.old ++ block_lines symbols.now name.now sets.now) }
{
    if sets.is_empty() {
        return Ok(());
    }
    add_start(report, "Model", name)?;
    add_sets(alloc, report, symbols, sets)?;
    add_end(report, "Model", name)
}

// Whether the sets are all that there are, in words.
fn count_words(gave_up: Option<Limit>) -> &'static str
    ensures { result.now ≡ count_words gave_up }
{
    match gave_up {
        None => "% Models complete: ",
        Some(_) => "% Models incomplete: ",
    }
}

// Adds which limit stopped the search, where one did.
fn add_stop(
    alloc: Global,
    report: &mut Report,
    limits: Limits,
    gave_up: Option<Limit>,
) -> Result<(), NoMemory>
    ensures { OnOk result (report.new ≡ report.old ++ stop_lines limits gave_up) }
{
    match gave_up {
        None => Ok(()),
        Some(limit) => add_reason(alloc, report, limits, limit),
    }
}

// Adds how many sets there are, whether these are all, and if not, what stopped the search.
fn add_count(
    alloc: Global,
    report: &mut Report,
    limits: Limits,
    sets: &[LitSet],
    gave_up: Option<Limit>,
) -> Result<(), NoMemory>
    ensures { OnOk result (report.new ≡ report.old ++ count_lines limits sets.now gave_up) }
{
    add_number(alloc, report, count_words(gave_up), sets.len())?;
    add_stop(alloc, report, limits, gave_up)
}

// The last of a set and those behind it.
fn last_set<'a>(first: &'a LitSet, others: &'a [LitSet]) -> &'a LitSet
    ensures { result.now ≡ last_set first.now others.now }
{
    match others {
        [] => first,
        [.., last] => last,
    }
}

// Adds the literals of the first and of the last set, where there are sets.
fn add_ends(
    alloc: Global,
    report: &mut Report,
    symbols: &Symbols,
    sets: &[LitSet],
) -> Result<(), NoMemory>
    requires { All (λ set. IsTrue (are_literals symbols.now set)) sets.now }
    ensures { OnOk result (report.new ≡ report.old ++ end_lines symbols.now sets.now) }
{
    let [first, others @ ..] = sets else {
        return Ok(());
    };
    let line = lits_line(alloc, symbols, "first: ", first)?;
    report.add(&[&line])?;
    let line = lits_line(alloc, symbols, "last: ", last_set(first, others))?;
    report.add(&[&line])
}

/// The report of a list of sets of the problem of this name: each of them, how many they are, and
/// whether these are all.
pub fn report_models(
    alloc: Global,
    problem: &Problem,
    name: &str,
    answer: ModelsAnswer<'_>,
    limits: Limits,
) -> Result<Report, NoMemory>
    requires { All (λ set. IsTrue (are_literals problem.now.symbols set)) answer.sets.now }
    ensures { IfOk result (λ report. report ≡ models_lines problem.now.symbols name.now limits answer.entry.sets.now answer.entry.gave_up) }
{
    let ModelsAnswer { sets, gave_up } = answer;
    let mut report = Report::new(alloc);
    add_status(&mut report, list_value(sets, gave_up), name)?;
    add_block(alloc, &mut report, &problem.symbols, name, sets)?;
    add_count(alloc, &mut report, limits, sets, gave_up)?;
    Ok(report)
}

/// The report of such a list in short: how many sets there are, whether these are all, the first and
/// the last.
pub fn report_sample(
    alloc: Global,
    problem: &Problem,
    name: &str,
    answer: ModelsAnswer<'_>,
    limits: Limits,
) -> Result<Report, NoMemory>
    requires { All (λ set. IsTrue (are_literals problem.now.symbols set)) answer.sets.now }
    ensures { IfOk result (λ report. report ≡ sample_lines problem.now.symbols name.now limits answer.entry.sets.now answer.entry.gave_up) }
{
    let ModelsAnswer { sets, gave_up } = answer;
    let mut report = Report::new(alloc);
    add_status(&mut report, list_value(sets, gave_up), name)?;
    add_count(alloc, &mut report, limits, sets, gave_up)?;
    add_ends(alloc, &mut report, &problem.symbols, sets)?;
    Ok(report)
}
