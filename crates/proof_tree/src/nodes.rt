//! Lines of trees.

ghost use Rattle.std.specs.Prelude.{◌≡◌, ℕ, ◌<◌, ◌^◌, List, MatchResult, MatchOption, false, codes, ◌++◌, ◌∷◌};
ghost use Rattle.proof_tree.specs.Reading.{IsNode, IsNoNode, IsSplitSo, IsNumbered, IsRefused, IsLitText, IsNoLitText};

use crate::line_fault::LineFault;
use ascii_text::plain_value;
use mg_word::{Lit, Problem, Subst};
use std::alloc::Global;
use term_text::{Buffers, FoundLit, TermList, read_list, read_lit, strip, take_number};
use tree_checker::{DocKind, TreeLine};

// The number of the form, and the list of its terms behind its opening bracket, as they are spelled.
fn parts_of(text: &[u8]) -> Option<(u32, &[u8])>
    ensures { MatchOption result
        ((number : ℕ) (list : List ℕ) → IsSplitSo text.now number list → ⊥)
        (λ found. IsSplitSo text.now found.0 found.1.now) }
{
    let (number, rest) = take_number(text)?;
    let list = strip(rest, b" [")?;
    Some((number, list))
}

// The line of these parts, where there are such a form and such terms.
fn line_of(forms: usize, number: u32, terms: TermList) -> Result<TreeLine, LineFault>
    ensures { MatchResult result
        (λ line. IsNumbered forms number × (terms.has_unknown ≡ false) × (terms.has_heavy ≡ false) × (line ≡ TreeLine.Form number terms.words))
        (IsRefused forms number terms.has_unknown terms.has_heavy) }
{
    if number == 0 || number as usize > forms {
        return Err(LineFault::Wrong(DocKind::FormNumber));
    }
    if terms.has_unknown {
        return Err(LineFault::Wrong(DocKind::Unknown));
    }
    if terms.has_heavy {
        return Err(LineFault::Wrong(DocKind::Heavy));
    }
    // A document has as many lists as lines, so that none is to have more room than its terms take.
    let mut words = terms.words.into_vec();
    words.shrink_to_fit();
    Ok(TreeLine::Form {
        form: number,
        subst: Subst::new(words),
    })
}

// The line that names a form, by what stands behind `form`.
fn read_form(
    alloc: Global,
    problem: &Problem,
    text: &[u8],
    buffers: &mut Buffers,
) -> Result<TreeLine, LineFault>
    ensures { MatchResult result (IsNode problem.now (codes "form " ++ text.now)) (IsNoNode problem.now (codes "form " ++ text.now)) }
{
    let symbols = &problem.symbols;
    let forms = problem.forms.as_slice().len();
    let Some((number, list)) = parts_of(text) else {
        return Err(LineFault::Wrong(DocKind::Syntax));
    };
    let Some(terms) = read_list(alloc, list, symbols, buffers)? else {
        return Err(LineFault::Wrong(DocKind::Syntax));
    };
    line_of(forms, number, terms)
}

// The literal of the problem that the text is.
fn lit_of(
    alloc: Global,
    problem: &Problem,
    text: &[u8],
    buffers: &mut Buffers,
) -> Result<Lit, LineFault>
    ensures { MatchResult result (IsLitText problem.now.symbols text.now) (IsNoLitText problem.now.symbols text.now) }
{
    let symbols = &problem.symbols;
    match read_lit(alloc, text, symbols, buffers)? {
        None => Err(LineFault::Wrong(DocKind::Syntax)),
        Some(FoundLit::Unknown) => Err(LineFault::Wrong(DocKind::Unknown)),
        Some(FoundLit::Heavy) => Err(LineFault::Wrong(DocKind::Heavy)),
        Some(FoundLit::Lit(lit)) => Ok(lit),
    }
}

// The line of a clash, by what stands behind `clash`.
fn read_clash(
    alloc: Global,
    problem: &Problem,
    text: &[u8],
    buffers: &mut Buffers,
) -> Result<TreeLine, LineFault>
    ensures { MatchResult result (IsNode problem.now (codes "clash " ++ text.now)) (IsNoNode problem.now (codes "clash " ++ text.now)) }
{
    match lit_of(alloc, problem, text, buffers) {
        Ok(lit) => Ok(TreeLine::Clash(lit)),
        Err(fault) => Err(fault),
    }
}

// The line of a barred literal, by what stands behind `barred`.
fn read_barred(
    alloc: Global,
    problem: &Problem,
    text: &[u8],
    buffers: &mut Buffers,
) -> Result<TreeLine, LineFault>
    ensures { MatchResult result (IsNode problem.now (codes "barred " ++ text.now)) (IsNoNode problem.now (codes "barred " ++ text.now)) }
{
    match lit_of(alloc, problem, text, buffers) {
        Ok(lit) => Ok(TreeLine::Barred(lit)),
        Err(fault) => Err(fault),
    }
}

// The line that names a block, by what stands behind `by`.
fn read_by(problem: &Problem, text: &[u8]) -> Result<TreeLine, LineFault>
    ensures { MatchResult result (IsNode problem.now (codes "by " ++ text.now)) (IsNoNode problem.now (codes "by " ++ text.now)) }
{
    match plain_value(text) {
        Some(number) => Ok(TreeLine::By(number)),
        None => Err(LineFault::Wrong(DocKind::Syntax)),
    }
}

/// The line of a tree that the text is.
pub fn read_node(
    alloc: Global,
    problem: &Problem,
    text: &[u8],
    buffers: &mut Buffers,
) -> Result<TreeLine, LineFault>
    ensures { MatchResult result (IsNode problem.now text.now) (IsNoNode problem.now text.now) }
{
    if let Some(rest) = strip(text, b"form ") {
        return read_form(alloc, problem, rest, buffers);
    }
    if let Some(rest) = strip(text, b"by ") {
        return read_by(problem, rest);
    }
    if let Some(rest) = strip(text, b"clash ") {
        return read_clash(alloc, problem, rest, buffers);
    }
    if let Some(rest) = strip(text, b"barred ") {
        return read_barred(alloc, problem, rest, buffers);
    }
    Err(LineFault::Wrong(DocKind::Syntax))
}
