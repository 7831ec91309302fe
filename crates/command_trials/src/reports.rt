//! The words of each fault, of reading and of trees, as docs/FORMATS.md has them, and lists of sets.

use cnf_reader::{ReadFault, ReadKind};
use mg_outside::{MemorySink, PutAnswer};
use mg_word::{LitSet, Text};
use small_problems::problem_of;
use std::alloc::Global;
use std::process::Abort;
use std::test::Fail;
use szs_report::{
    CheckAnswer, FaultReport, ModelsAnswer, Report, Trouble, put_report, report_check,
    report_fault, report_models, report_sample,
};
use tptp_lexer::LexKind;
use tree_board::{Limit, Limits};
use tree_checker::{DocKind, Why};

// Compares the lines of a report with those that are wanted.
fn compare(rt: &impl Abort, alloc: Global, report: &Report, wanted: &[&str]) -> Result<(), Fail> {
    let mut text: Vec<u8> = Vec::new(alloc);
    for part in wanted {
        text.extend_from_slice(part.as_bytes())?;
    }
    let mut sink = MemorySink::new(alloc, 4096, Vec::new(alloc))?;
    let put = put_report(report, &mut sink);
    assert!(rt; matches!(put, PutAnswer::Done), "a put failed");
    assert!(rt;
        sink.held() == text.as_slice(),
        "other lines than are wanted"
    );
    Ok(())
}

// Compares the report of a fault at 3:14 of `a.ax`, with `b.ax` for its subject.
fn compare_read(
    rt: &impl Abort,
    alloc: Global,
    kind: ReadKind,
    value: &str,
    words: &str,
) -> Result<(), Fail> {
    let fault = ReadFault::At {
        kind,
        file: Text::new(Vec::from_slice(alloc, b"a.ax")?),
        line: 3,
        column: 14,
        subject: Text::new(Vec::from_slice(alloc, b"b.ax")?),
    };
    let FaultReport { out, err } = report_fault(alloc, "n", Trouble::Read(&fault))?;
    compare(rt, alloc, &out, &["% SZS status ", value, " for n\n"])?;
    compare(rt, alloc, &err, &["mgtp: a.ax:3:14: ", words, "\n"])
}

#[test]
fn faults_of_the_text(rt: HostRuntime) -> Result<(), Fail> {
    for (kind, words) in [
        (ReadKind::Lex(LexKind::BadByte), "byte not allowed"),
        (ReadKind::Lex(LexKind::OpenQuote), "quote not closed"),
        (ReadKind::Lex(LexKind::BadEscape), "bad escape"),
        (ReadKind::Lex(LexKind::OpenComment), "comment not closed"),
        (ReadKind::Expected, "syntax error"),
        (ReadKind::BadConclude, "bad conclude list"),
    ] {
        compare_read(&rt, rt.alloc(), kind, "SyntaxError", words)?;
    }
    Ok(())
}

#[test]
fn faults_of_the_profile(rt: HostRuntime) -> Result<(), Fail> {
    for (kind, words) in [
        (ReadKind::Role, "role not accepted"),
        (ReadKind::NotCnf, "not a cnf formula"),
        (ReadKind::Equality, "equality not accepted"),
        (ReadKind::Number, "number not accepted"),
        (ReadKind::Defined, "defined word not accepted"),
        (ReadKind::TooManyLiterals, "too many literals"),
        (ReadKind::TooManyVariables, "too many variables"),
        (ReadKind::TooDeep, "brackets nested too deep"),
        (ReadKind::TooManyClauses, "too many clauses"),
        (ReadKind::TooManyIncludes, "too many includes"),
        (ReadKind::IncludeDepth, "includes nested too deep"),
        (ReadKind::TooLong, "input too long"),
    ] {
        compare_read(&rt, rt.alloc(), kind, "Inappropriate", words)?;
    }
    Ok(())
}

#[test]
fn faults_of_files(rt: HostRuntime) -> Result<(), Fail> {
    for (kind, value, words) in [
        (
            ReadKind::IncludeAbsent,
            "InputError",
            "include file not found: b.ax",
        ),
        (ReadKind::ProblemAbsent, "InputError", "file not found"),
        (ReadKind::Files, "OSError", "read failed"),
    ] {
        compare_read(&rt, rt.alloc(), kind, value, words)?;
    }
    Ok(())
}

#[test]
fn wrong_lines_of_trees(rt: HostRuntime) -> Result<(), Fail> {
    let alloc = rt.alloc();
    for (kind, words) in [
        (DocKind::Early, "early end"),
        (DocKind::Rest, "line after the end"),
        (DocKind::Header, "no tree header"),
        (DocKind::Syntax, "line not understood"),
        (DocKind::Block, "lemma number not in order"),
        (DocKind::FormNumber, "no such form"),
        (DocKind::Unknown, "unknown symbol"),
        (DocKind::Heavy, "term too heavy"),
        (DocKind::Order, "literals not in order"),
    ] {
        let report = report_check(alloc, "n", CheckAnswer::Unread { line: 120, kind })?;
        let wanted = ["% Tree rejected at line 120: ", words, "\n"];
        compare(&rt, alloc, &report, &wanted)?;
    }
    Ok(())
}

#[test]
fn broken_rules_of_trees(rt: HostRuntime) -> Result<(), Fail> {
    let alloc = rt.alloc();
    for (why, words) in [
        (Why::Substitution, "substitution"),
        (Why::Premise, "premise"),
        (Why::NoClash, "no clash"),
        (Why::NotBarred, "not barred"),
        (Why::LemmaNumber, "lemma number"),
        (Why::LemmaInside, "lemma inside"),
        (Why::LemmaOutside, "lemma outside"),
    ] {
        let report = report_check(alloc, "n", CheckAnswer::Rejected { line: 9, why })?;
        let wanted = ["% Tree rejected at line 9: ", words, "\n"];
        compare(&rt, alloc, &report, &wanted)?;
    }
    Ok(())
}

#[test]
fn lists_of_sets(rt: HostRuntime) -> Result<(), Fail> {
    let alloc = rt.alloc();
    let problem = problem_of(alloc, "")?;
    let limits = Limits {
        budget: 50,
        weight: 3,
    };
    let mut one = Vec::new(alloc);
    one.push(LitSet::empty(alloc))?;
    let answer = ModelsAnswer {
        sets: one.as_slice(),
        gave_up: Some(Limit::Budget),
    };
    let report = report_models(alloc, &problem, "e", answer, limits)?;
    compare(
        &rt,
        alloc,
        &report,
        &[
            "% SZS status GaveUp for e\n",
            "% SZS output start Model for e\nmodel 1:\n% SZS output end Model for e\n",
            "% Models incomplete: 1\n% Reason: budget 50\n",
        ],
    )?;
    let answer = ModelsAnswer {
        sets: one.as_slice(),
        gave_up: None,
    };
    let report = report_sample(alloc, &problem, "e", answer, limits)?;
    compare(
        &rt,
        alloc,
        &report,
        &["% SZS status Satisfiable for e\n% Models complete: 1\nfirst: \nlast: \n"],
    )
}

#[test]
fn list_without_sets(rt: HostRuntime) -> Result<(), Fail> {
    let alloc = rt.alloc();
    let problem = problem_of(alloc, "")?;
    let limits = Limits {
        budget: 50,
        weight: 3,
    };
    for (gave_up, text) in [
        (
            None,
            "% SZS status Unsatisfiable for e\n% Models complete: 0\n",
        ),
        (
            Some(Limit::Weight),
            "% SZS status GaveUp for e\n% Models incomplete: 0\n% Reason: weight 3\n",
        ),
    ] {
        let sets: &[LitSet] = &[];
        let report = report_models(alloc, &problem, "e", ModelsAnswer { sets, gave_up }, limits)?;
        compare(&rt, alloc, &report, &[text])?;
        let report = report_sample(alloc, &problem, "e", ModelsAnswer { sets, gave_up }, limits)?;
        compare(&rt, alloc, &report, &[text])?;
    }
    Ok(())
}
