//! Runs of `models` and `sample`, over files and sinks in memory. The expected lines are worked out by hand.

use crate::running::{check, compare, memory};
use std::test::Fail;

/// A problem with two minimal sets.
const TWO_SETS: &str = "cnf(c1,axiom,p|q).\ncnf(c2,axiom,~p|r).\ncnf(c3,axiom,~q|r).\n";

#[test]
fn complete_lists(rt: HostRuntime) -> Result<(), Fail> {
    let alloc = rt.alloc();
    for (problem, sets, count) in [
        ("", "model 1:\n", 1),
        (
            "cnf(c1,axiom,p|q).\ncnf(c2,axiom,~p|q).\n",
            "model 1: q\n",
            1,
        ),
        (TWO_SETS, "model 1: p, r\nmodel 2: q, r\n", 2),
        ("cnf(c1,axiom,p|p).\n", "model 1: p\n", 1),
        (
            "cnf(c1,axiom,p(a)).\ncnf(c2,axiom,q(a)|r(a)).\ncnf(c3,axiom,~p(a)|~q(a),unknown,[conclude([2])]).\n",
            "model 1: p(a), ~q(a), r(a)\n",
            1,
        ),
        (
            "cnf(c1,axiom,a).\ncnf(c2,axiom,q).\ncnf(c3,axiom,~a|~q|~r,unknown,[conclude([2,3])]).\n",
            "model 1: a, q, ~r\n",
            1,
        ),
        (
            "cnf(c,axiom,'P q'(\"x\",12)).\n",
            "model 1: 'P q'(\"x\",12)\n",
            1,
        ),
        (
            "cnf(c1,axiom,p(a)).\ncnf(c2,axiom,q).\n",
            "model 1: q, p(a)\n",
            1,
        ),
    ] {
        let text = format!(in alloc;
            "% SZS status Satisfiable for r\n% SZS output start Model for r\n{sets}% SZS output end Model for r\n% Models complete: {count}\n"
        )?;
        check(
            &rt,
            alloc,
            &["models", "r.p"],
            &[("r.p", problem)],
            (0, text.as_str(), ""),
        )?;
    }
    Ok(())
}

#[test]
fn no_set_at_all(rt: HostRuntime) -> Result<(), Fail> {
    let alloc = rt.alloc();
    check(
        &rt,
        alloc,
        &["models", "r3.p"],
        &[("r3.p", "cnf(c1,axiom,$false).\n")],
        (
            0,
            "% SZS status Unsatisfiable for r3\n% Models complete: 0\n",
            "",
        ),
    )
}

/// With p the search never ends.
const ENDLESS: &str = "cnf(c1,axiom,p|q).\ncnf(c2,axiom,~p|s(a)).\ncnf(c3,axiom,~s(X)|s(f(X))).\n";

#[test]
fn lists_that_are_cut_off(rt: HostRuntime) -> Result<(), Fail> {
    let alloc = rt.alloc();
    check(
        &rt,
        alloc,
        &["models", "r8.p", "--weight", "3"],
        &[(
            "r8.p",
            "cnf(c1,axiom,p(a)).\ncnf(c2,axiom,~p(X)|p(f(X))).\n",
        )],
        (
            1,
            "% SZS status GaveUp for r8\n% Models incomplete: 0\n% Reason: weight 3\n",
            "",
        ),
    )?;
    check(
        &rt,
        alloc,
        &["models", "r10.p", "--budget", "50"],
        &[("r10.p", ENDLESS)],
        (
            1,
            "% SZS status GaveUp for r10\n% SZS output start Model for r10\nmodel 1: q\n% SZS output end Model for r10\n% Models incomplete: 1\n% Reason: budget 50\n",
            "",
        ),
    )
}

#[test]
fn lists_with_includes(rt: HostRuntime) -> Result<(), Fail> {
    let alloc = rt.alloc();
    check(
        &rt,
        alloc,
        &["models", "dir/m.p", "--root", "lib"],
        &[
            ("dir/m.p", "include('Axioms/X.ax',[one]).\n"),
            ("lib/Axioms/X.ax", "cnf(one,axiom,p).\ncnf(two,axiom,~p).\n"),
        ],
        (
            0,
            "% SZS status Satisfiable for m\n% SZS output start Model for m\nmodel 1: p\n% SZS output end Model for m\n% Models complete: 1\n",
            "",
        ),
    )?;
    check(
        &rt,
        alloc,
        &["models", "dir/m.p", "--root", "lib"],
        &[("dir/m.p", "include('Axioms/X.ax',[one]).\n")],
        (
            2,
            "% SZS status InputError for m\n",
            "mgtp: dir/m.p:1:9: include file not found: Axioms/X.ax\n",
        ),
    )
}

#[test]
fn lists_while_the_outside_fails(rt: HostRuntime) -> Result<(), Fail> {
    let alloc = rt.alloc();
    let mut files = memory(alloc, &[("r5.p", TWO_SETS)], &[])?;
    compare(
        &rt,
        alloc,
        &["models", "r5.p"],
        &mut files,
        (Some((2, 10)), None),
        (3, "% SZS status Satisfiable for r5\n% SZS outp", ""),
    )?;
    let mut files = memory(alloc, &[("r5.p", TWO_SETS)], &[1])?;
    compare(
        &rt,
        alloc,
        &["models", "r5.p"],
        &mut files,
        (None, None),
        (
            3,
            "% SZS status OSError for r5\n",
            "mgtp: r5.p:1:1: read failed\n",
        ),
    )
}

#[test]
fn samples_in_short(rt: HostRuntime) -> Result<(), Fail> {
    let alloc = rt.alloc();
    for (budget, status, out) in [
        (
            "11",
            0,
            "% SZS status Satisfiable for sample-4\n% Models complete: 8\nfirst: a01, a03, b02, b04\nlast: b01, b02, b03, b04\n",
        ),
        (
            "10",
            1,
            "% SZS status GaveUp for sample-4\n% Models incomplete: 6\n% Reason: budget 10\nfirst: a01, a03, b02, b04\nlast: a03, b01, b02, b04\n",
        ),
    ] {
        check(
            &rt,
            alloc,
            &["sample", "4", "--budget", budget],
            &[],
            (status, out, ""),
        )?;
    }
    Ok(())
}
