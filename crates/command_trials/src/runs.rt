//! Runs of `check` and `forms`, and of words that ask for nothing. The expected lines are worked out by hand.

use crate::running::{check, compare, memory};
use std::test::Fail;

/// A problem without variables, and a tree of it.
const GROUND: &str = "cnf(c1,axiom,p|q).\ncnf(c2,axiom,~p).\ncnf(c3,axiom,~q).\n";

const GROUND_TREE: &str = "mgtp tree 1\nroot\nform 1 []\nform 2 []\nform 3 []\n";

/// A problem with terms, and a tree of it.
const TERMS: &str = "cnf(c1,axiom,p(a)).\ncnf(c2,axiom,~p(X)|q(X)).\ncnf(c3,axiom,~q(a)).\n";

const TERMS_TREE: &str = "mgtp tree 1\nroot\nform 1 []\nform 2 [a]\nform 3 []\n";

/// The usage.
const USAGE: &str =
    "usage: mgtp prove FILE [--workers N] [--budget N] [--weight N] [--root DIR]\n       mgtp models FILE [--workers N] [--budget N] [--weight N] [--root DIR]\n       mgtp check FILE TREE [--root DIR]\n       mgtp forms FILE [--root DIR]\n       mgtp sample K [--workers N] [--budget N]\n";

#[test]
fn trees_of_a_ground_problem(rt: HostRuntime) -> Result<(), Fail> {
    let alloc = rt.alloc();
    let accepted = "% SZS status Unsatisfiable for r\n% Tree accepted\n";
    for (tree, status, out) in [
        (GROUND_TREE, 0, accepted),
        (
            "% a remark\nmgtp tree 1\nroot\nform 1 []\n% another\nform 2 []\nform 3 []\n",
            0,
            accepted,
        ),
        (
            "mgtp tree 1\nroot\nform 1 []\nform 3 []\nform 3 []\n",
            1,
            "% Tree rejected at line 4: premise\n",
        ),
        (
            "mgtp tree 1\nroot\nform 1 []\nform 4 []\nform 3 []\n",
            1,
            "% Tree rejected at line 4: no such form\n",
        ),
        (
            "mgtp tree 1\nroot\nform 1 []\nform 2 []\n",
            1,
            "% Tree rejected at line 5: early end\n",
        ),
        (
            "mgtp tree 1\nroot\nform 1 []\nby 1\nform 3 []\n",
            1,
            "% Tree rejected at line 4: lemma number\n",
        ),
        (
            "mgtp tree 1\nroot\nform 1 []\nform 2 []\nform 3 []\nroot\n",
            1,
            "% Tree rejected at line 6: line after the end\n",
        ),
        (
            "mgtp tree 3\nroot\nform 1 []\nform 2 []\nform 3 []\n",
            1,
            "% Tree rejected at line 1: no tree header\n",
        ),
        (
            "mgtp tree 1\nroot\nform 01 []\nform 2 []\nform 3 []\n",
            1,
            "% Tree rejected at line 3: line not understood\n",
        ),
    ] {
        let listed = [("r.p", GROUND), ("t", tree)];
        check(
            &rt,
            alloc,
            &["check", "r.p", "t"],
            &listed,
            (status, out, ""),
        )?;
    }
    Ok(())
}

#[test]
fn trees_with_terms(rt: HostRuntime) -> Result<(), Fail> {
    let alloc = rt.alloc();
    for (tree, status, out) in [
        (
            TERMS_TREE,
            0,
            "% SZS status Unsatisfiable for m\n% Tree accepted\n",
        ),
        (
            "mgtp tree 1\nroot\nform 1 []\nform 2 [q(a)]\nform 3 []\n",
            1,
            "% Tree rejected at line 4: premise\n",
        ),
        (
            "mgtp tree 1\nroot\nform 1 []\nform 2 [b]\nform 3 []\n",
            1,
            "% Tree rejected at line 4: unknown symbol\n",
        ),
        (
            "mgtp tree 1\nroot\nform 1 []\nform 2 []\nform 3 []\n",
            1,
            "% Tree rejected at line 4: substitution\n",
        ),
    ] {
        let listed = [("dir/m.p", TERMS), ("dir/t", tree)];
        check(
            &rt,
            alloc,
            &["check", "dir/m.p", "dir/t"],
            &listed,
            (status, out, ""),
        )?;
    }
    Ok(())
}

#[test]
fn forms_of_problems(rt: HostRuntime) -> Result<(), Fail> {
    let alloc = rt.alloc();
    for (text, out) in [
        ("", "% Forms: 0\n"),
        ("cnf(c,axiom,$true).", "% Forms: 0\n"),
        (
            TERMS,
            "form 1 c1: -> p(a)\nform 2 c2: p(X1) -> q(X1)\nform 3 c3: q(a) ->\n% Forms: 3\n",
        ),
        (
            "cnf(c1,axiom,q(a)|r(a)).\ncnf(c2,axiom,~p(a)|~q(a),unknown,[conclude([2])]).\n",
            "form 1 c1: -> q(a); r(a)\nform 2 c2: p(a), q(a) ->\nform 3 c2: p(a) -> ~q(a)\n% Forms: 3\n",
        ),
    ] {
        check(
            &rt,
            alloc,
            &["forms", "r.p"],
            &[("r.p", text)],
            (0, out, ""),
        )?;
    }
    Ok(())
}

#[test]
fn problems_that_are_refused(rt: HostRuntime) -> Result<(), Fail> {
    let alloc = rt.alloc();
    for (text, out, err) in [
        (
            "cnf(x,axiom,p('a",
            "% SZS status SyntaxError for r\n",
            "mgtp: r.p:1:15: quote not closed\n",
        ),
        (
            "cnf(a,axiom,p(a)",
            "% SZS status SyntaxError for r\n",
            "mgtp: r.p:1:17: syntax error\n",
        ),
        (
            "\ncnf(c,question,p).",
            "% SZS status Inappropriate for r\n",
            "mgtp: r.p:2:7: role not accepted\n",
        ),
        (
            "cnf(a,axiom,a=b).",
            "% SZS status Inappropriate for r\n",
            "mgtp: r.p:1:14: equality not accepted\n",
        ),
        (
            "include('Axioms/X.ax',[one]).",
            "% SZS status InputError for r\n",
            "mgtp: r.p:1:9: include file not found: Axioms/X.ax\n",
        ),
        (
            "cnf(a,axiom,p(X)).",
            "% SZS status Inappropriate for r\n",
            "mgtp: r.p:1:1: clause a, form 1: variable X of a conclusion is in no premise\n",
        ),
    ] {
        let listed = [("r.p", text), ("t", GROUND_TREE)];
        check(&rt, alloc, &["forms", "r.p"], &listed, (2, out, err))?;
        check(&rt, alloc, &["check", "r.p", "t"], &listed, (2, out, err))?;
    }
    Ok(())
}

#[test]
fn files_that_are_absent(rt: HostRuntime) -> Result<(), Fail> {
    let alloc = rt.alloc();
    let absent = (
        2,
        "% SZS status InputError for none\n",
        "mgtp: none.p:1:1: file not found\n",
    );
    check(&rt, alloc, &["check", "none.p", "t"], &[], absent)?;
    check(&rt, alloc, &["forms", "none.p"], &[], absent)?;
    check(
        &rt,
        alloc,
        &["check", "r.p", "t"],
        &[("r.p", GROUND)],
        (
            2,
            "% SZS status InputError for r\n",
            "mgtp: t: file not found\n",
        ),
    )
}

#[test]
fn words_that_ask_for_no_command(rt: HostRuntime) -> Result<(), Fail> {
    let alloc = rt.alloc();
    let listed = [("r.p", GROUND), ("t", GROUND_TREE)];
    for words in [
        &[][..],
        &["prove"][..],
        &["check", "r.p"][..],
        &["check", "r.p", "t", "t"][..],
        &["check", "-x", "t"][..],
        &["check", "r.p", "t", "--budget", "3"][..],
        &["forms", ""][..],
        &["Forms", "r.p"][..],
        &["show", "r.p"][..],
        &["prove", "r.p", "--budget", "01"][..],
        &["prove", "r.p", "--workers", "0"][..],
        &["prove", "r.p", "--workers", "2"][..],
        &["models", "r.p", "--workers=4"][..],
        &["sample", "21"][..],
        &["sample", "3", "--workers", "64"][..],
    ] {
        check(&rt, alloc, words, &listed, (2, "", USAGE))?;
    }
    Ok(())
}

#[test]
fn reads_that_fail(rt: HostRuntime) -> Result<(), Fail> {
    let alloc = rt.alloc();
    let listed = [
        ("r.p", "include('a.p').\n"),
        ("a.p", GROUND),
        ("t", GROUND_TREE),
    ];
    for (failing, err) in [
        (1, "mgtp: r.p:1:1: read failed\n"),
        (2, "mgtp: r.p:1:9: read failed\n"),
        (3, "mgtp: t: read failed\n"),
    ] {
        let mut files = memory(alloc, &listed, &[failing])?;
        compare(
            &rt,
            alloc,
            &["check", "r.p", "t"],
            &mut files,
            (None, None),
            (3, "% SZS status OSError for r\n", err),
        )?;
    }
    Ok(())
}

#[test]
fn names_in_status_lines(rt: HostRuntime) -> Result<(), Fail> {
    let alloc = rt.alloc();
    for (file, out, err) in [
        (
            ".p",
            "% SZS status InputError for .p\n",
            "mgtp: .p:1:1: file not found\n",
        ),
        (
            "a/.p",
            "% SZS status InputError for .p\n",
            "mgtp: a/.p:1:1: file not found\n",
        ),
        (
            "a.p/b",
            "% SZS status InputError for b\n",
            "mgtp: a.p/b:1:1: file not found\n",
        ),
        (
            "/a/x.p.p",
            "% SZS status InputError for x.p\n",
            "mgtp: /a/x.p.p:1:1: file not found\n",
        ),
        (
            "a/",
            "% SZS status InputError for \n",
            "mgtp: a/:1:1: file not found\n",
        ),
    ] {
        check(&rt, alloc, &["forms", file], &[], (2, out, err))?;
    }
    Ok(())
}

// Each line is one put, so a put that fails leaves the lines before it whole.
#[test]
fn puts_that_fail(rt: HostRuntime) -> Result<(), Fail> {
    let alloc = rt.alloc();
    let refused = [("r.p", "cnf(a,axiom,p(X)).\n")];
    let accepted = [("r.p", GROUND), ("t", GROUND_TREE)];
    let status = "% SZS status Inappropriate for r\n";
    for (words, listed, fails, out, err) in [
        (
            &["forms", "r.p"][..],
            &refused[..],
            (Some((1, 5)), None),
            "% SZS",
            "",
        ),
        (
            &["forms", "r.p"][..],
            &refused[..],
            (None, Some((1, 6))),
            status,
            "mgtp: ",
        ),
        (
            &["check", "r.p", "t"][..],
            &accepted[..],
            (Some((2, 7)), None),
            "% SZS status Unsatisfiable for r\n% Tree ",
            "",
        ),
        (
            &["forms", "r.p"][..],
            &accepted[..],
            (Some((3, 6)), None),
            "form 1 c1: -> p; q\nform 2 c2: p ->\nform 3",
            "",
        ),
        (&[][..], &accepted[..], (None, Some((1, 5))), "", "usage"),
    ] {
        let mut files = memory(alloc, listed, &[])?;
        compare(&rt, alloc, words, &mut files, fails, (3, out, err))?;
    }
    Ok(())
}
