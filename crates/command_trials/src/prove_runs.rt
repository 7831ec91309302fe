//! Runs of `prove`, over files and sinks in memory. The expected lines are worked out by hand.

use crate::running::check;
use std::alloc::Global;
use std::process::Abort;
use std::test::Fail;

/// What the check of a proof prints.
const ACCEPTED: &str = "% SZS status Unsatisfiable for r\n% Tree accepted\n";

// What is printed of a proof with these lines, behind the header.
fn proof_text(alloc: Global, lines: &str) -> Result<String, Fail> {
    Ok(format!(in alloc;
        "% SZS status Unsatisfiable for r\n% SZS output start Proof for r\nmgtp tree 1\n{lines}% SZS output end Proof for r\n"
    )?)
}

// Proves the problem, of which this text is to be printed, and then checks the text.
fn proved_and_checked<'a>(
    rt: &impl Abort,
    alloc: Global,
    problem: &'a str,
    text: &'a str,
) -> Result<(), Fail> {
    let listed = [("r.p", problem), ("t", text)];
    check(rt, alloc, &["prove", "r.p"], &listed, (0, text, ""))?;
    check(
        rt,
        alloc,
        &["check", "r.p", "t"],
        &listed,
        (0, ACCEPTED, ""),
    )
}

// Proves the problem, whose proof has these lines behind the header, and then checks all that was printed.
fn proved(rt: &impl Abort, alloc: Global, problem: &str, lines: &str) -> Result<(), Fail> {
    let text = proof_text(alloc, lines)?;
    proved_and_checked(rt, alloc, problem, text.as_str())
}

#[test]
fn proofs_without_lemmas(rt: HostRuntime) -> Result<(), Fail> {
    let alloc = rt.alloc();
    proved(
        &rt,
        alloc,
        "cnf(c1,axiom,p(a)).\ncnf(c2,axiom,~p(X)|q(X)).\ncnf(c3,axiom,~q(a)).\n",
        "root\nform 1 []\nform 2 [a]\nform 3 []\n",
    )?;
    proved(
        &rt,
        alloc,
        "cnf(c1,axiom,a).\ncnf(c2,axiom,q).\ncnf(c3,axiom,~a|~q|~r,unknown,[conclude([2,3])]).\ncnf(c4,axiom,r).\n",
        "root\nform 1 []\nform 2 []\nform 4 []\nclash ~q\nform 5 []\nclash r\n",
    )
}

#[test]
fn proofs_with_lemmas(rt: HostRuntime) -> Result<(), Fail> {
    let alloc = rt.alloc();
    proved(
        &rt,
        alloc,
        "cnf(c1,axiom,a|b).\ncnf(c2,axiom,c|d).\ncnf(c3,axiom,~c).\ncnf(c4,axiom,~d).\n",
        "lemma 1\ninside []\noutside []\nform 2 []\nform 3 []\nform 4 []\nroot\nform 1 []\nby 1\nby 1\n",
    )?;
    proved(
        &rt,
        alloc,
        "cnf(c1,axiom,x|y).\ncnf(c2,axiom,~x|a|b).\ncnf(c3,axiom,~y|a|b).\ncnf(c4,axiom,~b|a).\ncnf(c5,axiom,~a).\n",
        "lemma 1\ninside [b]\noutside [a]\nform 4 []\nbarred a\nroot\nform 1 []\nform 2 []\nform 5 []\nby 1\nform 3 []\nform 5 []\nby 1\n",
    )
}

/// A puzzle of four persons in a house.
const MANSION: &str = "% A mansion puzzle.
cnf(agatha,hypothesis, ( lives(agatha) )).
cnf(butler,hypothesis, ( lives(butler) )).
cnf(charles,hypothesis, ( lives(charles) )).
cnf(poorer_killer,hypothesis, ( ~ killed(X,Y) | ~ richer(X,Y) )).
cnf(different_hates,hypothesis, ( ~ hates(agatha,X) | ~ hates(charles,X) )).
cnf(no_one_hates_everyone,hypothesis,
    ( ~ hates(X,agatha) | ~ hates(X,butler) | ~ hates(X,charles) )).
cnf(agatha_hates_agatha,hypothesis, ( hates(agatha,agatha) )).
cnf(agatha_hates_charles,hypothesis, ( hates(agatha,charles) )).
cnf(killer_hates_victim,hypothesis, ( ~ killed(X,Y) | hates(X,Y) )).
cnf(same_hates,hypothesis, ( ~ hates(agatha,X) | hates(butler,X) ),
    file('mansion.p',same_hates)).
/* The butler hates everyone who is not richer than Agatha. */
cnf(butler_hates_poor,hypothesis,
    ( ~ lives(X) | richer(X,agatha) | hates(butler,X) )).
cnf(one_of_them_did_it,negated_conjecture,
    ( killed(butler,agatha) | killed(charles,agatha) )).
";

#[test]
fn proof_of_a_puzzle(rt: HostRuntime) -> Result<(), Fail> {
    let alloc = rt.alloc();
    proved(
        &rt,
        alloc,
        MANSION,
        "root\nform 1 []\nform 2 []\nform 3 []\nform 7 []\nform 8 []\nform 10 [agatha]\nform 10 [charles]\nform 11 [butler]\nform 12 []\nform 4 [butler,agatha]\nform 9 [charles,agatha]\nform 5 [agatha]\nform 6 [butler]\n",
    )
}

#[test]
fn sets_that_satisfy(rt: HostRuntime) -> Result<(), Fail> {
    let alloc = rt.alloc();
    for (problem, set) in [
        ("", "model 1:\n"),
        ("cnf(c1,axiom,p|p).\n", "model 1: p\n"),
        (
            "cnf(c1,axiom,p(a)).\ncnf(c2,axiom,q(a)|r(a)).\ncnf(c3,axiom,~p(a)|~q(a),unknown,[conclude([2])]).\n",
            "model 1: p(a), ~q(a), r(a)\n",
        ),
    ] {
        let text = format!(in alloc;
            "% SZS status Satisfiable for r\n% SZS output start Model for r\n{set}% SZS output end Model for r\n"
        )?;
        check(
            &rt,
            alloc,
            &["prove", "r.p"],
            &[("r.p", problem)],
            (0, text.as_str(), ""),
        )?;
    }
    Ok(())
}

#[test]
fn a_term_that_doubles_gives_up(rt: HostRuntime) -> Result<(), Fail> {
    let alloc = rt.alloc();
    check(
        &rt,
        alloc,
        &["prove", "g.p"],
        &[(
            "g.p",
            "cnf(c1,axiom,p(a)).\ncnf(c2,axiom,~p(X)|p(g(X,X))).\n",
        )],
        (1, "% SZS status GaveUp for g\n% Reason: weight 256\n", ""),
    )
}

/// A problem whose search never ends.
const ENDLESS: &str = "cnf(c1,axiom,p(a)).\ncnf(c2,axiom,~p(X)|p(f(X))).\n";

#[test]
fn limits_of_prove(rt: HostRuntime) -> Result<(), Fail> {
    let alloc = rt.alloc();
    for (option, reason) in [
        ("--budget=3", "budget 3"),
        ("--weight=3", "weight 3"),
        ("--budget=0", "budget 0"),
    ] {
        let text = format!(in alloc; "% SZS status GaveUp for r8\n% Reason: {reason}\n")?;
        check(
            &rt,
            alloc,
            &["prove", "r8.p", option],
            &[("r8.p", ENDLESS)],
            (1, text.as_str(), ""),
        )?;
    }
    let text = proof_text(alloc, "root\nform 1 []\n")?;
    check(
        &rt,
        alloc,
        &["prove", "--budget", "0", "r.p"],
        &[("r.p", "cnf(c1,axiom,$false).\n")],
        (0, text.as_str(), ""),
    )
}

#[test]
fn includes_under_a_root(rt: HostRuntime) -> Result<(), Fail> {
    let alloc = rt.alloc();
    let listed = [
        ("dir/m.p", "include('Axioms/X.ax',[one]).\n"),
        ("lib/Axioms/X.ax", "cnf(one,axiom,p).\ncnf(two,axiom,~p).\n"),
        ("t", "mgtp tree 1\nroot\nform 1 []\n"),
    ];
    let set =
        "% SZS status Satisfiable for m\n% SZS output start Model for m\nmodel 1: p\n% SZS output end Model for m\n";
    for (words, status, out) in [
        (&["prove", "dir/m.p", "--root", "lib"][..], 0, set),
        (
            &["forms", "--root=lib", "dir/m.p"][..],
            0,
            "form 1 one: -> p\n% Forms: 1\n",
        ),
        (
            &["check", "dir/m.p", "--root", "lib/", "t"][..],
            1,
            "% Tree rejected at line 4: early end\n",
        ),
    ] {
        check(&rt, alloc, words, &listed, (status, out, ""))?;
    }
    check(
        &rt,
        alloc,
        &["prove", "dir/m.p", "--root", "other"],
        &listed,
        (
            2,
            "% SZS status InputError for m\n",
            "mgtp: dir/m.p:1:9: include file not found: Axioms/X.ax\n",
        ),
    )
}

#[test]
fn words_of_prove(rt: HostRuntime) -> Result<(), Fail> {
    let alloc = rt.alloc();
    check(
        &rt,
        alloc,
        &["prove", "none.p"],
        &[],
        (
            2,
            "% SZS status InputError for none\n",
            "mgtp: none.p:1:1: file not found\n",
        ),
    )?;
    let unrestricted =
        "mgtp: r14.p:1:1: clause a, form 1: variable X of a conclusion is in no premise\n";
    check(
        &rt,
        alloc,
        &["prove", "r14.p"],
        &[("r14.p", "cnf(a,axiom,p(X)).")],
        (2, "% SZS status Inappropriate for r14\n", unrestricted),
    )
}
