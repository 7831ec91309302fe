//! Small documents by hand, one for each rule, and a deep one, over the clauses `p` and `~p`: form 1 is `-> p`, and form 2 is `p ->`.

use crate::outcome::{Outcome, judged};
use small_problems::problem_of;
use std::alloc::Global;
use std::test::Fail;
use tree_checker::Why;

const PROBLEM: &str = "cnf(c1,axiom,p). cnf(c2,axiom,~p).";

// What comes of the text behind the header.
fn outcome(alloc: Global, text: &str) -> Result<Outcome, Fail> {
    let problem = problem_of(alloc, PROBLEM)?;
    let whole = format!(in alloc; "mgtp tree 1\n{text}")?;
    Ok(judged(alloc, whole.as_bytes(), &problem))
}

static ROOTS: [(&str, Outcome); 6] = [
    ("root\nform 1 []\nform 2 []\n", Outcome::Accepted),
    ("root\nform 2 []\n", Outcome::Rejected(3, Why::Premise)),
    (
        "root\nform 2 [p]\n",
        Outcome::Rejected(3, Why::Substitution),
    ),
    ("root\nclash p\n", Outcome::Rejected(3, Why::NoClash)),
    ("root\nbarred p\n", Outcome::Rejected(3, Why::NotBarred)),
    ("root\nby 1\n", Outcome::Rejected(3, Why::LemmaNumber)),
];

#[test]
fn names_the_first_broken_rule(rt: HostRuntime) -> Result<(), Fail> {
    let alloc = rt.alloc();
    for (text, want) in ROOTS.as_slice() {
        assert_eq!(rt; outcome(alloc, text)?, *want, "{text}");
    }
    Ok(())
}

// A lemma of two lines, one that is closed by a lemma, and a root.
static LINES: [(&str, Outcome); 3] = [
    (
        "lemma 1\ninside []\noutside []\nform 1 []\nform 2 []\nlemma 2\ninside []\noutside []\nby 1\nroot\nby 2\n",
        Outcome::Accepted,
    ),
    (
        "lemma 1\ninside []\noutside []\nform 1 []\nform 2 []\nlemma 2\ninside []\noutside []\nby 2\nroot\nby 2\n",
        Outcome::Rejected(10, Why::LemmaNumber),
    ),
    (
        "lemma 1\ninside []\noutside []\nform 1 []\nform 2 []\nlemma 2\ninside []\noutside []\nby 1\nroot\nform 2 []\n",
        Outcome::Rejected(12, Why::Premise),
    ),
];

// The header is line 1; a lemma's tree begins at its fourth line, and the root's one line after the root's own.
#[test]
fn counts_the_lines_of_lemmas(rt: HostRuntime) -> Result<(), Fail> {
    let alloc = rt.alloc();
    for (text, want) in LINES.as_slice() {
        assert_eq!(rt; outcome(alloc, text)?, *want, "{text}");
    }
    Ok(())
}

// With `p` inside, which form 2 rejects; or with `p` outside: form 1 makes it, and it is barred. Then a lemma that is closed
// by the first.
static SETS: [(&str, Outcome); 5] = [
    (
        "lemma 1\ninside [p]\noutside []\nform 2 []\nlemma 2\ninside [p]\noutside []\nby 1\nroot\nform 1 []\nform 2 []\n",
        Outcome::Accepted,
    ),
    (
        "lemma 1\ninside [p]\noutside []\nform 2 []\nlemma 2\ninside [~p]\noutside []\nby 1\nroot\nform 1 []\nform 2 []\n",
        Outcome::Rejected(9, Why::LemmaInside),
    ),
    (
        "lemma 1\ninside [p]\noutside []\nform 2 []\nlemma 2\ninside []\noutside [p]\nby 1\nroot\nform 1 []\nform 2 []\n",
        Outcome::Rejected(9, Why::LemmaInside),
    ),
    (
        "lemma 1\ninside []\noutside [p]\nform 1 []\nbarred p\nlemma 2\ninside []\noutside [p]\nby 1\nroot\nform 1 []\nform 2 []\n",
        Outcome::Accepted,
    ),
    (
        "lemma 1\ninside []\noutside [p]\nform 1 []\nbarred p\nlemma 2\ninside [p]\noutside []\nby 1\nroot\nform 1 []\nform 2 []\n",
        Outcome::Rejected(10, Why::LemmaOutside),
    ),
];

// A lemma applies where its inside is held and its outside is barred.
#[test]
fn looks_at_the_sets_of_lemmas(rt: HostRuntime) -> Result<(), Fail> {
    let alloc = rt.alloc();
    for (text, want) in SETS.as_slice() {
        assert_eq!(rt; outcome(alloc, text)?, *want, "{text}");
    }
    Ok(())
}

#[test]
fn goes_deep(rt: HostRuntime) -> Result<(), Fail> {
    let alloc = rt.alloc();
    let mut text = String::from_str(alloc, "root\n")?;
    for _ in 0..100_000 {
        text.push_str("form 1 []\n")?;
    }
    text.push_str("form 2 []\n")?;
    assert_eq!(rt; outcome(alloc, &text)?, Outcome::Accepted);
    Ok(())
}
