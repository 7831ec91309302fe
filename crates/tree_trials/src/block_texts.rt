//! Texts by hand of documents with blocks, each with the answer that the format and the checker's rules give it.

use crate::outcome::{Outcome, judged};
use proof_tree::{read_doc, write_doc};
use small_problems::problem_of;
use std::test::Fail;
use tree_checker::{DocKind, Why};

// `a` or `b`, and in both cases the same contradiction: its tree is written once.
const TWICE: &str = "cnf(c1,axiom,a|b). cnf(c2,axiom,c|d). cnf(c3,axiom,~c). cnf(c4,axiom,~d).";

const TWICE_TREE: &str =
    "mgtp tree 1\nlemma 1\ninside []\noutside []\nform 2 []\nform 3 []\nform 4 []\nroot\nform 1 []\nby 1\nby 1\n";

// The lemma has `b` inside and `a` outside.
const BARRED: &str =
    "cnf(c1,axiom,x|y). cnf(c2,axiom,~x|a|b). cnf(c3,axiom,~y|a|b). cnf(c4,axiom,~b|a). cnf(c5,axiom,~a).";

const BARRED_TREE: &str =
    "mgtp tree 1\nlemma 1\ninside [b]\noutside [a]\nform 4 []\nbarred a\nroot\nform 1 []\nform 2 []\nform 5 []\nby 1\nform 3 []\nform 5 []\nby 1\n";

#[test]
fn documents_with_blocks_are_accepted(rt: HostRuntime) -> Result<(), Fail> {
    let alloc = rt.alloc();
    for (clauses, tree) in [(TWICE, TWICE_TREE), (BARRED, BARRED_TREE)] {
        let problem = problem_of(alloc, clauses)?;
        assert_eq!(rt;
            judged(alloc, tree.as_bytes(), &problem),
            Outcome::Accepted,
            "{tree}"
        );
        let doc = read_doc(alloc, tree.as_bytes(), &problem)?;
        let written = write_doc(alloc, &doc, &problem)?;
        assert!(rt; written.as_slice() == tree.as_bytes(), "at {tree}");
    }
    Ok(())
}

// What follows the header of a text over the second problem, with its answer.
static BLOCKS: [(&str, Outcome); 30] = [
    ("lemma 2\n", Outcome::Unread(2, DocKind::Block)),
    ("lemma 0\n", Outcome::Unread(2, DocKind::Block)),
    ("lemma 01\n", Outcome::Unread(2, DocKind::Syntax)),
    ("lemma 4294967296\n", Outcome::Unread(2, DocKind::Syntax)),
    ("lemma 1\n", Outcome::Unread(3, DocKind::Early)),
    ("lemma 1\nroot\n", Outcome::Unread(3, DocKind::Syntax)),
    ("lemma 1\noutside []\n", Outcome::Unread(3, DocKind::Syntax)),
    (
        "lemma 1\ninside [a, b]\n",
        Outcome::Unread(3, DocKind::Syntax),
    ),
    (
        "lemma 1\ninside [a,]\n",
        Outcome::Unread(3, DocKind::Syntax),
    ),
    (
        "lemma 1\ninside [~~a]\n",
        Outcome::Unread(3, DocKind::Syntax),
    ),
    (
        "lemma 1\ninside [b,a]\n",
        Outcome::Unread(3, DocKind::Order),
    ),
    (
        "lemma 1\ninside [a,a]\n",
        Outcome::Unread(3, DocKind::Order),
    ),
    (
        "lemma 1\ninside [~a,a]\n",
        Outcome::Unread(3, DocKind::Order),
    ),
    (
        "lemma 1\ninside [b,z,a]\n",
        Outcome::Unread(3, DocKind::Unknown),
    ),
    (
        "lemma 1\ninside [a,~a]\n",
        Outcome::Unread(4, DocKind::Early),
    ),
    (
        "lemma 1\ninside []\noutside [y,x]\n",
        Outcome::Unread(4, DocKind::Order),
    ),
    (
        "lemma 1\ninside []\noutside []\nroot\n",
        Outcome::Unread(5, DocKind::Syntax),
    ),
    (
        "lemma 1\ninside []\noutside []\nform 6 []\n",
        Outcome::Unread(5, DocKind::FormNumber),
    ),
    (
        "lemma 1\ninside []\noutside []\nbarred z\n",
        Outcome::Unread(5, DocKind::Unknown),
    ),
    (
        "lemma 1\ninside []\noutside []\nclash a,b\n",
        Outcome::Unread(5, DocKind::Syntax),
    ),
    (
        "lemma 1\ninside []\noutside []\nby 1\nlemma 1\n",
        Outcome::Unread(6, DocKind::Block),
    ),
    (
        "lemma 1\ninside []\noutside []\nby 1\nby 1\n",
        Outcome::Unread(6, DocKind::Syntax),
    ),
    (
        "lemma 1\ninside []\noutside []\nby 1\nroot\nlemma 2\n",
        Outcome::Unread(7, DocKind::Syntax),
    ),
    (
        "lemma 1\ninside []\noutside []\nby 1\nroot\nform 5 []\nlemma 2\n",
        Outcome::Unread(8, DocKind::Rest),
    ),
    (
        "lemma 1\ninside []\noutside []\nby 1\nroot\nform 5 []\n",
        Outcome::Rejected(5, Why::LemmaNumber),
    ),
    (
        "lemma 1\ninside [a,~a]\noutside []\nclash a\nroot\nby 2\n",
        Outcome::Rejected(7, Why::LemmaNumber),
    ),
    (
        "lemma 1\ninside [a,~a]\noutside []\nclash a\nroot\nby 1\n",
        Outcome::Rejected(7, Why::LemmaInside),
    ),
    (
        "lemma 1\ninside [a]\noutside []\nclash a\nroot\nby 1\n",
        Outcome::Rejected(5, Why::NoClash),
    ),
    (
        "lemma 1\ninside [b]\noutside []\nform 4 []\nbarred a\nroot\nby 1\n",
        Outcome::Rejected(6, Why::NotBarred),
    ),
    (
        "lemma 1\ninside [b]\noutside [a,x]\nform 4 []\nbarred a\nroot\nform 1 []\nform 2 []\nform 5 []\nby 1\nby 1\n",
        Outcome::Rejected(11, Why::LemmaOutside),
    ),
];

#[test]
fn blocks_have_their_answers(rt: HostRuntime) -> Result<(), Fail> {
    let alloc = rt.alloc();
    let problem = problem_of(alloc, BARRED)?;
    for (text, want) in BLOCKS.as_slice() {
        let whole = format!(in alloc; "mgtp tree 1\n%\n{text}%")?;
        assert_eq!(rt; judged(alloc, whole.as_bytes(), &problem), *want, "{text}");
    }
    Ok(())
}
