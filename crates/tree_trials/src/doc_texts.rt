//! Texts by hand over one small problem, each with the answer that the format gives it.

ghost use Rattle.std.specs.Prelude.{◌≤◌};

use mg_word::{NoMemory, Problem};
use proof_tree::{read_doc, write_doc};
use small_problems::problem_of;
use std::alloc::Global;
use std::test::Fail;
use tree_checker::{DocFault, DocKind};

// The last clause brings symbols with quotes and a number.
const PROBLEM: &str =
    "cnf(a,axiom,p(a)). cnf(b,axiom,~p(a)|q(a)). cnf(c,axiom,~q(a)). cnf(d,axiom,q('P q'(\"x\",12))).";

// How many lines the tree of the text has, or its fault.
#[derive(Clone, Copy, Debug, PartialEq, Eq)]
enum Outcome {
    Lines(usize),
    Fault(u64, DocKind),
    NoMemory,
}

fn found(alloc: Global, bytes: &[u8], problem: &Problem) -> Outcome {
    match read_doc(alloc, bytes, problem) {
        Ok(doc) => Outcome::Lines(doc.root.as_slice().len()),
        Err(DocFault::Line { line, kind }) => Outcome::Fault(line, kind),
        Err(DocFault::NoMemory) => Outcome::NoMemory,
    }
}

const WHOLE: &str = "mgtp tree 1\nroot\nform 1 []\nform 2 [a]\nform 3 []\n";

static TEXTS: [(&str, Outcome); 27] = [
    (WHOLE, Outcome::Lines(3)),
    (
        "%x\nmgtp tree 1\n%\nroot\nform 1 []\nform 2 [a]\n% form 9\nform 3 []\n%end",
        Outcome::Lines(3),
    ),
    (
        "mgtp tree 1\nroot\nform 3 ['P q'(\"x\",12)]\n",
        Outcome::Lines(1),
    ),
    ("mgtp tree 1\nroot\nform 3 [p(p(a)),a]\n", Outcome::Lines(1)),
    ("", Outcome::Fault(1, DocKind::Early)),
    (
        "mgtp tree 1\nroot\nform 1 []\nform 2 [a]\n",
        Outcome::Fault(5, DocKind::Early),
    ),
    ("mgtp tree 3\nroot\n", Outcome::Fault(1, DocKind::Header)),
    ("mgtp tree 1\nroots\n", Outcome::Fault(2, DocKind::Syntax)),
    ("mgtp tree 1\nlemma 1\n", Outcome::Fault(3, DocKind::Early)),
    (
        "mgtp tree 1\nroot\nform 1 []\nform 2 [b]\n",
        Outcome::Fault(4, DocKind::Unknown),
    ),
    (
        "mgtp tree 1\nroot\nform 1 []\nform 2 [p(a,a)]\n",
        Outcome::Fault(4, DocKind::Unknown),
    ),
    (
        "mgtp tree 1\nroot\nform 1 []\n%x\nby 1\n",
        Outcome::Lines(2),
    ),
    (
        "mgtp tree 1\nroot\nform 01 []\n",
        Outcome::Fault(3, DocKind::Syntax),
    ),
    (
        "mgtp tree 1\nroot\nform 4294967296 []\n",
        Outcome::Fault(3, DocKind::Syntax),
    ),
    (
        "mgtp tree 1\nroot\nform 4294967295 []\n",
        Outcome::Fault(3, DocKind::FormNumber),
    ),
    (
        "mgtp tree 1\nroot\nform 5 []\n",
        Outcome::Fault(3, DocKind::FormNumber),
    ),
    (
        "mgtp tree 1\nroot\nform 0 []\n",
        Outcome::Fault(3, DocKind::FormNumber),
    ),
    (
        "mgtp tree 1\nroot\nform 5 [b]\n",
        Outcome::Fault(3, DocKind::FormNumber),
    ),
    (
        "mgtp tree 1\nroot\nform 5 [b\n",
        Outcome::Fault(3, DocKind::Syntax),
    ),
    (
        "mgtp tree 1\nform 1 []\n",
        Outcome::Fault(2, DocKind::Syntax),
    ),
    (
        "mgtp tree 1\nroot\nform 3 [a, a]\n",
        Outcome::Fault(3, DocKind::Syntax),
    ),
    (
        "mgtp tree 1\nroot\nform 3 ['a']\n",
        Outcome::Fault(3, DocKind::Syntax),
    ),
    (
        "mgtp tree 1\nroot\nform 3 [p(a]\n",
        Outcome::Fault(3, DocKind::Syntax),
    ),
    (
        "mgtp tree 1\nroot\nform 3 [a)]\n",
        Outcome::Fault(3, DocKind::Syntax),
    ),
    (
        "mgtp tree 1\nroot\nform 3 [] \n",
        Outcome::Fault(3, DocKind::Syntax),
    ),
    (
        "mgtp tree 1\nroot\nform 1 []\nform 2 [a]\nform 3 []\nroot\n",
        Outcome::Fault(6, DocKind::Rest),
    ),
    (
        "mgtp tree 1\nroot\nform 1 []\nform 2 [a]\nform 3 []\nroot",
        Outcome::Fault(6, DocKind::Early),
    ),
];

#[test]
fn texts_have_their_answers(rt: HostRuntime) -> Result<(), Fail> {
    let alloc = rt.alloc();
    let problem = problem_of(alloc, PROBLEM)?;
    for (text, want) in TEXTS.as_slice() {
        assert_eq!(rt; found(alloc, text.as_bytes(), &problem), *want, "{text}");
    }
    Ok(())
}

// A front of the text ends early, at the line that its last line feed begins.
#[test]
fn fronts_end_early(rt: HostRuntime) -> Result<(), Fail> {
    let alloc = rt.alloc();
    let problem = problem_of(alloc, PROBLEM)?;
    let bytes = WHOLE.as_bytes();
    let mut line = 1;
    for end in 0..bytes.len() {
        assert_eq!(rt;
            found(alloc, &bytes[..end], &problem),
            Outcome::Fault(line, DocKind::Early)
        );
        if bytes[end] == b'\n' && line < 6 {
            line += 1;
        }
    }
    Ok(())
}

// `p(p(..a..))` with so many symbols, in a line of form 3.
fn nested(alloc: Global, symbols: usize) -> Result<Vec<u8>, NoMemory>
    requires { (1 ≤ symbols) × (symbols ≤ 100000) }
{
    let mut text = Vec::from_slice(alloc, b"mgtp tree 1\nroot\nform 3 [")?;
    for _ in 1..symbols {
        text.extend_from_slice(b"p(")?;
    }
    text.push(b'a')?;
    for _ in 1..symbols {
        text.push(b')')?;
    }
    text.extend_from_slice(b"]\n")?;
    Ok(text)
}

#[test]
fn terms_have_at_most_65536_symbols(rt: HostRuntime) -> Result<(), Fail> {
    let alloc = rt.alloc();
    let problem = problem_of(alloc, PROBLEM)?;
    let most = nested(alloc, 65_536)?;
    assert_eq!(rt; found(alloc, &most, &problem), Outcome::Lines(1));
    let more = nested(alloc, 65_537)?;
    assert_eq!(rt;
        found(alloc, &more, &problem),
        Outcome::Fault(3, DocKind::Heavy)
    );
    Ok(())
}

// A tree as deep as it has lines.
#[test]
fn trees_may_be_deep(rt: HostRuntime) -> Result<(), Fail> {
    let alloc = rt.alloc();
    let problem = problem_of(alloc, PROBLEM)?;
    let mut text = Vec::from_slice(alloc, b"mgtp tree 1\nroot\n")?;
    for _ in 0..1_000_000 {
        text.extend_from_slice(b"form 1 []\n")?;
    }
    text.extend_from_slice(b"form 3 []\n")?;
    assert_eq!(rt; found(alloc, &text, &problem), Outcome::Lines(1_000_001));
    Ok(())
}

#[test]
fn documents_are_written_as_they_are_read(rt: HostRuntime) -> Result<(), Fail> {
    let alloc = rt.alloc();
    let problem = problem_of(alloc, PROBLEM)?;
    for text in [WHOLE, "mgtp tree 1\nroot\nform 3 ['P q'(\"x\",12),p(a)]\n"] {
        let doc = read_doc(alloc, text.as_bytes(), &problem)?;
        let written = write_doc(alloc, &doc, &problem)?;
        assert!(rt; written.as_slice() == text.as_bytes(), "at {text}");
    }
    Ok(())
}
