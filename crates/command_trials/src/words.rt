//! Words and what they ask for, worked out by hand from the usage text.

use command_words::request_of;
use std::alloc::{AllocError, Global};
use std::test::Fail;

// The words of a line, which is split at spaces.
fn words_of(alloc: Global, line: &str) -> Result<Vec<String>, AllocError> {
    let mut words: Vec<String> = Vec::new(alloc);
    for word in line.split(' ') {
        words.push(String::from_str(alloc, word)?)?;
    }
    Ok(words)
}

// What the words ask for.
fn asked(alloc: Global, line: &str) -> Result<String, Fail> {
    let words = words_of(alloc, line)?;
    let found = request_of(alloc, words.as_slice())?;
    Ok(format!(in alloc; "{found:?}")?)
}

static ROWS: [(&str, &str); 24] = [
    (
        "prove r1.p",
        "Some(Prove(Search { file: \"r1.p\", root: None, workers: 1, budget: 100000, weight: 256 }))",
    ),
    (
        "models --root lib r1.p --workers=64 --budget 0",
        "Some(Models(Search { file: \"r1.p\", root: Some(\"lib\"), workers: 64, budget: 0, weight: 256 }))",
    ),
    (
        "prove --weight 4096 --budget=1000000 -- --weight",
        "Some(Prove(Search { file: \"--weight\", root: None, workers: 1, budget: 1000000, weight: 4096 }))",
    ),
    (
        "check r1.p t",
        "Some(Check { file: \"r1.p\", tree: \"t\", root: None })",
    ),
    (
        "check r1.p --root=-x t",
        "Some(Check { file: \"r1.p\", tree: \"t\", root: Some(\"-x\") })",
    ),
    (
        "check --root - -- -a --",
        "Some(Check { file: \"-a\", tree: \"--\", root: Some(\"-\") })",
    ),
    ("forms -", "Some(Forms { file: \"-\", root: None })"),
    (
        "sample 20 --budget 5",
        "Some(Sample { size: 20, workers: 1, budget: 5 })",
    ),
    ("prove", "None"),
    ("prove r1.p r2.p", "None"),
    ("Prove r1.p", "None"),
    ("prove r1.p --workers 0", "None"),
    ("prove r1.p --budget 01", "None"),
    ("prove r1.p --budget 1000001", "None"),
    ("prove r1.p --budget +1", "None"),
    ("prove r1.p --weight 4097", "None"),
    ("prove r1.p --weight 5 --weight 5", "None"),
    ("prove r1.p --weigh 5", "None"),
    ("prove r1.p --root", "None"),
    ("prove r1.p --root=", "None"),
    ("prove -x", "None"),
    ("forms r1.p --help", "None"),
    ("sample 21", "None"),
    ("sample 4 --weight 5", "None"),
];

#[test]
fn words_ask_for_it(rt: HostRuntime) -> Result<(), Fail> {
    let alloc = rt.alloc();
    for (line, expected) in ROWS.as_slice() {
        let found = asked(alloc, line)?;
        assert_eq!(rt; found.as_str(), *expected, "{line}");
    }
    Ok(())
}

#[test]
fn no_words_ask_for_nothing(rt: HostRuntime) -> Result<(), Fail> {
    let alloc = rt.alloc();
    let words: Vec<String> = Vec::new(alloc);
    assert!(rt; request_of(alloc, words.as_slice())?.is_none());
    assert_eq!(rt; asked(alloc, "prove ")?.as_str(), "None");
    Ok(())
}
