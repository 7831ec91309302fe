//! Faults at their places, and what is read, over files in memory. Each row of the table of faults and each limit has rows here; the expected
//! values are worked out by hand.

use crate::listed::memory;
use cnf_reader::{ReadFault, ReadKind, read_problem};
use mg_outside::MemoryFiles;
use mg_word::Text;
use std::alloc::Global;
use std::process::Abort;
use std::test::Fail;
use tptp_lexer::LexKind;

/// The most bytes of all files of a problem together.
const MOST_BYTES: usize = 16_777_216;

// A kind of fault, with its line and column.
type Place = (ReadKind, u32, u32);

// The fault of a problem, where it has one.
fn first_fault(
    alloc: Global,
    files: &mut MemoryFiles,
    name: &str,
    root: Option<&str>,
) -> Option<ReadFault> {
    read_problem(alloc, files, name, root).err()
}

// The fault of a problem whose file is `f.p`, beside an empty `e.p`: its kind, line and column; None where it is read.
fn fault_of(alloc: Global, text: &str) -> Result<Option<Place>, Fail> {
    let mut files = memory(alloc, &[("f.p", text), ("e.p", "")], &[])?;
    match first_fault(alloc, &mut files, "f.p", None) {
        None => Ok(None),
        Some(
            ReadFault::At {
                kind,
                line,
                column,
                ..
            },
        ) => Ok(Some((kind, line, column))),
        Some(ReadFault::NoMemory) => Err(Fail::from("no memory")),
    }
}

fn check(rt: &impl Abort, alloc: Global, text: &str, wanted: Option<Place>) -> Result<(), Fail> {
    assert!(rt; fault_of(alloc, text)? == wanted, "{text}");
    Ok(())
}

fn check_faults(
    rt: &impl Abort,
    alloc: Global,
    rows: &[(&str, ReadKind, u32, u32)],
) -> Result<(), Fail> {
    for (text, kind, line, column) in rows {
        check(rt, alloc, text, Some((*kind, *line, *column)))?;
    }
    Ok(())
}

fn check_read(rt: &impl Abort, alloc: Global, texts: &[&str]) -> Result<(), Fail> {
    for text in texts {
        check(rt, alloc, text, None)?;
    }
    Ok(())
}

// Whether the fault stands in the first line of this file, at this column, with this subject.
fn is_met(
    fault: &Option<ReadFault>,
    wanted: ReadKind,
    name: &str,
    place: u32,
    about: &str,
) -> bool {
    match fault {
        Some(
            ReadFault::At {
                kind,
                file,
                line,
                column,
                subject,
            },
        ) => {
            *kind == wanted
                && *line == 1
                && *column == place
                && file.as_slice() == name.as_bytes()
                && subject.as_slice() == about.as_bytes()
        }
        _ => false,
    }
}

fn check_met(
    rt: &impl Abort,
    fault: &Option<ReadFault>,
    kind: ReadKind,
    file: &str,
    column: u32,
    subject: &str,
) {
    assert!(rt; is_met(fault, kind, file, column, subject), "{file}");
}

const FAULTS: &[(&str, ReadKind, u32, u32)] = &[
    (
        "cnf(a,axiom,p).\n\u{1}",
        ReadKind::Lex(LexKind::BadByte),
        2,
        1,
    ),
    (
        "cnf('\u{7f}',axiom,p).",
        ReadKind::Lex(LexKind::BadByte),
        1,
        6,
    ),
    ("cnf(x,axiom,p('a", ReadKind::Lex(LexKind::OpenQuote), 1, 15),
    (
        "cnf(x,axiom,p(\"a\n",
        ReadKind::Lex(LexKind::OpenQuote),
        1,
        15,
    ),
    (
        "cnf('a\\b',axiom,p).",
        ReadKind::Lex(LexKind::BadEscape),
        1,
        7,
    ),
    (
        "cnf(a,axiom,p). /* c",
        ReadKind::Lex(LexKind::OpenComment),
        1,
        17,
    ),
    ("p", ReadKind::Expected, 1, 1),
    ("thy(a,axiom,p).", ReadKind::Expected, 1, 1),
    ("cnf(X,axiom,p).", ReadKind::Expected, 1, 5),
    ("cnf(a axiom,p).", ReadKind::Expected, 1, 7),
    ("cnf(a,'axiom',p).", ReadKind::Expected, 1, 7),
    ("cnf(a,axiom,~~p).", ReadKind::Expected, 1, 14),
    ("cnf(a,axiom,p()).", ReadKind::Expected, 1, 15),
    ("cnf(a,axiom,(p)=q).", ReadKind::Expected, 1, 16),
    ("cnf(a,axiom,(p)|q).", ReadKind::Expected, 1, 16),
    ("cnf(a,axiom,p,a,b).", ReadKind::Expected, 1, 17),
    ("cnf(a,axiom,p,f(]).", ReadKind::Expected, 1, 17),
    ("cnf(a,axiom,p(a)", ReadKind::Expected, 1, 17),
    ("include('').", ReadKind::Expected, 1, 9),
    ("cnf(a,axiom,a=b).", ReadKind::Equality, 1, 14),
    ("cnf(a,axiom,a!=b).", ReadKind::Equality, 1, 14),
    ("cnf(a,axiom,p(a)=b).", ReadKind::Equality, 1, 17),
    ("cnf(a,axiom,p(a=b)).", ReadKind::Equality, 1, 16),
    ("cnf(a,axiom,p(X!=b)).", ReadKind::Equality, 1, 16),
    ("cnf(a,axiom,$true=a).", ReadKind::Equality, 1, 18),
    ("cnf(a,axiom,X=a).", ReadKind::Equality, 1, 13),
    ("cnf(a,axiom,1=a).", ReadKind::Equality, 1, 13),
    ("cnf(a,axiom,-1=a).", ReadKind::Equality, 1, 13),
    ("cnf(a,axiom,\"x\"=a).", ReadKind::Equality, 1, 13),
    ("cnf(a,axiom,~X).", ReadKind::Equality, 1, 14),
    ("cnf(a,axiom,(X)).", ReadKind::Equality, 1, 14),
    ("cnf(a,axiom,p|X).", ReadKind::Equality, 1, 15),
    ("cnf(c,axiom,p(-1)).", ReadKind::Number, 1, 15),
    ("cnf(c,axiom,p(1.5)).", ReadKind::Number, 1, 15),
    ("cnf(c,axiom,p(01)).", ReadKind::Number, 1, 15),
    ("cnf(c,axiom,p(a,1/2)).", ReadKind::Number, 1, 17),
    ("cnf(c,axiom,$less).", ReadKind::Defined, 1, 13),
    ("cnf(c,axiom,~$o).", ReadKind::Defined, 1, 14),
    ("cnf(c,axiom,p|$$t).", ReadKind::Defined, 1, 15),
    ("cnf(c,axiom,p($x)).", ReadKind::Defined, 1, 15),
    ("cnf(c,axiom,p($true)).", ReadKind::Defined, 1, 15),
];

const READ: &[&str] = &[
    "",
    "cnf(1,plain,(~'p'(\"x\",12,X)|$true),a,[conclude([1]),b]).",
    "cnf(a,axiom,p,(a=b,-1,$x,X),[a != b]).",
    "% c\n",
];

#[test]
fn faults_stand_at_their_places(rt: HostRuntime) -> Result<(), Fail> {
    check_faults(&rt, rt.alloc(), FAULTS)?;
    check_read(&rt, rt.alloc(), READ)
}

const WRONG_WORDS: &[(&str, ReadKind, u32, u32)] = &[
    ("fof(c,axiom,p).", ReadKind::NotCnf, 1, 1),
    ("tff(c,axiom,p).", ReadKind::NotCnf, 1, 1),
    ("thf(c,axiom,p).", ReadKind::NotCnf, 1, 1),
    ("tcf(c,axiom,p).", ReadKind::NotCnf, 1, 1),
    ("cnf(c,axiom,p).\ntpi(c,axiom,p).", ReadKind::NotCnf, 2, 1),
    ("cnf(c,question,p).", ReadKind::Role, 1, 7),
    ("cnf(c,conjecture,p).", ReadKind::Role, 1, 7),
    ("cnf(c,unknown,p).", ReadKind::Role, 1, 7),
    ("cnf(c,type,p).", ReadKind::Role, 1, 7),
    ("cnf(c,axioms,p).", ReadKind::Role, 1, 7),
    (
        "cnf(c,axiom,p,u,[conclude([2])]).",
        ReadKind::BadConclude,
        1,
        28,
    ),
    (
        "cnf(c,axiom,p,u,[conclude([0])]).",
        ReadKind::BadConclude,
        1,
        28,
    ),
    (
        "cnf(c,axiom,p,u,[conclude(1)]).",
        ReadKind::BadConclude,
        1,
        27,
    ),
    (
        "cnf(c,axiom,p,u,[conclude([])x]).",
        ReadKind::BadConclude,
        1,
        30,
    ),
    (
        "cnf(c,axiom,p|q,u,[conclude([2,1])]).",
        ReadKind::BadConclude,
        1,
        31,
    ),
    (
        "cnf(c,axiom,p|q,u,[conclude([1,1])]).",
        ReadKind::BadConclude,
        1,
        32,
    ),
    (
        "cnf(c,axiom,p|$true,u,[conclude([2])]).",
        ReadKind::BadConclude,
        1,
        34,
    ),
];

const RIGHT_WORDS: &[&str] = &[
    "cnf(c,axiom,p).",
    "cnf(c,hypothesis,p).",
    "cnf(c,definition,p).",
    "cnf(c,assumption,p).",
    "cnf(c,lemma,p).",
    "cnf(c,theorem,p).",
    "cnf(c,corollary,p).",
    "cnf(c,negated_conjecture,p).",
    "cnf(c,plain,p).",
    "cnf(c,axiom,p|q,u,[conclude([1,2]),conclude([])]).",
    "cnf(c,axiom,p,u,['conclude'([9]),conclude,a(conclude([9]))]).",
];

#[test]
fn words_are_told_apart(rt: HostRuntime) -> Result<(), Fail> {
    check_faults(&rt, rt.alloc(), WRONG_WORDS)?;
    check_read(&rt, rt.alloc(), RIGHT_WORDS)
}

// A part of a text, with how many times it is written.
type Part<'a> = (&'a str, u32);

// The text of these parts, one behind the other.
fn text_of(alloc: Global, parts: &[Part]) -> Result<String, Fail> {
    let mut text = String::new(alloc);
    for (part, count) in parts {
        for _ in 0..*count {
            text.push_str(part)?;
        }
    }
    Ok(text)
}

fn check_long(
    rt: &impl Abort,
    alloc: Global,
    rows: &[(&[Part], Option<Place>)],
) -> Result<(), Fail> {
    for (parts, wanted) in rows {
        let text = text_of(alloc, parts)?;
        assert!(rt; fault_of(alloc, text.as_str())? == *wanted);
    }
    Ok(())
}

const LIMITS: &[(&[Part], Option<Place>)] = &[
    (&[("cnf(c,axiom,", 1), ("p|", 63), ("p).", 1)], None),
    (
        &[("cnf(c,axiom,", 1), ("p|", 64), ("p).", 1)],
        Some((ReadKind::TooManyLiterals, 1, 141)),
    ),
    (
        &[("cnf(c,axiom,", 1), ("p|", 64), ("~p).", 1)],
        Some((ReadKind::TooManyLiterals, 1, 141)),
    ),
    (
        &[("cnf(c,axiom,", 1), ("p|", 64), ("$true).", 1)],
        Some((ReadKind::TooManyLiterals, 1, 141)),
    ),
    (
        &[("cnf(c,axiom,", 1), ("p|", 64), ("X).", 1)],
        Some((ReadKind::Equality, 1, 141)),
    ),
    (
        &[("cnf(c,axiom,", 1), ("p|", 64), (").", 1)],
        Some((ReadKind::Expected, 1, 141)),
    ),
    (
        &[(
            "cnf(c,axiom,~p(X01,X02,X03,X04,X05,X06,X07,X08,X09,X10,X11,X12,X13,X14,X15,X16,X17,X18,X19,X20,X21,X22,X23,X24,X25,X26,X27,X28,X29,X30,X31,X32,X01)).",
            1,
        )],
        None,
    ),
    (
        &[(
            "cnf(c,axiom,~p(X01,X02,X03,X04,X05,X06,X07,X08,X09,X10,X11,X12,X13,X14,X15,X16,X17,X18,X19,X20,X21,X22,X23,X24,X25,X26,X27,X28,X29,X30,X31,X32,X33)).",
            1,
        )],
        Some((ReadKind::TooManyVariables, 1, 144)),
    ),
    (&[("include('e.p').\n", 256)], None),
    (
        &[("include('e.p').\n", 257)],
        Some((ReadKind::TooManyIncludes, 257, 9)),
    ),
    (&[("cnf(c,axiom,p).\n", 20_000)], None),
    (
        &[("cnf(c,axiom,p).\n", 20_001)],
        Some((ReadKind::TooManyClauses, 20_001, 5)),
    ),
];

#[test]
fn limits_hold(rt: HostRuntime) -> Result<(), Fail> {
    check_long(&rt, rt.alloc(), LIMITS)
}

const BRACKETS: &[(&[Part], Option<Place>)] = &[
    (
        &[
            ("cnf(c,axiom,", 1),
            ("(", 100),
            ("p", 1),
            (")", 100),
            (").", 1),
        ],
        None,
    ),
    (
        &[("cnf(c,axiom,", 1), ("(", 101), ("p", 1)],
        Some((ReadKind::TooDeep, 1, 113)),
    ),
    (
        &[
            ("cnf(c,axiom,", 1),
            ("f(", 100),
            ("a", 1),
            (")", 100),
            (").", 1),
        ],
        None,
    ),
    (
        &[("cnf(c,axiom,", 1), ("f(", 101), ("a", 1)],
        Some((ReadKind::TooDeep, 1, 214)),
    ),
    // In annotations brackets are not counted.
    (
        &[
            ("cnf(c,axiom,p,", 1),
            ("(", 200),
            ("a", 1),
            (")", 200),
            (").", 1),
        ],
        None,
    ),
];

#[test]
fn brackets_nest_a_hundred_deep(rt: HostRuntime) -> Result<(), Fail> {
    check_long(&rt, rt.alloc(), BRACKETS)
}

// A chain of so many files, of which each includes the next.
fn chain(alloc: Global, count: usize) -> Result<MemoryFiles, Fail> {
    let names = [
        "f01", "f02", "f03", "f04", "f05", "f06", "f07", "f08", "f09", "f10", "f11", "f12", "f13",
        "f14", "f15", "f16", "f17",
    ];
    let mut files: Vec<(Text, Vec<u8>)> = Vec::new(alloc);
    let mut text = String::new(alloc);
    for name in names.iter().take(count).rev() {
        files.push((
            Text::new(Vec::from_slice(alloc, name.as_bytes())?),
            Vec::from_slice(alloc, text.as_bytes())?,
        ))?;
        text = String::from_str(alloc, "include(")?;
        text.push_str(name)?;
        text.push_str(").")?;
    }
    Ok(MemoryFiles::new(files, Vec::new(alloc))?)
}

#[test]
fn files_include_files_sixteen_levels_deep(rt: HostRuntime) -> Result<(), Fail> {
    let alloc = rt.alloc();
    let mut fits = chain(alloc, 16)?;
    assert!(rt; first_fault(alloc, &mut fits, "f01", None).is_none());
    let mut deep = chain(alloc, 17)?;
    let fault = first_fault(alloc, &mut deep, "f01", None);
    check_met(&rt, &fault, ReadKind::IncludeDepth, "f16", 9, "");
    Ok(())
}

// A problem `f.p` of this text, with a file `e.p` of so many spaces.
fn spaces(alloc: Global, text: &str, count: usize) -> Result<MemoryFiles, Fail> {
    let mut files: Vec<(Text, Vec<u8>)> = Vec::new(alloc);
    files.push((
        Text::new(Vec::from_slice(alloc, b"f.p")?),
        Vec::from_slice(alloc, text.as_bytes())?,
    ))?;
    files.push((
        Text::new(Vec::from_slice(alloc, b"e.p")?),
        vec![in alloc; b' '; count]?,
    ))?;
    Ok(MemoryFiles::new(files, Vec::new(alloc))?)
}

#[test]
fn files_have_so_many_bytes_together(rt: HostRuntime) -> Result<(), Fail> {
    let alloc = rt.alloc();
    // The text of the problem file has 15 bytes.
    let text = "include('e.p').";
    let mut alone = spaces(alloc, text, MOST_BYTES)?;
    assert!(rt; first_fault(alloc, &mut alone, "e.p", None).is_none());
    let mut large = spaces(alloc, text, MOST_BYTES + 1)?;
    let fault = first_fault(alloc, &mut large, "e.p", None);
    check_met(&rt, &fault, ReadKind::TooLong, "e.p", 1, "");
    let mut together = spaces(alloc, text, MOST_BYTES - 15)?;
    assert!(rt; first_fault(alloc, &mut together, "f.p", None).is_none());
    let mut more = spaces(alloc, text, MOST_BYTES - 14)?;
    let fault = first_fault(alloc, &mut more, "f.p", None);
    check_met(&rt, &fault, ReadKind::TooLong, "f.p", 9, "");
    Ok(())
}

const FILES: [(&str, &str); 9] = [
    ("a/f.p", "include('x.p')."),
    ("a/x.p", ""),
    ("r/x.p", ""),
    ("a/g.p", "include('y\\'.p')."),
    ("a/h.p", "include('z.p')."),
    ("r/z.p", ""),
    ("a/s.p", "include('/x.p')."),
    ("a/t.p", "include('l.p',[a])."),
    ("a/l.p", "cnf(a,axiom,p). cnf(b,question,p)."),
];

#[test]
fn reads_fail_and_files_are_absent(rt: HostRuntime) -> Result<(), Fail> {
    let alloc = rt.alloc();
    for (failing, name, kind, file, column, subject) in [
        (1, "a/f.p", ReadKind::Files, "a/f.p", 1, ""),
        // The root is tried after an absence alone.
        (2, "a/f.p", ReadKind::Files, "a/f.p", 9, ""),
        (3, "a/h.p", ReadKind::Files, "a/h.p", 9, ""),
        (9, "a/none.p", ReadKind::ProblemAbsent, "a/none.p", 1, ""),
        (9, "a/g.p", ReadKind::IncludeAbsent, "a/g.p", 9, "y'.p"),
        (9, "a/s.p", ReadKind::IncludeAbsent, "a/s.p", 9, "/x.p"),
        // The rules hold of a clause that is not kept, too.
        (9, "a/t.p", ReadKind::Role, "a/l.p", 23, ""),
    ] {
        let mut files = memory(alloc, &FILES, &[failing])?;
        let fault = first_fault(alloc, &mut files, name, Some("r"));
        check_met(&rt, &fault, kind, file, column, subject);
    }
    Ok(())
}

// Whether the second file that is read has this name.
fn is_second(alloc: Global, name: &str, root: Option<&str>, wanted: &str) -> Result<bool, Fail> {
    let listed = [
        ("a/f.p", "include('x.p')."),
        ("a/x.p", ""),
        ("r/x.p", ""),
        ("a/h.p", "include('z.p')."),
        ("r/z.p", ""),
        ("s/h.p", "include('/t/x.p')."),
        ("/t/x.p", ""),
    ];
    let mut files = memory(alloc, &listed, &[])?;
    match read_problem(alloc, &mut files, name, root) {
        Ok(input) => match input.files.as_slice().get(1) {
            Some(found) => Ok(found.as_slice() == wanted.as_bytes()),
            None => Ok(false),
        },
        Err(_) => Ok(false),
    }
}

#[test]
fn includes_are_tried_in_order(rt: HostRuntime) -> Result<(), Fail> {
    for (name, root, wanted) in [
        ("a/f.p", None, "a/x.p"),
        ("a/f.p", Some("r"), "a/x.p"),
        ("a/h.p", Some("r"), "r/z.p"),
        ("a/h.p", Some("r/"), "r/z.p"),
        ("s/h.p", Some("r"), "/t/x.p"),
    ] {
        assert!(rt; is_second(rt.alloc(), name, root, wanted)?, "{name}");
    }
    Ok(())
}

// How many clauses, files and symbols are read.
fn sizes(
    alloc: Global,
    listed: &[(&str, &str)],
    name: &str,
    root: Option<&str>,
) -> Result<Option<(usize, usize, u32)>, Fail> {
    let mut files = memory(alloc, listed, &[])?;
    match read_problem(alloc, &mut files, name, root) {
        Ok(input) => Ok(Some((
            input.clauses.as_slice().len(),
            input.files.as_slice().len(),
            input.symbols.len(),
        ))),
        Err(_) => Ok(None),
    }
}

#[test]
fn selections_and_roots(rt: HostRuntime) -> Result<(), Fail> {
    let listed = [
        ("dir/m.p", "include('Axioms/X.ax',[one])."),
        (
            "lib/Axioms/X.ax",
            "cnf(one,axiom,p).\ncnf(two,axiom,~'p').\n",
        ),
    ];
    let found = sizes(rt.alloc(), &listed, "dir/m.p", Some("lib"))?;
    assert!(rt; found == Some((1, 2, 1)));
    Ok(())
}

#[test]
fn lines_with_conclusions_and_includes(rt: HostRuntime) -> Result<(), Fail> {
    let alloc = rt.alloc();
    let listed = [
        (
            "m.p",
            "cnf(different_hates,hypothesis, ( ~ hates(agatha,X) | ~ hates(charles,X) )).\ncnf(colour,axiom, ~ node(X) | red(X) | green(X), unknown, [conclude([3])]).\ninclude('Axioms/PUZ001.ax',[agatha,butler]).\n",
        ),
        (
            "Axioms/PUZ001.ax",
            "cnf(agatha,axiom,lives(agatha)).\ncnf(charles,axiom,lives(charles)).\ncnf(butler,axiom,lives(butler)).\n",
        ),
    ];
    // The symbols: agatha, charles and butler; hates; node, red and green; lives.
    assert!(rt; sizes(alloc, &listed, "m.p", None)? == Some((4, 2, 8)));
    let mut files = memory(alloc, &listed, &[])?;
    let fault = first_fault(alloc, &mut files, "none.p", None);
    check_met(&rt, &fault, ReadKind::ProblemAbsent, "none.p", 1, "");
    Ok(())
}

// What the front of three clauses is that ends with this line under way: it is read where no statement is under way,
// its last token is wrong where a keyword or a role is not whole, and else the end comes too early.
fn front_fault(line: u32, tail: &str) -> Option<(ReadKind, u32, u32)> {
    let len = tail.len();
    if len == 0 || tail.ends_with('.') {
        return None;
    }
    if len < 3 {
        return Some((ReadKind::Expected, line, 1));
    }
    if len > 7 && len < 12 {
        return Some((ReadKind::Role, line, 8));
    }
    if len > 1000 {
        return None;
    }
    Some((ReadKind::Expected, line, len as u32 + 1))
}

// Checks each front of this line, behind the lines before it.
fn check_fronts(
    rt: &impl Abort,
    alloc: Global,
    before: &str,
    number: u32,
    line: &str,
) -> Result<(), Fail> {
    for len in 0..=line.len() {
        if let Some(tail) = line.get(..len) {
            let mut text = String::from_str(alloc, before)?;
            text.push_str(tail)?;
            check(rt, alloc, text.as_str(), front_fault(number, tail))?;
        }
    }
    Ok(())
}

#[test]
fn fronts_of_a_problem(rt: HostRuntime) -> Result<(), Fail> {
    for (number, before, line) in [
        (1, "", "cnf(c1,axiom,p(a))."),
        (2, "cnf(c1,axiom,p(a)).\n", "cnf(c2,axiom,~p(X)|q(X))."),
        (
            3,
            "cnf(c1,axiom,p(a)).\ncnf(c2,axiom,~p(X)|q(X)).\n",
            "cnf(c3,axiom,~q(a)).",
        ),
    ] {
        check_fronts(&rt, rt.alloc(), before, number, line)?;
    }
    Ok(())
}
