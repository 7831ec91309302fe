//! Runs of the command line over files and sinks in memory.

use command_line::run_alone;
use mg_outside::{FailAt, MemoryFiles, MemorySink};
use mg_word::Text;
use std::alloc::Global;
use std::process::Abort;
use std::test::Fail;

/// Files in memory with these names and texts, of which the listed reads fail.
pub fn memory(
    alloc: Global,
    listed: &[(&str, &str)],
    failing: &[u64],
) -> Result<MemoryFiles, Fail> {
    let mut files: Vec<(Text, Vec<u8>)> = Vec::new(alloc);
    for (name, text) in listed {
        files.push((
            Text::new(Vec::from_slice(alloc, name.as_bytes())?),
            Vec::from_slice(alloc, text.as_bytes())?,
        ))?;
    }
    Ok(MemoryFiles::new(files, failing.to_vec(alloc)?)?)
}

// A sink of which the put with that number fails after so many bytes, where they are given.
fn sink(alloc: Global, fails: Option<(u64, u64)>) -> Result<MemorySink, Fail> {
    let mut failing = Vec::new(alloc);
    if let Some((call, taken)) = fails {
        failing.push(FailAt { call, taken })?;
    }
    Ok(MemorySink::new(alloc, 4096, failing)?)
}

/// Runs on the words, and compares the status, the output and the messages. A put of the output, or
/// of the messages, fails where `fails` says.
pub fn compare(
    rt: &impl Abort,
    alloc: Global,
    words: &[&str],
    files: &mut MemoryFiles,
    fails: (Option<(u64, u64)>, Option<(u64, u64)>),
    wanted: (u8, &str, &str),
) -> Result<(), Fail> {
    let mut given: Vec<String> = Vec::new(alloc);
    for word in words {
        given.push(String::from_str(alloc, word)?)?;
    }
    let mut out = sink(alloc, fails.0)?;
    let mut err = sink(alloc, fails.1)?;
    let status = run_alone(alloc, &given, files, &mut out, &mut err);
    let (wanted_status, wanted_out, wanted_err) = wanted;
    assert!(rt;
        out.held() == wanted_out.as_bytes(),
        "output, where wanted is {wanted_out}"
    );
    assert!(rt;
        err.held() == wanted_err.as_bytes(),
        "messages, where wanted is {wanted_err}"
    );
    assert!(rt;
        status == wanted_status,
        "status, where wanted is {wanted_status}"
    );
    Ok(())
}

/// Runs where nothing outside fails.
pub fn check(
    rt: &impl Abort,
    alloc: Global,
    words: &[&str],
    listed: &[(&str, &str)],
    wanted: (u8, &str, &str),
) -> Result<(), Fail> {
    let mut files = memory(alloc, listed, &[])?;
    compare(rt, alloc, words, &mut files, (None, None), wanted)
}
