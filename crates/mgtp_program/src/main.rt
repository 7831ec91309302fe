//! `mgtp`, a verified model generation theorem prover: the command line over real files and streams.
#![tactic(auto)]

use command_line::{Status, run_alone};
use mg_outside::{StdFiles, StdSink};
use std::alloc::AllocError;
use std::process::ExitCode;
use std::{env, io};

// The words after the program's name.
fn words_of(rt: &HostRuntime) -> io::Result<Vec<String>> {
    let mut words = Vec::new(rt.alloc());
    for word in env::args(rt)?.skip(1) {
        words.push(word).map_err(AllocError::from)?;
    }
    Ok(words)
}

fn main(rt: HostRuntime) -> ExitCode {
    let Ok(words) = words_of(&rt) else {
        return ExitCode::from(Status::WordsWithheld.code());
    };
    let mut files = StdFiles::new(&rt);
    let mut out = StdSink::new(rt.stdout());
    let mut err = StdSink::new(rt.stderr());
    ExitCode::from(run_alone(rt.alloc(), &words, &mut files, &mut out, &mut err))
}
