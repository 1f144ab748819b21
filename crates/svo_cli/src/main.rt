//! The program: `run` over the standard streams, with a folder for what a build keeps aside, and node
//! files by their names.
#![tactic(auto)]

use host_files::{FileStore, FolderScratch, HostErrors, HostInput, HostOutput};
use std::process::ExitCode;
use std::rt::Env;
use std::{env, io};
use svo_base::Words;
use svo_top::{Status, run};

/// The exit status where the system does not give the words.
const NO_WORDS: u8 = 8;

/// Runs the words after the program's name over the standard streams, and ends with the status's code.
/// A build keeps its scratch in the folder that its words name, and node files are opened by their
/// names, each from the caller's folder on.
fn main(rt: HostRuntime) -> ExitCode {
    let words = match host_words(&rt) {
        Err(error) => return ExitCode::from(words_code(&error)),
        Ok(words) => words,
    };
    let mut input = HostInput::new(rt.stdin());
    let mut out = HostOutput::new(rt.stdout());
    let mut err = HostErrors::new(rt.stderr());
    let mut scratch = FolderScratch::new(&rt);
    let mut nodes = FileStore::new(&rt);
    let status = run(
        rt.alloc(),
        &words,
        &mut input,
        &mut out,
        &mut err,
        &mut scratch,
        &mut nodes,
    );
    ExitCode::from(status.code())
}

/// The words after the program's name.
fn host_words<R: Env + AllocGlobal>(rt: &R) -> io::Result<Words> {
    let mut words = Words::new(rt.alloc());
    for word in env::args(rt)?.skip(1) {
        words.push(word.as_str())?;
    }
    Ok(words)
}

/// The exit status where there are no words: 7 for want of memory, and 8 for any other cause.
fn words_code(error: &io::Error) -> u8 {
    if error.kind() == io::ErrorKind::OutOfMemory {
        Status::Memory.code()
    } else {
        NO_WORDS
    }
}
