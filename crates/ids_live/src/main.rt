//! A live model server for building information models. `ids_live replay SCHEMA SPECS MODEL SCRIPT`
//! runs a script on an IFC4 model, and audits its revisions against information delivery
//! specifications.
#![tactic(auto)]

mod ending;
#[cfg(test)]
mod facet_rows;
mod load;
mod play;
mod refused;
#[cfg(test)]
mod rows;
mod stop;
#[cfg(test)]
mod tests;
#[cfg(test)]
mod texts;
mod top;
mod words;

use crate::top::run_serial;
use shelf_io::{FileShelf, OutSink};
use std::alloc::AllocError;
use std::process::ExitCode;
use std::{env, io};

/// What is told on standard error where the words aren't taken.
const USAGE: &str = "usage: ids_live replay SCHEMA SPECS MODEL SCRIPT";

/// Runs the command that the words name, over the files of the system and standard output, and ends
/// with its status.
fn main(rt: HostRuntime) -> ExitCode {
    let status = match words_given(&rt) {
        Ok(words) => run(&rt, &words).unwrap_or(5),
        Err(error) if error.kind() == io::ErrorKind::OutOfMemory => 5,
        Err(_) => 6,
    };
    if status == 6 {
        let _ = eprintln!(rt; "{USAGE}");
    }
    ExitCode::from(status)
}

/// The words behind the program's name. One that isn't UTF-8 is an error.
fn words_given(rt: &HostRuntime) -> io::Result<Vec<String>> {
    let mut words = Vec::new(rt.alloc());
    for word in env::args(rt)?.skip(1) {
        words.push(word)?;
    }
    Ok(words)
}

/// The status of the run over the files of the system and standard output.
fn run(rt: &HostRuntime, words: &[String]) -> Result<u8, AllocError> {
    let mut shelf = FileShelf::new(rt.clone()?);
    let mut out = OutSink::new(rt.clone()?);
    Ok(run_serial(rt.alloc(), words, &mut shelf, &mut out).status)
}
