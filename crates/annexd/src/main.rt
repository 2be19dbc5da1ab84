//! annexd: the timed run of an Ada program, as an exact trace. All that it does is one call, `top`,
//! whose clauses say what is promised of the program; `main` hands it the host's arguments, files
//! and streams.
#![tactic(auto)]

mod whole;

use commands::{Outcome, conclude};
use outside_host::{HostShelf, HostSink};
use std::process::ExitCode;
use std::{env, io};
use whole::top;

/// Passes the words behind the program's name to `top`, with the host's files and streams. Words
/// that are not UTF-8 are refused, as words that are not asked for are; where memory runs out for
/// the words the status is 9, as it is behind them.
fn main(rt: HostRuntime) -> io::Result<ExitCode> {
    let mut notes = HostSink::errors(rt.stderr());
    let status = match words_behind_name(rt) {
        Ok(words) => {
            let mut shelf = HostShelf::new(rt);
            let mut out = HostSink::output(rt.stdout());
            top(rt.alloc(), &words, &mut shelf, &mut out, &mut notes)
        }
        Err(error) if error.kind() == io::ErrorKind::OutOfMemory => {
            conclude(&mut notes, Outcome::NoMemory)
        }
        Err(error) if error.kind() == io::ErrorKind::InvalidData => {
            conclude(&mut notes, Outcome::WordsRefused)
        }
        Err(error) => return Err(error),
    };
    Ok(ExitCode::from(status))
}

/// The words behind the program's name.
fn words_behind_name(rt: HostRuntime) -> io::Result<Vec<Vec<u8>>> {
    let alloc = rt.alloc();
    let mut words = Vec::new(alloc);
    for word in env::args(&rt)?.skip(1) {
        words.push(Vec::from_slice(alloc, word.as_bytes())?)?;
    }
    Ok(words)
}
