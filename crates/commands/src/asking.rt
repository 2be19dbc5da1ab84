//! What the words ask for.
ghost use Rattle.std.specs.Prelude.{◌≡◌, ◌≤◌, ◌<◌, IfSome};
ghost use Rattle.std.specs.Option.{option_map, option_copied};
ghost use Rattle.commands.specs.Requests.{seen, HasTicks};
ghost use Rattle.commands.specs.Asked.{asked_of, run_of, run_up_to, run_under};
ghost use Rattle.commands.specs.Asked.{accept_of, load_of, load_up_to, test_of};
ghost use Rattle.commands.specs.Asked.{trace_of, name_of, ticks_of, ticks_from};

use crate::requests::{DEFAULT_TICKS, MOST_TICKS, Request, TableTest, TraceWork, Work};
use load_runs::MOST_TASKS;

/// What the words behind the program's name ask for; None for words that are refused.
pub fn asked(words: &[Vec<u8>]) -> Option<Request>
    ensures asked { option_map seen result ≡ asked_of words.now }
    // A run has from 1 to `MOST_TICKS` ticks.
    ensures ticks { IfSome result (λ request. HasTicks (seen request)) }
{
    match words {
        [] => None,
        [command, rest @ ..] => {
            if command.as_slice() == b"run".as_slice() {
                run_of(rest)
            } else if command.as_slice() == b"accept".as_slice() {
                accept_of(rest)
            } else if command.as_slice() == b"load".as_slice() {
                load_of(rest)
            } else if command.as_slice() == b"rta".as_slice() {
                test_of(TableTest::ResponseTimes, rest)
            } else if command.as_slice() == b"demand".as_slice() {
                test_of(TableTest::Demand, rest)
            } else if command.as_slice() == b"laws".as_slice() {
                trace_of(TraceWork::Laws, rest)
            } else if command.as_slice() == b"report".as_slice() {
                trace_of(TraceWork::Report, rest)
            } else {
                None
            }
        }
    }
}

/// `SOURCE` or `SOURCE SCRIPT`, also with `--ticks N` at the end.
fn run_of(words: &[Vec<u8>]) -> Option<Request>
    ensures asked { option_map seen result ≡ run_of words.now }
    ensures ticks { IfSome result (λ request. HasTicks (seen request)) }
{
    match words {
        [source] => run_up_to(source, Some(DEFAULT_TICKS)),
        [source, script] => run_under(source, script, Some(DEFAULT_TICKS)),
        [source, option, ticks] if option.as_slice() == b"--ticks".as_slice() => {
            run_up_to(source, ticks_of(ticks))
        }
        [source, script, option, ticks] if option.as_slice() == b"--ticks".as_slice() => {
            run_under(source, script, ticks_of(ticks))
        }
        _ => None,
    }
}

/// A run of the named source, where there is a number of ticks.
fn run_up_to(word: &[u8], ticks: Option<u64>) -> Option<Request>
    requires { IfSome ticks (λ n. (0 < n) × (n ≤ MOST_TICKS)) }
    ensures asked { option_map seen result ≡ run_up_to word.now ticks }
    ensures ticks { IfSome result (λ request. HasTicks (seen request)) }
{
    let ticks = ticks?;
    let source = file_name(word)?;
    let work = Work::Run { ticks };
    Some(Request::Source { source, work })
}

/// A run of the named source under the named script, where there is a number of ticks.
fn run_under<'a>(source: &'a [u8], script: &'a [u8], ticks: Option<u64>) -> Option<Request<'a>>
    requires { IfSome ticks (λ n. (0 < n) × (n ≤ MOST_TICKS)) }
    ensures asked { option_map seen result ≡ run_under source.now script.now ticks }
    ensures ticks { IfSome result (λ request. HasTicks (seen request)) }
{
    let ticks = ticks?;
    let source = file_name(source)?;
    let script = file_name(script)?;
    Some(Request::Script {
        source,
        script,
        ticks,
    })
}

/// `SOURCE`.
fn accept_of(words: &[Vec<u8>]) -> Option<Request>
    ensures asked { option_map seen result ≡ accept_of words.now }
    ensures ticks { IfSome result (λ request. HasTicks (seen request)) }
{
    match words {
        [word] => {
            let source = file_name(word)?;
            let work = Work::Accept;
            Some(Request::Source { source, work })
        }
        _ => None,
    }
}

/// `N`.
fn load_of(words: &[Vec<u8>]) -> Option<Request>
    ensures asked { option_map seen result ≡ load_of words.now }
    ensures ticks { IfSome result (λ request. HasTicks (seen request)) }
{
    match words {
        [word] => load_up_to(ticks_of(word)),
        _ => None,
    }
}

/// A load of so many tasks, where there is such a number.
fn load_up_to(number: Option<u64>) -> Option<Request<'static>>
    requires { IfSome number (λ n. (0 < n) × (n ≤ MOST_TICKS)) }
    ensures asked { option_map seen result ≡ load_up_to number }
    ensures ticks { IfSome result (λ request. HasTicks (seen request)) }
{
    let tasks = number?;
    if tasks <= MOST_TASKS as u64 {
        Some(Request::Load {
            tasks: tasks as u32,
        })
    } else {
        None
    }
}

/// `TABLE`.
fn test_of(test: TableTest, words: &[Vec<u8>]) -> Option<Request>
    ensures asked { option_map seen result ≡ test_of test words.now }
    ensures ticks { IfSome result (λ request. HasTicks (seen request)) }
{
    match words {
        [word] => {
            let table = file_name(word)?;
            Some(Request::Table { table, test })
        }
        _ => None,
    }
}

/// `TRACE`.
fn trace_of(work: TraceWork, words: &[Vec<u8>]) -> Option<Request>
    ensures asked { option_map seen result ≡ trace_of work words.now }
    ensures ticks { IfSome result (λ request. HasTicks (seen request)) }
{
    match words {
        [word] => {
            let trace = file_name(word)?;
            Some(Request::Trace { trace, work })
        }
        _ => None,
    }
}

/// A file is named by a word that is not empty and does not begin with a hyphen.
fn file_name(word: &[u8]) -> Option<&[u8]>
    ensures { option_copied result ≡ name_of word.now }
{
    match word {
        [] => None,
        [b'-', ..] => None,
        _ => Some(word),
    }
}

/// A number of ticks or tasks in plain decimal, from 1 to `MOST_TICKS`, without leading zeros.
fn ticks_of(word: &[u8]) -> Option<u64>
    ensures ticks { result ≡ ticks_of word.now }
    ensures bounds { IfSome result (λ n. (0 < n) × (n ≤ MOST_TICKS)) }
{
    match word {
        [first @ b'1'..=b'9', digits @ ..] => ticks_from((*first - b'0') as u64, digits),
        _ => None,
    }
}

/// The number with these digits behind a number, up to `MOST_TICKS`.
fn ticks_from(so_far: u64, digits: &[u8]) -> Option<u64>
    requires positive { 0 < so_far }
    requires bounded { so_far ≤ MOST_TICKS }
    ensures ticks { result ≡ ticks_from so_far digits.now }
    ensures bounds { IfSome result (λ n. (0 < n) × (n ≤ MOST_TICKS)) }
{
    match digits {
        [] => Some(so_far),
        [digit @ b'0'..=b'9', rest @ ..] => {
            let more = so_far * 10 + (*digit - b'0') as u64;
            if more <= MOST_TICKS {
                ticks_from(more, rest)
            } else {
                None
            }
        }
        _ => None,
    }
}
