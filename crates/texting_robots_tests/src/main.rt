//! Calls of public functions that neither another program nor the C library calls, or not with
//! these inputs: others have golden cases (`tests/golden`) and tests in C (`tests/host.c`). There
//! are no test functions, since a program with some is proved twice.
//!
//! The program makes the calls of a table, or the one that standard input names, and prints whether
//! the result is right. `tests/test_allocation_failures.py` makes allocations fail; then it can
//! also print `out of memory`.
//!
//! `texting_robots_tests CALLS FILE NUMBER WORD TEXT..` prints what other calls return for each
//! text, or without one for that of the file: inputs and results are data of `tests/test_calls.py`.
#![tactic(auto)]

mod calls;
mod example;
mod flush;
mod show;
mod standard;

use calls::{CALLS, Call, answer};
use show::{Given, shows};
use std::io::Read;
use std::process::ExitCode;
use std::{env, fs, str};
use texting_robots::Error;

/// Prints the outcome of the call. The result is whether it is acceptable.
fn makes_call(rt: &HostRuntime, name: &str, call: &Call) -> bool {
    let (word, may_be) = match answer(rt.alloc(), call) {
        Ok(true) => ("right", true),
        Ok(false) => ("WRONG", false),
        Err(Error::Memory) => ("out of memory", true),
        Err(Error::InvalidRobots | Error::InvalidRule) => ("WRONG ERROR", false),
    };
    println!(rt; "{name}: {word}").is_ok() && may_be
}

/// Makes the call that the line on standard input names, or all if there is none.
fn makes_calls(rt: &HostRuntime, line: &[u8]) -> bool {
    let mut well = true;
    for (name, call) in CALLS {
        if line.is_empty() || line.strip_suffix(b"\n") == Some(name.as_bytes()) {
            well &= makes_call(rt, name, call);
        }
    }
    well
}

/// Prints what the calls of this name return for the text, or their error.
fn shows_text(rt: &HostRuntime, name: &str, given: &Given<'_>, text: &str) -> bool {
    match shows(rt, name, given, text) {
        Ok(shown) => shown,
        Err(error) => println!(rt; "{error}").is_ok(),
    }
}

/// Prints for each text; without one, the file is the text.
fn shows_texts(rt: &HostRuntime, name: &str, given: &Given<'_>, texts: &[String]) -> bool {
    if texts.is_empty() {
        return match str::from_utf8(given.file) {
            Ok(text) => shows_text(rt, name, given, text),
            Err(_) => false,
        };
    }
    let mut well = true;
    for text in texts {
        well &= shows_text(rt, name, given, text);
    }
    well
}

/// Obeys the command line; without words it makes all calls of the table.
fn obeys(rt: &HostRuntime, words: &[String]) -> bool {
    let [_, name, path, number, word, texts @ ..] = words else {
        return makes_calls(rt, b"");
    };
    match (fs::read(rt, path.as_str()), number.parse()) {
        (Ok(file), Ok(number)) => {
            let given = Given {
                file: &file,
                number,
                word,
            };
            shows_texts(rt, name, &given, texts)
        }
        _ => false,
    }
}

/// By the line on standard input or, without one, by the command line.
fn is_well(rt: &HostRuntime) -> bool {
    let mut buffer = [0; 80];
    match rt.stdin().read(&mut buffer) {
        Ok(0) => match env::args(rt) {
            Ok(args) => match args.collect::<Vec<String>>(rt.alloc()) {
                Ok(words) => obeys(rt, words.as_slice()),
                Err(_) => false,
            },
            Err(_) => false,
        },
        Ok(count) => makes_calls(rt, &buffer[..count]),
        Err(_) => false,
    }
}

fn main(rt: HostRuntime) -> ExitCode {
    if is_well(&rt) {
        ExitCode::SUCCESS
    } else {
        ExitCode::FAILURE
    }
}
