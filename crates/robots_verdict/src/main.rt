//! The program for scripts: it prints which URLs a crawler may fetch, by a robots.txt file.
//!
//! Standard input is a line with the crawler's name, a line for each URL, an empty line, and then
//! the bytes of the file. The output has a line with the delay in microseconds, a line for each
//! sitemap, and a line for each URL: `allow` or `deny`, the number of the line that decides or `-`
//! if none does, and the URL.
#![tactic(auto)]

mod ending;
mod fault;
mod header;
mod program;
mod report;
mod theorems;
mod verdicts;

use ending::exit_of;
use program::run;
use std::process::ExitCode;

fn main(rt: HostRuntime) -> ExitCode {
    let ending = exit_of(&run(rt.alloc(), &mut rt.stdin(), &mut rt.stdout()));
    if let Some(text) = ending.text {
        let _ = rt.eprintln(text);
    }
    ExitCode::from(ending.status)
}
