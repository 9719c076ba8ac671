//! Reads a script from standard input, line by line, and writes the reply to each of its commands to standard output.
#![tactic(auto)]

use paris_cli::{Tallies, WordsFault, refuse_words, run_words};
use std::env::Env;
use std::process::ExitCode;
use std::{env, io};

/// The words of the command line behind the program's name.
fn words_behind_name<H: Env + AllocGlobal>(rt: &H) -> io::Result<Vec<String>> {
    let mut words = Vec::new(rt.alloc());
    for word in env::args(rt)?.skip(1) {
        words.push(word)?;
    }
    Ok(words)
}

fn main(rt: HostRuntime) -> ExitCode {
    let mut errors = rt.stderr();
    let mut tallies = Tallies::new();
    let status = match words_behind_name(&rt) {
        Ok(words) => {
            let mut reader = rt.stdin();
            let mut writer = rt.stdout();
            run_words(
                &rt,
                words.as_slice(),
                &mut reader,
                &mut writer,
                &mut errors,
                &mut tallies,
            )
        }
        Err(error) => {
            let fault = if error.kind() == io::ErrorKind::OutOfMemory {
                WordsFault::NoMemory
            } else {
                WordsFault::NotText
            };
            refuse_words(&rt, &mut errors, &mut tallies.errors, &fault)
        }
    };
    ExitCode::from(status)
}
