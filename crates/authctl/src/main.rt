//! The command line: undisturbed runs and scripts, from the words to the printed lines.
#![tactic(auto)]

ghost use Rattle.std.specs.Prelude.{◌≡◌};
ghost use Rattle.std.specs.Process.{exit_status};

mod command;
#[cfg(test)]
mod example_tests;
mod offline;
mod online;
mod real;
#[cfg(test)]
mod tests;
mod walk;
mod words;

use offline::{
    BAD_LINE, DONE, NO_COMMAND, NO_MEMORY, READ_FAILED, TOO_LONG, WRITE_FAILED, run_offline,
};
use online::is_online;
use real::{Input, Output};
use std::alloc::Global;
use std::process::ExitCode;
use std::{env, io};

/// The words after the program's name, or the status where they can't be had: a word that is no text is no command.
fn read_words(rt: &HostRuntime) -> Result<Vec<Vec<u8>>, u8> {
    let args = match env::args(rt) {
        Ok(args) => args,
        Err(error) => return Err(status_of(&error)),
    };
    let mut words = Vec::new(rt.alloc());
    for word in args.skip(1) {
        if words.push(word.into_bytes()).is_err() {
            return Err(NO_MEMORY);
        }
    }
    Ok(words)
}

fn status_of(error: &io::Error) -> u8 {
    match error.kind() {
        io::ErrorKind::OutOfMemory => NO_MEMORY,
        _ => NO_COMMAND,
    }
}

/// What a status means, for a person.
fn reason(status: u8) -> &'static str {
    match status {
        NO_COMMAND => "usage: authctl walk MECH A B PART, or authctl replay < SCRIPT",
        READ_FAILED => "authctl: standard input couldn't be read",
        BAD_LINE => "authctl: a line of the script is bad",
        TOO_LONG => "authctl: the script is longer than 1,048,576 bytes or 4,096 lines",
        WRITE_FAILED => "authctl: standard output couldn't be written",
        _ => "authctl: there isn't enough memory",
    }
}

fn run(rt: &HostRuntime) -> u8 {
    let words = match read_words(rt) {
        Ok(words) => words,
        Err(status) => return status,
    };
    if is_online(&words) {
        return NO_COMMAND;
    }
    let mut input = Input::new(rt.reader());
    let mut out = Output::new(io::writer(rt));
    run_offline(rt.alloc(), &words, &mut input, &mut out)
}

/// Ends with a status, and tells a person what it means where it is none of success.
fn end(rt: &HostRuntime, status: u8) -> ExitCode
    ensures status { exit_status result ≡ status }
{
    if status != DONE {
        // There is nobody left to tell where this fails.
        let _ = eprintln!(rt; "{}", reason(status));
    }
    ExitCode::from(status)
}

fn main(rt: HostRuntime) -> ExitCode {
    end(&rt, run(&rt))
}
