//! The program: the words of the command line are those of a command, or `--help`, alone or with the name of a command, or `--version`.
//!
//! All that it promises stands on `command_line`.
#![tactic(auto)]

use command_line::{Progress, command, share_one_file};
use command_words::Status;
use help_text::{HELP, VERSION, command_help, told};
use std::io::IsTerminal;
use std::process::ExitCode;
use std::rt::{Clock, Env, Files};
use std::{env, io};

fn main(rt: HostRuntime) -> ExitCode {
    let progress = if rt.stderr().is_terminal() {
        Progress::Shown
    } else {
        Progress::Hidden
    };
    match words(&rt) {
        Ok(words) => ExitCode::from(answer(&rt, words.as_slice(), progress)),
        // Words that aren't UTF-8 are no command.
        Err(e) if e.kind() == io::ErrorKind::InvalidData => {
            ExitCode::from(command(&rt, &[], progress))
        }
        Err(_) => ExitCode::from(Status::OutOfMemory.code()),
    }
}

/// The words behind the program's name.
fn words<R: Env + AllocGlobal>(rt: &R) -> io::Result<Vec<String>> {
    let mut words = Vec::new(rt.alloc());
    for word in env::args(rt)?.skip(1) {
        words.push(word)?;
    }
    Ok(words)
}

/// The exit status of a command line.
fn answer<R: Files + Clock + Print + Eprint + AllocGlobal>(
    rt: &R,
    words: &[String],
    progress: Progress,
) -> u8 {
    match words {
        [word] if word.as_str() == "--help" => told(rt, HELP),
        [word, verb] if word.as_str() == "--help" => match command_help(verb.as_str()) {
            Some(text) => told(rt, text),
            None => command(rt, words, progress),
        },
        [word] if word.as_str() == "--version" => told(rt, VERSION),
        // Two names of one file are no command.
        _ if share_one_file(rt, words) => command(rt, &[], progress),
        _ => command(rt, words, progress),
    }
}
