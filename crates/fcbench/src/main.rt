//! `fcbench` as a bench: runs clients on the desk, plays schedules, and checks what they did.
#![tactic(auto)]

use bench_commands::{In, Line, NamedFile, Status, WhichSource, line, perform_over};
use edn::Out;
use file_commands::{
    Host, print_version, report_no_words, report_refusal, report_unreadable, watched, words_of,
};
use std::io;
use std::io::IsTerminal;
use std::process::ExitCode;
use std::rt::Env;

/// The names of the files of a command. Where it has none, the name is empty.
fn files_of(line: &Line) -> (&str, &str) {
    match line {
        Line::Check(line) => (&line.history, &line.certificates),
        Line::Search(line) => (&line.history, ""),
        Line::Run(_) => ("", ""),
        Line::Simulate { schedule } => (schedule, ""),
    }
}

/// Does the command on its files.
fn run_line<R: Host>(rt: &R, line: &Line) -> io::Result<u8> {
    let (first_name, second_name) = files_of(line);
    let mut first = In::new(NamedFile::new(rt, first_name));
    let mut second = In::new(NamedFile::new(rt, second_name));
    let mut output = Out::new(io::writer(rt));
    match perform_over(rt, rt.alloc(), line, &mut first, &mut second, &mut output) {
        Ok(status) => Ok(status),
        Err(WhichSource::First) => {
            report_unreadable(rt, first_name, first.is_allocation_failure())
        }
        Err(WhichSource::Second) => {
            report_unreadable(rt, second_name, second.is_allocation_failure())
        }
    }
}

/// Does what the words ask for.
fn run_words<R: Host>(rt: &R, words: &[String]) -> io::Result<u8> {
    if let Some(status) = print_version(rt, words)? {
        return Ok(status);
    }
    match line(rt.alloc(), words) {
        Ok(line) => run_line(rt, &line),
        Err(fault) => report_refusal(rt, &fault),
    }
}

/// Reads the words of the command line, and does what they ask for.
fn main_status<R: Host + Env>(rt: &R) -> io::Result<u8> {
    match words_of(rt) {
        Ok(words) => run_words(rt, &words),
        Err(error) => report_no_words(rt, &error),
    }
}

fn main(rt: HostRuntime) -> ExitCode {
    let may_watch = rt.stderr().is_terminal();
    let rt = &rt;
    ExitCode::from(watched(
        rt,
        may_watch,
        || main_status(rt).unwrap_or(Status::Failed.number()),
    ))
}
