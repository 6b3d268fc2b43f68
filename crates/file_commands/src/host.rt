//! What both programs do with the host: words, messages, and the line that says that a command is
//! under way.

use crate::line_fault::status_of_fault;
use command_line::LineFault;
use history_commands::{Status, VERSION};
use std::fs::File;
use std::io;
use std::rt::{Env, Files};
use std::sync::Wait;
use std::sync::atomic::{AtomicBool, Ordering};
use std::thread::{Threads, join, sleep};
use std::time::{Clock, Duration};

/// How many times `watch` checks whether the command is done.
const LOOKS: u32 = 200;

/// The milliseconds between two such checks: one second in all.
const MILLISECONDS_BETWEEN_LOOKS: u64 = 5;

/// What a program uses of the host.
pub trait Host: Files<File = File> + AllocGlobal + Print + Eprint + Clock + Threads + Wait + Sync {}

impl<R: Files<File = File> + AllocGlobal + Print + Eprint + Clock + Threads + Wait + Sync> Host
    for R {}

/// Says that an allocation failed.
pub fn report_no_memory<R: Print>(rt: &R) -> io::Result<u8> {
    rt.println("out of memory")?;
    Ok(Status::OutOfMemory.number())
}

/// Says that the program cannot `verb` the file (read or write it) or, if `no_memory`, that an
/// allocation failed.
fn report_failed<R: Print + Eprint>(
    rt: &R,
    verb: &str,
    name: &str,
    no_memory: bool,
) -> io::Result<u8> {
    if no_memory {
        return report_no_memory(rt);
    }
    rt.eprintln(format_args!("fcbench: cannot {verb} {name}"))?;
    Ok(Status::Failed.number())
}

/// Says that the file could not be read, or that an allocation failed.
pub fn report_unreadable<R: Print + Eprint>(rt: &R, name: &str, no_memory: bool) -> io::Result<u8> {
    report_failed(rt, "read", name, no_memory)
}

/// Says that the file could not be written, or that an allocation failed.
pub fn report_unwritten<R: Print + Eprint>(rt: &R, name: &str, no_memory: bool) -> io::Result<u8> {
    report_failed(rt, "write", name, no_memory)
}

/// Says why the command line is refused. Help goes to standard output.
pub fn report_refusal<R: Print + Eprint>(rt: &R, fault: &LineFault) -> io::Result<u8> {
    match fault {
        LineFault::Help(text) => rt.print(text.as_str())?,
        LineFault::Refused(text) => rt.eprint(text.as_str())?,
        LineFault::NoMemory => return report_no_memory(rt),
    }
    Ok(status_of_fault(fault).number())
}

/// Whether the word after the program's name asks for the version, and is the only one.
fn asks_for_version(words: &[String]) -> bool {
    match words {
        [_, word] => word.as_str() == "--version" || word.as_str() == "-V",
        _ => false,
    }
}

/// Prints the version, if the words ask for it, and returns the exit status.
pub fn print_version<R: Print>(rt: &R, words: &[String]) -> io::Result<Option<u8>> {
    if !asks_for_version(words) {
        return Ok(None);
    }
    rt.println(VERSION)?;
    Ok(Some(Status::Yes.number()))
}

/// The words of the command line, the program's name first.
pub fn words_of<R: AllocGlobal + Env>(rt: &R) -> io::Result<Vec<String>> {
    Ok(std::env::args(rt)?.collect(rt.alloc())?)
}

/// Says why there are no words of the command line.
pub fn report_no_words<R: Print + Eprint>(rt: &R, error: &io::Error) -> io::Result<u8> {
    if error.kind() == io::ErrorKind::OutOfMemory {
        return report_no_memory(rt);
    }
    rt.eprintln("fcbench: an argument is not UTF-8")?;
    Ok(Status::Usage.number())
}

/// Says after a second that the command is under way, unless it is done before. It looks every few
/// milliseconds whether it is done, since the command ends only when this returns: being watched
/// makes no command more than one such pause longer.
fn watch<R: Eprint + Clock>(rt: &R, is_done: &AtomicBool) {
    for _ in 0..LOOKS {
        if is_done.load(Ordering::SeqCst) {
            return;
        }
        sleep(rt, Duration::from_millis(MILLISECONDS_BETWEEN_LOOKS));
    }
    let _ = rt.eprintln("fcbench: under way");
}

/// Does the work and returns its status. If `may_watch`, a second thread says after a second that
/// it is under way.
pub fn watched<R: Host, F: FnOnce() -> u8 + Send>(rt: &R, may_watch: bool, work: F) -> u8
    requires { F.IsAlwaysCallable work }
{
    if !may_watch {
        return work();
    }
    let is_done = AtomicBool::new(false);
    let whole = || {
        let status = work();
        is_done.store(true, Ordering::SeqCst);
        status
    };
    let (status, ()) = join(rt, whole, || watch(rt, &is_done));
    status
}
