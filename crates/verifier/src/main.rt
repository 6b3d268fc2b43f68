//! The verifier, which judges histories of concurrent objects: `check`, `search`, `refute`,
//! `verify`, `split` and `merge`.
#![tactic(auto)]

mod shard_folder;

use crate::shard_folder::{CountsFault, MakeFault, ShardFolder, ending_of};
use command_line::{FilesLine, FolderLine, HistoryLine, SplitLine, history_line};
use edn::Out;
use file_commands::{
    Host, In, NamedFile, SplitEnd, SplitFailure, Status, UnreadShard, WhichSource, merge_shards,
    merge_statuses, perform_on_files, print_version, report_no_memory, report_no_words,
    report_refusal, report_unreadable, report_unwritten, shards_needed, split_history, watched,
    words_of,
};
use std::io;
use std::io::IsTerminal;
use std::process::ExitCode;
use std::rt::Env;

/// The names of the files of a command. Where it has one, the other name is empty.
fn files_of(line: &FilesLine) -> (&str, &str) {
    match line {
        FilesLine::Check(line) => (&line.history, &line.certificates),
        FilesLine::Search(line) => (&line.history, ""),
        FilesLine::Refute(line) => (&line.history, &line.reasons),
        FilesLine::Verify(line) => (&line.history, &line.evidence),
    }
}

/// Does the command on its files.
fn run_on_files<R: Host>(rt: &R, line: &FilesLine) -> io::Result<u8> {
    let (first_name, second_name) = files_of(line);
    let mut first = In::new(NamedFile::new(rt, first_name));
    let mut second = In::new(NamedFile::new(rt, second_name));
    let mut output = Out::new(io::writer(rt));
    match perform_on_files(rt, rt.alloc(), line, &mut first, &mut second, &mut output) {
        Ok(status) => Ok(status),
        Err(WhichSource::First) => {
            report_unreadable(rt, first_name, first.is_allocation_failure())
        }
        Err(WhichSource::Second) => {
            report_unreadable(rt, second_name, second.is_allocation_failure())
        }
    }
}

/// Says how many shards an object needs.
fn report_few_shards<R: Print>(rt: &R, object: u32) -> io::Result<u8> {
    let shards = shards_needed(object);
    rt.println(format_args!("object {object}: {shards} shards or more are needed"))?;
    Ok(Status::Undecided.number())
}

/// Says why the folder of a split is refused.
fn report_unmade<R: Print + Eprint>(rt: &R, name: &str, fault: &MakeFault) -> io::Result<u8> {
    match fault {
        MakeFault::Taken(path) => {
            rt.eprintln(format_args!(
                "fcbench: cannot write {name}: {path} is there already, maybe of another split"
            ))?;
            Ok(Status::Failed.number())
        }
        MakeFault::Failed(error) => {
            report_unwritten(rt, name, error.kind() == io::ErrorKind::OutOfMemory)
        }
    }
}

/// Whether a split that ended with this status divided the history. With 3 it did, but a shard is
/// too large for one text: an allocation failure is `SplitFailure::NoMemory`.
fn is_divided(status: u8) -> bool {
    status == Status::Yes.number() || status == Status::Undecided.number()
}

/// Divides a history into shards in a folder that has none. If it is not divided, its files are
/// removed as far as that is possible, and there is no file `shards`.
fn split<R: Host>(rt: &R, line: &SplitLine) -> io::Result<u8> {
    let (history, name) = (line.history.as_str(), line.folder.as_str());
    let shards = line.shards;
    let mut folder = ShardFolder::new(rt, rt.alloc(), name);
    if let Err(fault) = folder.make(shards) {
        return report_unmade(rt, name, &fault);
    }
    let mut source = In::new(NamedFile::new(rt, history));
    let mut output = Out::new(io::writer(rt));
    let done = split_history(rt.alloc(), &mut source, &mut folder, shards, &mut output);
    let is_whole = match &done {
        Ok(SplitEnd { status, counts }) => {
            is_divided(*status) && folder.complete(shards, counts).is_ok()
        }
        Err(_) => false,
    };
    if !is_whole {
        folder.remove(shards);
    }
    match done {
        // Its lines are printed already, so no line about memory is printed.
        Ok(end) if is_divided(end.status) && !is_whole => report_unwritten(rt, name, false),
        Ok(end) => Ok(end.status),
        Err(SplitFailure::Unread) => report_unreadable(rt, history, source.is_allocation_failure()),
        Err(SplitFailure::Unwritten) => report_unwritten(rt, name, folder.is_allocation_failure()),
        Err(SplitFailure::TooFewShards(object)) => report_few_shards(rt, object),
        Err(SplitFailure::NoMemory) => report_no_memory(rt),
    }
}

/// Says why it is not known how many maps the shards in a folder were given.
fn report_uncounted<R: Print + Eprint>(rt: &R, name: &str, fault: CountsFault) -> io::Result<u8> {
    match fault {
        CountsFault::NoMemory => return report_no_memory(rt),
        CountsFault::Unread => rt.eprintln(format_args!("fcbench: cannot read {name}/shards"))?,
        CountsFault::Misfit => rt.eprintln(format_args!(
            "fcbench: cannot read {name}/shards: it does not say how many maps each shard has, \
             since it was changed, or an older split wrote it: split the history again"
        ))?,
    }
    Ok(Status::Failed.number())
}

/// Verifies the shards in a folder, or trusts the exit status of each.
fn merge<R: Host>(rt: &R, name: &str, steps: u32, trust_statuses: bool) -> io::Result<u8> {
    let folder = ShardFolder::new(rt, rt.alloc(), name);
    let counts = match folder.counts() {
        Ok(counts) => counts,
        Err(fault) => return report_uncounted(rt, name, fault),
    };
    let shards = counts.len() as u16;
    let mut output = Out::new(io::writer(rt));
    let merged = if trust_statuses {
        merge_statuses(rt.alloc(), &folder, shards, &mut output)
    } else {
        merge_shards(rt.alloc(), &folder, shards, &counts, steps, &mut output)
    };
    match merged {
        Ok(status) => Ok(status),
        Err(UnreadShard { shard, file }) => {
            let ending = ending_of(file);
            rt.eprintln(format_args!("fcbench: cannot read {name}/{shard}.{ending}"))?;
            Ok(Status::Failed.number())
        }
    }
}

/// Does the command on its folder.
fn run_on_folder<R: Host>(rt: &R, line: &FolderLine) -> io::Result<u8> {
    match line {
        FolderLine::Split(line) => split(rt, line),
        FolderLine::Merge {
            folder,
            steps,
            trust_statuses,
        } => merge(rt, folder, *steps, *trust_statuses),
    }
}

/// Does the command.
fn run_line<R: Host>(rt: &R, line: &HistoryLine) -> io::Result<u8> {
    match line {
        HistoryLine::OnFiles(line) => run_on_files(rt, line),
        HistoryLine::OnFolder(line) => run_on_folder(rt, line),
    }
}

/// Does what the words ask for.
fn run_words<R: Host>(rt: &R, words: &[String]) -> io::Result<u8> {
    if let Some(status) = print_version(rt, words)? {
        return Ok(status);
    }
    match history_line(rt.alloc(), words) {
        Ok(line) => run_line(rt, &line),
        Err(fault) => report_refusal(rt, &fault),
    }
}

/// Reads the words of the command line, and does what they ask for.
fn main_status<R: Host + Env>(rt: &R) -> io::Result<u8> {
    match words_of(rt) {
        Ok(words) => run_words(rt, &words),
        Err(error) => report_no_words(rt, &error),
    }
}

fn main(rt: HostRuntime) -> ExitCode {
    let may_watch = rt.stderr().is_terminal();
    let rt = &rt;
    ExitCode::from(watched(
        rt,
        may_watch,
        || main_status(rt).unwrap_or(Status::Failed.number()),
    ))
}
