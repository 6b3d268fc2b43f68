//! The line of the command that `clap` found in the words.

ghost use Rattle.std.specs.Prelude.{codes, option_map};
ghost use Rattle.command_line.specs.Lines as spec;
ghost use Rattle.command_line.specs.Lines.{rows_in};

use crate::lines::HistoryLine::{OnFiles, OnFolder};
use crate::lines::{
    CheckLine, FilesLine, FolderLine, HistoryLine, Line, RefuteLine, RunOptions, SearchLine,
    SplitLine, VerifyLine,
};
use crate::table::{CALLS, CLIENTS, OBJECTS, SEED, SHARDS, STEPS, WORKERS};
use crate::values::{Unfit, file_of, files_of, is_given, kinds_of, number_of, try_first_of};
use clap::ArgMatches;
use std::alloc::Global;

fn check_of(alloc: Global, found: &ArgMatches<'_>) -> Result<CheckLine, Unfit>
    ensures { spec.IsRead (spec.IsCheckLine (rows_in found.now)) result }
{
    let (history, certificates) = files_of(alloc, found, "CERTS")?;
    let workers = number_of(found, "workers", WORKERS)? as u32;
    Ok(CheckLine {
        history,
        certificates,
        workers,
    })
}

fn search_of(alloc: Global, found: &ArgMatches<'_>) -> Result<SearchLine, Unfit>
    ensures { spec.IsRead (spec.IsSearchLine (rows_in found.now)) result }
{
    let history = file_of(alloc, found, "HISTORY")?;
    let steps = number_of(found, "steps", STEPS)? as u32;
    let try_first = try_first_of(found)?;
    Ok(SearchLine {
        history,
        steps,
        try_first,
    })
}

fn refute_of(alloc: Global, found: &ArgMatches<'_>) -> Result<RefuteLine, Unfit>
    ensures { spec.IsRead (spec.IsRefuteLine (rows_in found.now)) result }
{
    let (history, reasons) = files_of(alloc, found, "REASONS")?;
    let steps = number_of(found, "steps", STEPS)? as u32;
    Ok(RefuteLine {
        history,
        reasons,
        steps,
    })
}

fn verify_of(alloc: Global, found: &ArgMatches<'_>) -> Result<VerifyLine, Unfit>
    ensures { spec.IsRead (spec.IsVerifyLine (rows_in found.now)) result }
{
    let (history, evidence) = files_of(alloc, found, "EVIDENCE")?;
    let steps = number_of(found, "steps", STEPS)? as u32;
    let workers = number_of(found, "workers", WORKERS)? as u32;
    Ok(VerifyLine {
        history,
        evidence,
        steps,
        workers,
    })
}

/// The options of `run`.
fn options_of(found: &ArgMatches<'_>) -> Result<RunOptions, Unfit>
    ensures { spec.IsRead (spec.AreRunOptions (rows_in found.now)) result }
{
    let kinds = kinds_of(found)?;
    let objects = number_of(found, "objects", OBJECTS)? as u32;
    let clients = number_of(found, "clients", CLIENTS)? as u32;
    let calls = number_of(found, "calls", CALLS)? as u32;
    let seed = number_of(found, "seed", SEED)?;
    Ok(RunOptions {
        kinds,
        objects,
        clients,
        calls,
        seed,
    })
}

fn split_of(alloc: Global, found: &ArgMatches<'_>) -> Result<SplitLine, Unfit>
    ensures { spec.IsRead (spec.IsSplitLine (rows_in found.now)) result }
{
    let (history, folder) = files_of(alloc, found, "FOLDER")?;
    let shards = number_of(found, "shards", SHARDS)? as u16;
    Ok(SplitLine {
        history,
        folder,
        shards,
    })
}

fn merge_of(alloc: Global, found: &ArgMatches<'_>) -> Result<FolderLine, Unfit>
    ensures { spec.IsRead (spec.IsFolderLine (codes "merge") (rows_in found.now)) result }
{
    let folder = file_of(alloc, found, "FOLDER")?;
    let steps = number_of(found, "steps", STEPS)? as u32;
    let trust_statuses = is_given(found, "trust-statuses");
    Ok(FolderLine::Merge {
        folder,
        steps,
        trust_statuses,
    })
}

/// The bench's line of the command that was found.
pub(crate) fn bench_line(
    alloc: Global,
    command: Option<(&str, &ArgMatches<'_>)>,
) -> Result<Line, Unfit>
    ensures { spec.IsRead (spec.Finds spec.IsLine
        (option_map (λ c. (c.0.now, rows_in c.1.now)) command.entry)) result }
{
    let Some((name, found)) = command else {
        return Err(Unfit::NoCommand);
    };
    match name {
        "check" => Ok(Line::Check(check_of(alloc, found)?)),
        "search" => Ok(Line::Search(search_of(alloc, found)?)),
        "run" => Ok(Line::Run(options_of(found)?)),
        "simulate" => Ok(Line::Simulate {
            schedule: file_of(alloc, found, "SCHEDULE")?,
        }),
        _ => Err(Unfit::NoCommand),
    }
}

/// The verifier's line of the command that was found.
pub(crate) fn verifier_line(
    alloc: Global,
    command: Option<(&str, &ArgMatches<'_>)>,
) -> Result<HistoryLine, Unfit>
    ensures { spec.IsRead (spec.Finds spec.IsHistoryLine
        (option_map (λ c. (c.0.now, rows_in c.1.now)) command.entry)) result }
{
    let Some((name, found)) = command else {
        return Err(Unfit::NoCommand);
    };
    match name {
        "check" => Ok(OnFiles(FilesLine::Check(check_of(alloc, found)?))),
        "search" => Ok(OnFiles(FilesLine::Search(search_of(alloc, found)?))),
        "refute" => Ok(OnFiles(FilesLine::Refute(refute_of(alloc, found)?))),
        "verify" => Ok(OnFiles(FilesLine::Verify(verify_of(alloc, found)?))),
        "split" => Ok(OnFolder(FolderLine::Split(split_of(alloc, found)?))),
        "merge" => Ok(OnFolder(merge_of(alloc, found)?)),
        _ => Err(Unfit::NoCommand),
    }
}
