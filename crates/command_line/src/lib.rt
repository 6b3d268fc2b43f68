//! The command lines of the bench and of the verifier: what their words ask for. A table has the
//! commands with their files and options. `clap`, told a program's rows of the table, reads the
//! words, writes help, and says what is wrong.
#![tactic(auto)]

ghost use Rattle.std.specs.Prelude.{map, MatchResult};
ghost use Rattle.command_line.specs.Command.{bench, verifier};
ghost use Rattle.command_line.specs.Lines as spec;
ghost use Rattle.command_line.specs.Lines.{IsLine, IsHistoryLine};

mod command;
mod help;
mod line_fault;
mod lines;
mod reading;
mod table;
mod values;

use crate::command::program;
use crate::help::{explain, fault_of};
use crate::reading::{bench_line, verifier_line};
use crate::table::{BENCH_COMMANDS, HISTORY_COMMANDS};
pub use line_fault::LineFault;
pub use lines::{
    CheckLine, FilesLine, FolderLine, HistoryLine, Line, RefuteLine, RunOptions, SearchLine,
    SplitLine, VerifyLine,
};
use std::alloc::Global;
use std::convert::AsStr;

/// Returns what the arguments ask of the bench, the program's name being the first of them.
pub fn line<S: AsStr>(alloc: Global, words: &[S]) -> Result<Line, LineFault>
    ensures { MatchResult result (spec.AskFor bench IsLine (map S.text words.now))
        (spec.IsLineFault bench IsLine (map S.text words.now)) }
{
    match program(alloc, BENCH_COMMANDS.as_slice())?.try_get_matches_from(words) {
        Ok(matches) => match bench_line(alloc, matches.subcommand()) {
            Ok(line) => Ok(line),
            Err(unfit) => Err(explain(alloc, &unfit)),
        },
        Err(error) => Err(fault_of(alloc, &error)),
    }
}

/// Returns what the arguments ask of the verifier, the program's name being the first of them.
pub fn history_line<S: AsStr>(alloc: Global, words: &[S]) -> Result<HistoryLine, LineFault>
    ensures { MatchResult result (spec.AskFor verifier IsHistoryLine (map S.text words.now))
        (spec.IsLineFault verifier IsHistoryLine (map S.text words.now)) }
{
    match program(alloc, HISTORY_COMMANDS.as_slice())?.try_get_matches_from(words) {
        Ok(matches) => match verifier_line(alloc, matches.subcommand()) {
            Ok(history_line) => Ok(history_line),
            Err(unfit) => Err(explain(alloc, &unfit)),
        },
        Err(error) => Err(fault_of(alloc, &error)),
    }
}
