//! The command that `clap` is given, built from the table.

ghost use Rattle.std.specs.Prelude.{◌≡◌, ◌||◌, IfOk, false, map, codes};
ghost use Rattle.clap.specs.Words.{app_of, new_app, rule_of};
ghost use Rattle.clap.specs.declared.builder.command.Command.TheViews.{out-Command as fields_of};
ghost use Rattle.command_line.specs.Command as spec;

use crate::table::{CommandRow, FileRow, OptionRow, Takes};
use clap::builder::ValueParser;
use clap::{Arg, ArgAction, Command};
use std::alloc::{AllocError, Global};

/// A required argument that is the name of a file.
fn file_argument<'a>(alloc: Global, name: &'a str, help: &'a str) -> Arg<'a>
    ensures rule { rule_of result ≡ spec.file_rule name.entry.now }
    ensures local { result.global ≡ false }
{
    Arg::new(alloc, name).help(help).required(true)
}

/// The option, which takes these values.
fn with_values<'a>(option: Arg<'a>, takes: Takes) -> Arg<'a>
    requires { (option.value_parser ≡ None) × (option.action ≡ None) }
    ensures { result ≡ record option.entry {
      value_parser = spec.parser_of takes;
      action = spec.action_of takes;
    } }
{
    match takes {
        Takes::Number(bounds) => {
            option.value_parser(ValueParser::unsigned(bounds.least, bounds.most))
        }
        Takes::Kind | Takes::TryFirst => option,
        Takes::Nothing => option.action(ArgAction::SetTrue),
    }
}

fn option_argument<'a>(alloc: Global, name: &'a str, help: &'a str, takes: Takes) -> Arg<'a>
    ensures rule { rule_of result ≡ spec.option_rule (name.entry.now, takes) }
    ensures local { result.global ≡ false }
{
    with_values(Arg::new(alloc, name).long(name).help(help), takes)
}

/// A command with these files.
fn with_files<'a>(
    alloc: Global,
    mut command: Command<'a>,
    files: &[FileRow],
) -> Result<Command<'a>, AllocError>
    ensures shape { IfOk result (λ c. app_of c ≡ spec.with_rules (app_of command.entry)
        (map spec.file_rule (map (λ f. f.0.now) files.now))) }
    ensures globals { IfOk result (λ c. (fields_of c).has_globals
        ≡ (fields_of command.entry).has_globals) }
{
    for file in files {
        command = command.arg(file_argument(alloc, file.0, file.1))?;
    }
    Ok(command)
}

/// A command with these options.
fn with_options<'a>(
    alloc: Global,
    mut command: Command<'a>,
    options: &[OptionRow],
) -> Result<Command<'a>, AllocError>
    ensures shape { IfOk result (λ c. app_of c ≡ spec.with_rules (app_of command.entry)
        (map spec.option_rule (map (λ o. (o.0.now, o.2)) options.now))) }
    ensures globals { IfOk result (λ c. (fields_of c).has_globals
        ≡ (fields_of command.entry).has_globals) }
{
    for option in options {
        let (name, help, takes) = *option;
        command = command.arg(option_argument(alloc, name, help, takes))?;
    }
    Ok(command)
}

/// A command of the table, with its files and its options.
fn command_of<'a>(alloc: Global, row: &CommandRow) -> Result<Command<'a>, AllocError>
    ensures shape { IfOk result (λ c. app_of c ≡ spec.command_of row.now.0.now
        (map (λ f. f.0.now) row.now.2.now) (map (λ o. (o.0.now, o.2)) row.now.3.now)) }
    ensures globals { IfOk result (λ c. (fields_of c).has_globals ≡ false) }
{
    let (name, about, files, options) = *row;
    let command = Command::new(alloc, name).about(about);
    with_options(alloc, with_files(alloc, command, files)?, options)
}

/// The program, with these commands.
pub(crate) fn program<'a>(alloc: Global, rows: &[CommandRow]) -> Result<Command<'a>, AllocError>
    ensures { IfOk result (λ c. app_of c ≡ spec.program_of (map (λ row. spec.command_of row.0.now
        (map (λ f. f.0.now) row.2.now) (map (λ o. (o.0.now, o.2)) row.3.now)) rows.now)) }
{
    let mut program = Command::new(alloc, "fcbench")
        .about("judges histories of concurrent objects")
        .subcommand_required(true);
    for row in rows {
        program = program.subcommand(command_of(alloc, row)?)?;
    }
    Ok(program)
}
