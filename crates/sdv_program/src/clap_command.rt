//! The program as `clap` knows it, made from the table of commands.
ghost use Rattle.std.specs.Prelude.{◌≡◌, IfOk, [], false, fold, true};
ghost use Rattle.clap.specs.Words.{App, app_of, rule_of};
ghost use Rattle.sdv_program.specs.Commands.{seen_command, seen_word};
ghost use Rattle.sdv_program.specs.CommandLine.{app_for, command_line, program_shape, rule_for, with_command, with_word};

use crate::table::{COMMANDS, CommandEntry, Word};
use clap::{Arg, ArgAction, Command};
use std::alloc::{AllocError, Global};

/// The program with all of its commands.
pub fn program_command<'a>(alloc: Global) -> Result<Command<'a>, AllocError>
    ensures { IfOk result (λ command. app_of command ≡ command_line) }
{
    with_commands(alloc, top_command(alloc), &COMMANDS)
}

fn top_command<'a>(alloc: Global) -> Command<'a>
    ensures { app_of result ≡ record { top = program_shape; subs = [] } }
{
    Command::new(alloc, "sdv")
        .no_binary_name(true)
        .subcommand_required(true)
        .disable_help_subcommand(true)
}

fn with_commands<'a>(
    alloc: Global,
    program: Command<'a>,
    entries: &'static [CommandEntry],
) -> Result<Command<'a>, AllocError>
    ensures { IfOk result (λ command. app_of command
        ≡ fold (λ (app : App) entry. with_command app (seen_command entry)) (app_of program.entry) entries.now) }
{
    let mut program = program;
    for entry in entries {
        program = program.subcommand(command_of(alloc, entry)?)?;
    }
    Ok(program)
}

fn command_of<'a>(alloc: Global, entry: &'static CommandEntry) -> Result<Command<'a>, AllocError>
    ensures app { IfOk result (λ command. app_of command ≡ app_for (seen_command entry.now)) }
    ensures plain { IfOk result (λ command. (app_of command).top.is_plain ≡ true) }
{
    let mut command = Command::new(alloc, entry.name);
    for word in entry.words {
        command = command.arg(arg_of(alloc, *word))?;
    }
    Ok(command)
}

fn arg_of<'a>(alloc: Global, word: Word) -> Arg<'a>
    ensures rule { rule_of result ≡ rule_for (seen_word word) }
    ensures local { result.global ≡ false }
{
    match word {
        Word::Required(name, _) => Arg::new(alloc, name).required(true),
        Word::Optional(name, _) => Arg::new(alloc, name),
        Word::Several(name, _) => Arg::new(alloc, name).required(true).num_args(1..),
        Word::WithValue(name, _, _) => Arg::new(alloc, name).long(name),
        Word::Each(name, _, _) => Arg::new(alloc, name).long(name).action(ArgAction::Append),
        Word::Flag(name, _) => Arg::new(alloc, name).long(name).action(ArgAction::SetTrue),
    }
}
