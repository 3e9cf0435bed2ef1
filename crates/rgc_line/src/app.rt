//! The commands, as `clap` has them.

ghost use Rattle.std.specs.Prelude.{◌≡◌, false, IfOk, map};
ghost use Rattle.clap.specs.Words.{app_of, rule_of};
ghost use Rattle.rgc_line.specs.App.{rgc_top, rgc_app};
ghost use Rattle.rgc_line.specs.Inner.Table.{rule_at, shape_at, with_subcommands, IsLeafOf};

use crate::commands::{COMMANDS, Field, Form, Row};
use crate::help::{about, help_of, overview};
use clap::{Arg, ArgAction, Command};
use std::alloc::{AllocError, Global};

/// A file or an option, with what is said of it.
fn argument<'a>(alloc: Global, field: &Field, help: &'a str) -> Arg<'a>
    ensures rule { rule_of result ≡ rule_at field.now }
    ensures local { result.global ≡ false }
{
    let argument = Arg::new(alloc, field.id).help(help);
    match field.form {
        Form::File => argument.required(true),
        Form::Place => argument,
        Form::Files => argument.required(true).num_args(1..),
        Form::Places => argument.num_args(1..),
        Form::OptionalFile => argument.long(field.id).value_name("FILE"),
        Form::RepeatedFile => argument
            .long(field.id)
            .value_name("FILE")
            .action(ArgAction::Append),
        Form::OptionalText => argument.long(field.id).value_name("WORD"),
        Form::OptionalNumber => argument
            .long(field.id)
            .value_name("K")
            .value_parser(clap::value_parser!(u64)),
        Form::NeededNumber => argument
            .required(true)
            .value_parser(clap::value_parser!(u64)),
        Form::NumberOrMillion => argument
            .long(field.id)
            .value_name("N")
            .value_parser(clap::value_parser!(u64))
            .default_value("1000000"),
        Form::Flag => argument.long(field.id).action(ArgAction::SetTrue),
    }
}

/// The command of a row.
fn leaf<'a>(alloc: Global, row: &Row) -> Result<Command<'a>, AllocError>
    ensures { IfOk result (IsLeafOf row.now) }
{
    let help = help_of(row.kind);
    let mut command = Command::new(alloc, row.name)
        .about(help.about)
        .after_help(help.more);
    for field in row.fields {
        let text = help.of(field.id);
        command = command.arg(argument(alloc, field, text))?;
    }
    Ok(command)
}

/// The command with no subcommands.
fn rgc_alone<'a>(alloc: Global) -> Command<'a>
    ensures { app_of result ≡ rgc_top }
{
    Command::new(alloc, "rgc")
        .version("0.1.0")
        .about(about())
        .after_help(overview())
        .subcommand_required(true)
}

/// The command with a subcommand for each row.
fn with_rows<'a>(alloc: Global, rows: &[Row]) -> Result<Command<'a>, AllocError>
    ensures { IfOk result (λ c. app_of c ≡ with_subcommands rgc_top (map shape_at rows.now)) }
{
    let mut command = rgc_alone(alloc);
    for row in rows {
        let leaf = leaf(alloc, row)?;
        command = command.subcommand(leaf)?;
    }
    Ok(command)
}

/// The whole command.
#[tactic(auto, unfolding(crate::specs::App::rgc_app))]
pub fn rgc_command<'a>(alloc: Global) -> Result<Command<'a>, AllocError>
    ensures { IfOk result (λ c. app_of c ≡ rgc_app) }
{
    with_rows(alloc, &COMMANDS)
}
