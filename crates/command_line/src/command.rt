ghost use Rattle.std.specs.Prelude.{◌≡◌, map, Some, None, IfOk, false, string_bytes};
ghost use Rattle.clap.specs.Words.{app_of, kind_of, rule_of, subcommand_rows_of, takes};
ghost use Rattle.clap.specs.declared.builder.command.Command.TheViews.{out-Command};
ghost use Rattle.ifc_base.specs.Refusals.{OnFault};
ghost use Rattle.command_line.specs.Words.{line_app, input_rule, with_inputs, command_of, command_shown, named, IsGiven, is_fault};

use clap::error::ErrorKind;
use clap::{Arg, ArgMatches, Error};
use ifc_base::Refusal;
use std::alloc::{AllocError, Global};

/// The words aren't taken.
#[derive(Clone, Copy, Debug, PartialEq, Eq)]
pub struct NotTaken;

/// The names of the four inputs.
#[derive(Clone, Copy, Debug)]
pub struct Names<'a> {
    pub schema: &'a str,
    pub specs: &'a str,
    pub model: &'a str,
    pub script: &'a str,
}

/// What the program is to do.
#[derive(Clone, Copy, Debug)]
pub enum Command<'a> {
    /// `replay SCHEMA SPECS MODEL SCRIPT`: to run the script on the model, in the order of its lines.
    Replay(Names<'a>),
}

impl<'a> Command<'a> {
    ghost use Rattle.std.specs.Prelude.{◌≡◌};
    ghost use Rattle.command_line.specs.Words.{command_shown, names_shown};

    /// The names of its inputs.
    pub fn names(self) -> Names<'a>
        ensures { names_shown result ≡ command_shown self.entry }
    {
        match self {
            Command::Replay(names) => names,
        }
    }
}

/// What the words ask for. They don't hold the program's name.
///
/// `NotTaken` comes only where `clap` doesn't take the words. A line that asks for help or for the
/// version isn't taken. `O(n)` for n bytes of words.
pub fn command_in<'a>(alloc: Global, words: &'a [String]) -> Result<Command<'a>, Refusal<NotTaken>>
    ensures taken { IfOk result (λ command. command_of (map string_bytes words.entry.now) ≡ Some (command_shown command)) }
    ensures refused { OnFault result (λ _. (command_of (map string_bytes words.entry.now) ≡ None)
        × (takes line_app (map string_bytes words.entry.now) ≡ false)) }
{
    let Ok(line) = line_command(alloc) else {
        return Err(Refusal::Memory);
    };
    let matches = match line.try_get_matches_from(words) {
        Ok(matches) => matches,
        Err(error) => return Err(refusal_of(&error)),
    };
    Ok(command_from(&matches))
}

/// What an error of the parse is to the caller.
fn refusal_of(error: &Error) -> Refusal<NotTaken>
    ensures { kind_of error.now ≡ ErrorKind.OutOfMemory → is_fault result ≡ false }
{
    match error.kind() {
        ErrorKind::OutOfMemory => Refusal::Memory,
        _ => Refusal::Fault(NotTaken),
    }
}

/// The command that the matches have.
fn command_from<'a>(matches: &ArgMatches<'a>) -> Command<'a>
    requires { IsGiven (subcommand_rows_of matches.now) }
    ensures { named (subcommand_rows_of matches.now) ≡ Some (command_shown result) }
{
    let (_, inner) = matches.subcommand().unwrap();
    Command::Replay(Names {
        schema: inner.get_str("schema").unwrap(),
        specs: inner.get_str("specs").unwrap(),
        model: inner.get_str("model").unwrap(),
        script: inner.get_str("script").unwrap(),
    })
}

/// The whole command.
fn line_command<'a>(alloc: Global) -> Result<clap::Command<'a>, AllocError>
    ensures { IfOk result (λ c. app_of c ≡ line_app) }
{
    clap::Command::new(alloc, "ids_live")
        .no_binary_name(true)
        .subcommand_required(true)
        .disable_help_subcommand(true)
        .subcommand(with_inputs(alloc, clap::Command::new(alloc, "replay"))?)
}

/// The command with the four inputs as required positionals.
fn with_inputs<'a>(
    alloc: Global,
    command: clap::Command<'a>,
) -> Result<clap::Command<'a>, AllocError>
    ensures app { IfOk result (λ c. app_of c ≡ with_inputs (app_of command.entry)) }
    ensures local { IfOk result (λ c. (out-Command c).has_globals ≡ (out-Command command.entry).has_globals) }
{
    command
        .arg(input(alloc, "schema"))?
        .arg(input(alloc, "specs"))?
        .arg(input(alloc, "model"))?
        .arg(input(alloc, "script"))
}

fn input<'a>(alloc: Global, id: &'a str) -> Arg<'a>
    ensures rule { rule_of result ≡ input_rule id.entry.now }
    ensures local { result.global ≡ false }
{
    Arg::new(alloc, id).required(true)
}
