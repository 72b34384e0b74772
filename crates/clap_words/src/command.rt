//! The command line as `clap` is told of it.
ghost use Rattle.std.specs.Prelude.{◌≡◌, IfOk, false};
ghost use Rattle.clap.specs.Words.{app_of, rule_of};
ghost use Rattle.clap.specs.declared.builder.command.Command.TheViews.{out-Command};
ghost use Rattle.clap_words.specs.App.{barrierfs, bulk, make, number, raw_command};

use clap::{Arg, ArgAction, Command};
use std::alloc::{AllocError, Global};

/// All commands, with no help, no version and no program's name before the words.
pub(crate) fn barrierfs<'a>(alloc: Global) -> Result<Command<'a>, AllocError>
    ensures { IfOk result (λ c. app_of c ≡ barrierfs) }
{
    let command = Command::new(alloc, "barrierfs")
        .no_binary_name(true)
        .disable_help_flag(true)
        .disable_help_subcommand(true)
        .disable_version_flag(true)
        .subcommand_required(true);
    let command = command.subcommand(raw_command(alloc, "replay")?)?;
    let command = command.subcommand(raw_command(alloc, "run")?)?;
    let command = command.subcommand(Command::new(alloc, "show"))?;
    let command = command.subcommand(raw_command(alloc, "widen")?)?;
    let command = command.subcommand(Command::new(alloc, "check"))?;
    let command = command.subcommand(Command::new(alloc, "kv"))?;
    let command = command.subcommand(make(alloc)?)?;
    command.subcommand(bulk(alloc)?)
}

// A command that may have `--raw` behind its word.
fn raw_command<'a>(alloc: Global, name: &'a str) -> Result<Command<'a>, AllocError>
    ensures app { IfOk result (λ c. app_of c ≡ raw_command name.entry.now) }
    ensures local { IfOk result (λ c. (out-Command c).has_globals ≡ false) }
{
    let raw = Arg::new(alloc, "raw")
        .long("raw")
        .action(ArgAction::SetTrue);
    Command::new(alloc, name).arg(raw)
}

fn make<'a>(alloc: Global) -> Result<Command<'a>, AllocError>
    ensures app { IfOk result (λ c. app_of c ≡ make) }
    ensures local { IfOk result (λ c. (out-Command c).has_globals ≡ false) }
{
    let make = Command::new(alloc, "make").arg(number(alloc, "I"))?;
    let make = make.arg(number(alloc, "Z"))?;
    make.arg(number(alloc, "J"))
}

fn bulk<'a>(alloc: Global) -> Result<Command<'a>, AllocError>
    ensures app { IfOk result (λ c. app_of c ≡ bulk) }
    ensures local { IfOk result (λ c. (out-Command c).has_globals ≡ false) }
{
    Command::new(alloc, "bulk").arg(number(alloc, "N"))
}

fn number<'a>(alloc: Global, name: &'a str) -> Arg<'a>
    ensures rule { rule_of result ≡ number name.entry.now }
    ensures local { result.global ≡ false }
{
    Arg::new(alloc, name).required(true)
}
