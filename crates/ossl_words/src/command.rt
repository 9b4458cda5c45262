//! The command by which `clap` splits the words.

ghost use Rattle.std.specs.Prelude.{◌≡◌, IfOk, false};
ghost use Rattle.clap.specs.Words.{app_of, rule_of};
ghost use Rattle.clap.specs.declared.builder.command.Command.TheViews.{out-Command as fields_of};
ghost use Rattle.ossl_words.specs.Apps.{option_arg, run_app, gen_app, words_app};

use clap::{Arg, ArgAction, Command};
use std::alloc::{AllocError, Global};

/// An option by its name, with a value.
fn option<'a>(alloc: Global, name: &'a str) -> Arg<'a>
    ensures rule { rule_of result ≡ option_arg name.entry.now }
    ensures local { result.global ≡ false }
{
    Arg::new(alloc, name).long(name).action(ArgAction::Set)
}

fn run_command<'a>(alloc: Global, threads: bool) -> Result<Command<'a>, AllocError>
    ensures app { IfOk result (λ c. app_of c ≡ run_app threads) }
    ensures local { IfOk result (λ c. (fields_of c).has_globals ≡ false) }
{
    let run = Command::new(alloc, "run").arg(option(alloc, "conf"))?;
    if threads {
        return Ok(run);
    }
    run.arg(option(alloc, "order"))
}

fn gen_command<'a>(alloc: Global) -> Result<Command<'a>, AllocError>
    ensures app { IfOk result (λ c. app_of c ≡ gen_app) }
    ensures local { IfOk result (λ c. (fields_of c).has_globals ≡ false) }
{
    Command::new(alloc, "gen")
        .arg(Arg::new(alloc, "lines"))?
        .arg(Arg::new(alloc, "seed"))?
        .arg(option(alloc, "callers"))
}

/// The command whose words a program takes.
pub fn command<'a>(alloc: Global, threads: bool) -> Result<Command<'a>, AllocError>
    ensures app { IfOk result (λ c. app_of c ≡ words_app threads) }
{
    let run = run_command(alloc, threads)?;
    let generate = gen_command(alloc)?;
    Command::new(alloc, "words")
        .no_binary_name(true)
        .disable_help_flag(true)
        .disable_help_subcommand(true)
        .subcommand(run)?
        .subcommand(generate)
}
