// The command line as the crate `clap` reads it.
ghost use Rattle.std.specs.Prelude.{◌≡◌, IfOk, IfErr, false, map, true, is_some};
ghost use Rattle.std.specs.String.{string_bytes};
ghost use Rattle.clap.specs.Words.{app_of, kind_of, subcommand_of, subcommand_rows_of};
ghost use Rattle.clap.specs.declared.builder.command.Command.TheViews.{out-Command as fields_of};
ghost use Rattle.swss_words.specs.Grammar.{bare_app, load_app, swss_app, workers_app};
ghost use Rattle.swss_words.specs.Words.{command};

use clap::error::ErrorKind;
use clap::{Arg, ArgMatches, Command, Error};
use std::alloc::{AllocError, Global};

/// What `clap` finds in words that are a command. It refuses them for want of memory alone.
pub fn parsed<'a>(alloc: Global, words: &'a [String]) -> Result<ArgMatches<'a>, Error>
    requires { is_some (command (map (λ w. string_bytes w) words.now)) ≡ true }
    ensures ok { IfOk result (λ m. subcommand_rows_of m ≡ subcommand_of swss_app (map (λ w. string_bytes w) words.now)) }
    ensures err { IfErr result (λ e. kind_of e ≡ ErrorKind.OutOfMemory) }
{
    let swss = swss(alloc)?;
    swss.try_get_matches_from(words)
}

/// The program and its commands. Its help is no command.
fn swss<'a>(alloc: Global) -> Result<Command<'a>, AllocError>
    ensures { IfOk result (λ c. app_of c ≡ swss_app) }
{
    let view = Command::new(alloc, "view");
    let with_run = bare(alloc).subcommand(taking_workers(alloc, "run")?)?;
    let with_view = with_run.subcommand(view)?;
    with_view.subcommand(load(alloc)?)
}

/// The program without its commands.
fn bare<'a>(alloc: Global) -> Command<'a>
    ensures app { app_of result ≡ bare_app }
    ensures local { (fields_of result).has_globals ≡ false }
{
    Command::new(alloc, "swss")
        .no_binary_name(true)
        .disable_help_flag(true)
        .disable_help_subcommand(true)
        .subcommand_required(true)
}

/// The command of this name, with the option of workers.
fn taking_workers<'a>(alloc: Global, name: &'a str) -> Result<Command<'a>, AllocError>
    ensures app { IfOk result (λ c. app_of c ≡ workers_app name.entry.now) }
    ensures local { IfOk result (λ c. (fields_of c).has_globals ≡ false) }
{
    let workers = Arg::new(alloc, "workers").long("workers");
    Command::new(alloc, name).arg(workers)
}

/// The command `load`, with its two numbers.
fn load<'a>(alloc: Global) -> Result<Command<'a>, AllocError>
    ensures app { IfOk result (λ c. app_of c ≡ load_app) }
    ensures local { IfOk result (λ c. (fields_of c).has_globals ≡ false) }
{
    let count = Arg::new(alloc, "count").required(true);
    let seed = Arg::new(alloc, "seed").required(true);
    Command::new(alloc, "load").arg(count)?.arg(seed)
}
