//! The commands of the program as they are declared to `clap`.

ghost use Rattle.std.specs.Prelude.{◌≡◌, ◌≤◌, IfOk, false, length, map, string_bytes};
ghost use Rattle.std.specs.List.{All};
ghost use Rattle.clap.specs.Words.{app_of, new_app, with_subcommand};
ghost use Rattle.clap.specs.declared.builder.command.Command.TheViews.{out-Command};
ghost use Rattle.crsm_text_words.specs.Split.{IsPlain, SplitsBy, SplitsExactly};
ghost use Rattle.crsm_text_words.specs.Table.{product_app, row, taking_app, top_app};

use crate::help::{self, Help};
use clap::{Arg, ArgMatches, Command, Error};
use std::alloc::{AllocError, Global};

static ME_N: [&str; 2] = ["ME", "N"];

static NODE: [&str; 4] = ["ME", "N", "TURNS", "PEERS"];

static CLIENT: [&str; 5] = ["TO", "TURNS", "CLIENT", "NUMBER", "OP"];

static OPERATE: [&str; 2] = ["TO", "MEMBERS"];

static SOAK: [&str; 3] = ["NUMBER", "N", "STEPS"];

static AUDIT: [&str; 1] = ["N"];

static LOCK: [&str; 6] = ["TO", "TURNS", "CLIENT", "NUMBER", "KEY", "ACTION"];

static DELAY: [&str; 1] = ["times"];

static DUMP: [&str; 3] = ["ME", "N", "PART"];

/// Declares a command without values, with its name and texts.
fn plain<'a>(alloc: Global, name: &'a str, help: Help) -> Command<'a>
    ensures shape { app_of result ≡ new_app name.entry.now }
    ensures local { (out-Command result).has_globals ≡ false }
{
    Command::new(alloc, name)
        .about(help.about)
        .override_usage(help.usage)
        .after_help(help.details)
}

/// Declares a command with a name, its texts, labels of its values for help, and the minimum and maximum number of its
/// values.
fn taking<'a>(
    alloc: Global,
    name: &'a str,
    help: Help,
    labels: &'a [&'a str],
    least: usize,
    most: usize,
) -> Result<Command<'a>, AllocError>
    requires { least ≤ most }
    ensures shape { IfOk result (λ c. app_of c ≡ taking_app (row name.entry.now (length labels.entry.now) least most)) }
    ensures local { IfOk result (λ c. (out-Command c).has_globals ≡ false) }
{
    let values = Arg::new(alloc, "values")
        .value_names(labels)
        .num_args(least..=most)
        .required(least > 0);
    plain(alloc, name, help).arg(values)
}

fn top<'a>(alloc: Global) -> Command<'a>
    ensures shape { app_of result ≡ top_app }
    ensures local { (out-Command result).has_globals ≡ false }
{
    plain(alloc, "crsm", help::PRODUCT)
        .version("1")
        .no_binary_name(true)
        .disable_help_subcommand(true)
        .subcommand_required(true)
}

/// Adds a command with values, which is declared as `taking` does. The others are dropped here alone.
fn with_taking<'a>(
    alloc: Global,
    app: Command<'a>,
    name: &'a str,
    help: Help,
    labels: &'a [&'a str],
    least: usize,
    most: usize,
) -> Result<Command<'a>, AllocError>
    requires { least ≤ most }
    ensures { IfOk result (λ c. app_of c ≡ with_subcommand (app_of app.entry) (taking_app (row name.entry.now (length labels.entry.now) least most)).top) }
{
    match taking(alloc, name, help, labels, least, most) {
        Ok(command) => app.subcommand(command),
        Err(error) => {
            drop(app);
            Err(error)
        }
    }
}

/// Declares all commands. A new command needs a row here and one in `specs/Table`.
fn product<'a>(alloc: Global) -> Result<Command<'a>, AllocError>
    ensures { IfOk result (λ c. app_of c ≡ product_app) }
{
    let app = top(alloc).subcommand(plain(alloc, "replay", help::REPLAY))?;
    let app = with_taking(
        alloc,
        app,
        "replay-node",
        help::REPLAY_NODE,
        ME_N.as_slice(),
        2,
        2,
    )?;
    let app = with_taking(alloc, app, "node", help::NODE, NODE.as_slice(), 4, 4)?;
    let app = with_taking(alloc, app, "client", help::CLIENT, CLIENT.as_slice(), 5, 8)?;
    let app = with_taking(
        alloc,
        app,
        "operate",
        help::OPERATE,
        OPERATE.as_slice(),
        2,
        2,
    )?;
    let app = with_taking(alloc, app, "soak", help::SOAK, SOAK.as_slice(), 3, 3)?;
    let app = with_taking(alloc, app, "audit", help::AUDIT, AUDIT.as_slice(), 1, 1)?;
    let app = with_taking(alloc, app, "lock", help::LOCK, LOCK.as_slice(), 6, 6)?;
    let app = with_taking(alloc, app, "delay", help::DELAY, DELAY.as_slice(), 0, 1)?;
    let app = with_taking(alloc, app, "dump", help::DUMP, DUMP.as_slice(), 2, 3)?;
    app.subcommand(plain(alloc, "replay-mp", help::REPLAY_MP))
}

/// Splits the words into a command's name and its values, by `clap`; returns its error if it finds a fault.
pub(crate) fn split<'a>(alloc: Global, words: &'a [String]) -> Result<ArgMatches<'a>, Error>
    ensures any { SplitsBy (map string_bytes words.entry.now) result }
    ensures plain { All IsPlain (map string_bytes words.entry.now) → SplitsExactly (map string_bytes words.entry.now) result }
{
    let command = product(alloc)?;
    command.try_get_matches_from(words)
}
