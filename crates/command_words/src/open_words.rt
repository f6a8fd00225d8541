//! The words of `open`, as `clap` reads them.
ghost use Rattle.std.specs.Prelude.{◌≡◌, ◌≢◌, ◌≤◌, IfErr, IfOk, IfSome, Some, [], codes, is_some};
ghost use Rattle.std.specs.Prelude.{map, true};
ghost use Rattle.clap.specs.Built.{FitsChain, TakesValue};
ghost use Rattle.clap.specs.Words.{app_of, fault_of, first_value, found_of, matches_of, one_of};
ghost use Rattle.clap.specs.Words.{rows_of, rule_of};
ghost use Rattle.command_words.specs.Arguments.{AsksForFolder, PassesFrames, PassesToldPages};
ghost use Rattle.command_words.specs.Command.{ExplainsRead, Gives, HasCounts};
ghost use Rattle.command_words.specs.Command.{IsTold, Names};
ghost use Rattle.command_words.specs.Command.{count_parser, folder_rule, open_app};
ghost use Rattle.command_words.specs.Command.{salvage_rule, told_pages_rule};
ghost use Rattle.command_words.specs.declared.command.Command.TheVariants as command;
ghost use Rattle.command_words.specs.declared.command.UsageFault.TheVariants.{OutOfMemory};

use crate::arguments::{frames_arg, strict_arg};
use crate::command::{Command, UsageFault, frames_in, value_in};
use clap::{Arg, ArgAction, ArgMatches};
use std::alloc::{AllocError, Global};
use std::convert::AsStr;

const USAGE: &str = "imgcopy open <FOLDER> [OPTIONS] < LINES";

/// Reads the words of `open`.
pub(crate) fn open_of<'a, S: AsStr>(
    alloc: Global,
    words: &'a [S],
) -> Result<Command<'a>, UsageFault<'a>>
    requires { Names (map S.text words.now) open_app }
    ensures ok { IfOk result (Gives (map S.text words.now)) }
    ensures counts { IfOk result HasCounts }
    ensures is_open { IfOk result (λ it. it ≢ command.Redo) }
    ensures only { IfErr result (λ fault.
        fault_of open_app (map S.text words.now) ≡ [] → fault ≡ OutOfMemory) }
    ensures explained { IfErr result (ExplainsRead (map S.text words.now)) }
{
    let matches = open_matches(alloc, words)?;
    let folder = value_in(&matches, "dir");
    let pages = told_pages_in(&matches);
    let frames = frames_in(&matches);
    let salvage = matches.get_flag("is_salvage");
    let strict = matches.get_flag("is_strict");
    Ok(Command::Open {
        folder,
        pages,
        frames,
        salvage,
        strict,
    })
}

/// What `clap` makes of the words of `open`.
fn open_matches<'a, S: AsStr>(
    alloc: Global,
    words: &'a [S],
) -> Result<ArgMatches<'a>, UsageFault<'a>>
    requires { Names (map S.text words.now) open_app }
    ensures taken { IfOk result (λ _. fault_of open_app (map S.text words.now) ≡ []) }
    ensures rows { IfOk result (λ it.
        rows_of (found_of it) ≡ matches_of open_app (map S.text words.now)) }
    ensures folder { IfOk result (λ it.
        is_some (first_value (found_of it) (codes "dir")) ≡ true) }
    ensures pages { IfOk result (λ it. PassesToldPages (found_of it)) }
    ensures frames { IfOk result (λ it. PassesFrames (found_of it)) }
    ensures only { IfErr result (λ fault.
        fault_of open_app (map S.text words.now) ≡ [] → fault ≡ OutOfMemory) }
    ensures explained { IfErr result (ExplainsRead (map S.text words.now)) }
{
    Ok(open_command(alloc)?.try_get_matches_from(words)?)
}

fn open_command<'a>(alloc: Global) -> Result<clap::Command<'a>, AllocError>
    ensures app { IfOk result (λ it. app_of it ≡ open_app) }
    ensures made { IfOk result AsksForFolder }
{
    clap::Command::new(alloc, "open")
        .about("Open the database in a folder, and answer the lines of standard input")
        .override_usage(USAGE)
        .bin_name("imgcopy open")?
        .arg(folder_arg(alloc))?
        .arg(told_pages_arg(alloc))?
        .arg(frames_arg(alloc))?
        .arg(salvage_arg(alloc))?
        .arg(strict_arg(alloc))
}

pub(crate) fn folder_arg<'a>(alloc: Global) -> Arg<'a>
    ensures rule { rule_of result ≡ folder_rule }
    ensures fits { FitsChain result }
    ensures value { TakesValue result }
{
    Arg::new(alloc, "dir")
        .value_name("FOLDER")
        .help("The folder, which has to be there")
        .required(true)
        .action(ArgAction::Set)
}

fn told_pages_arg<'a>(alloc: Global) -> Arg<'a>
    ensures rule { rule_of result ≡ told_pages_rule }
    ensures fits { FitsChain result }
    ensures parser { result.value_parser ≡ Some count_parser }
{
    Arg::new(alloc, "pages")
        .long("pages")
        .value_name("N")
        .help("How many pages a new database has, 1 to 65536; it is needed there")
        .action(ArgAction::Set)
        .value_parser(clap::value_parser!(u32).range(1..=65_536))
}

fn salvage_arg<'a>(alloc: Global) -> Arg<'a>
    ensures rule { rule_of result ≡ salvage_rule }
    ensures fits { FitsChain result }
{
    Arg::new(alloc, "is_salvage")
        .long("salvage")
        .help("Go on from a damaged log as far as it is right, and put the rest aside")
        .action(ArgAction::SetTrue)
}

/// How many pages a new database is to have, if that was told.
fn told_pages_in(matches: &ArgMatches<'_>) -> Option<u32>
    requires { PassesToldPages (found_of matches.now) }
    ensures least { IfSome result (λ pages. 1 ≤ pages) }
    ensures most { IfSome result (λ pages. pages ≤ 65536) }
    ensures read { IsTold (one_of (codes "pages") (rows_of (found_of matches.now))) result }
{
    matches.get_one::<u32>("pages")
}
