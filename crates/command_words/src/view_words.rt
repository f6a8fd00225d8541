//! The words of `show` and of `list`, as `clap` reads them.
ghost use Rattle.std.specs.Prelude.{◌≡◌, ◌≢◌, IfErr, IfOk, Some, [], codes, is_some, map, pos, true};
ghost use Rattle.clap.specs.Built.{FitsChain, TakesValue};
ghost use Rattle.clap.specs.Words.{app_of, fault_of, first_value, found_of, matches_of, one_of};
ghost use Rattle.clap.specs.Words.{rows_of, rule_of};
ghost use Rattle.clap.specs.declared.builder.value_parser.ValueParser.TheVariants.{Signed};
ghost use Rattle.command_words.specs.Arguments.{AsksForList, AsksForView, PassesNumber};
ghost use Rattle.command_words.specs.Command.{ExplainsRead, Gives, commits_rule};
ghost use Rattle.command_words.specs.Command.{HasCounts, IsTold, Names, file_rule};
ghost use Rattle.command_words.specs.Command.{folder_rule, from_rule, json_rule, list_app};
ghost use Rattle.command_words.specs.Command.{page_rule, show_app, to_rule, txn_rule};
ghost use Rattle.command_words.specs.declared.command.Command.TheVariants as command;
ghost use Rattle.command_words.specs.declared.command.UsageFault.TheVariants.{OutOfMemory};

use crate::command::{Command, UsageFault, value_in};
use crate::manifest_words::{manifest_arg, no_manifest_arg};
use crate::open_words::folder_arg;
use clap::{Arg, ArgAction, ArgMatches};
use std::alloc::{AllocError, Global};
use std::convert::AsStr;

const SHOW_USAGE: &str = "imgcopy show [OPTIONS] <FILE>";

const LIST_USAGE: &str = "imgcopy list [OPTIONS] <FOLDER>";

/// Reads the words of `show`.
pub(crate) fn show_of<'a, S: AsStr>(
    alloc: Global,
    words: &'a [S],
) -> Result<Command<'a>, UsageFault<'a>>
    requires { Names (map S.text words.now) show_app }
    ensures ok { IfOk result (Gives (map S.text words.now)) }
    ensures counts { IfOk result HasCounts }
    ensures is_show { IfOk result (λ it. it ≢ command.Redo) }
    ensures only { IfErr result (λ fault.
        fault_of show_app (map S.text words.now) ≡ [] → fault ≡ OutOfMemory) }
    ensures explained { IfErr result (ExplainsRead (map S.text words.now)) }
{
    let matches = show_matches(alloc, words)?;
    let file = value_in(&matches, "of");
    let from = number_in(&matches, "low");
    let to = number_in(&matches, "high");
    let txn = number_in(&matches, "owner");
    let page = number_in(&matches, "number");
    let json = matches.get_flag("as_json");
    let commits = matches.get_flag("finished");
    Ok(Command::Show {
        file,
        from,
        to,
        txn,
        page,
        json,
        commits,
    })
}

/// Reads the words of `list`.
pub(crate) fn list_of<'a, S: AsStr>(
    alloc: Global,
    words: &'a [S],
) -> Result<Command<'a>, UsageFault<'a>>
    requires { Names (map S.text words.now) list_app }
    ensures ok { IfOk result (Gives (map S.text words.now)) }
    ensures counts { IfOk result HasCounts }
    ensures is_list { IfOk result (λ it. it ≢ command.Redo) }
    ensures only { IfErr result (λ fault.
        fault_of list_app (map S.text words.now) ≡ [] → fault ≡ OutOfMemory) }
    ensures explained { IfErr result (ExplainsRead (map S.text words.now)) }
{
    let matches = list_matches(alloc, words)?;
    let folder = value_in(&matches, "dir");
    let json = matches.get_flag("as_json");
    let manifest = matches.get_str("manifest_file");
    let no_manifest = matches.get_flag("without_sums");
    Ok(Command::ListFolder {
        folder,
        json,
        manifest,
        no_manifest,
    })
}

/// What `clap` makes of the words of `show`.
fn show_matches<'a, S: AsStr>(
    alloc: Global,
    words: &'a [S],
) -> Result<ArgMatches<'a>, UsageFault<'a>>
    requires { Names (map S.text words.now) show_app }
    ensures taken { IfOk result (λ _. fault_of show_app (map S.text words.now) ≡ []) }
    ensures rows { IfOk result (λ it.
        rows_of (found_of it) ≡ matches_of show_app (map S.text words.now)) }
    ensures file { IfOk result (λ it. is_some (first_value (found_of it) (codes "of")) ≡ true) }
    ensures from { IfOk result (λ it. PassesNumber (found_of it) (codes "low")) }
    ensures to { IfOk result (λ it. PassesNumber (found_of it) (codes "high")) }
    ensures txn { IfOk result (λ it. PassesNumber (found_of it) (codes "owner")) }
    ensures page { IfOk result (λ it. PassesNumber (found_of it) (codes "number")) }
    ensures only { IfErr result (λ fault.
        fault_of show_app (map S.text words.now) ≡ [] → fault ≡ OutOfMemory) }
    ensures explained { IfErr result (ExplainsRead (map S.text words.now)) }
{
    Ok(show_command(alloc)?.try_get_matches_from(words)?)
}

/// What `clap` makes of the words of `list`.
fn list_matches<'a, S: AsStr>(
    alloc: Global,
    words: &'a [S],
) -> Result<ArgMatches<'a>, UsageFault<'a>>
    requires { Names (map S.text words.now) list_app }
    ensures taken { IfOk result (λ _. fault_of list_app (map S.text words.now) ≡ []) }
    ensures rows { IfOk result (λ it.
        rows_of (found_of it) ≡ matches_of list_app (map S.text words.now)) }
    ensures folder { IfOk result (λ it.
        is_some (first_value (found_of it) (codes "dir")) ≡ true) }
    ensures only { IfErr result (λ fault.
        fault_of list_app (map S.text words.now) ≡ [] → fault ≡ OutOfMemory) }
    ensures explained { IfErr result (ExplainsRead (map S.text words.now)) }
{
    Ok(list_command(alloc)?.try_get_matches_from(words)?)
}

fn show_command<'a>(alloc: Global) -> Result<clap::Command<'a>, AllocError>
    ensures app { IfOk result (λ it. app_of it ≡ show_app) }
    ensures made { IfOk result AsksForView }
{
    clap::Command::new(alloc, "show")
        .about("Print what a log, a master record, an image copy or a volume has")
        .override_usage(SHOW_USAGE)
        .bin_name("imgcopy show")?
        .arg(file_arg(alloc))?
        .arg(from_arg(alloc))?
        .arg(to_arg(alloc))?
        .arg(txn_arg(alloc))?
        .arg(page_arg(alloc))?
        .arg(json_arg(alloc))?
        .arg(commits_arg(alloc))
}

fn list_command<'a>(alloc: Global) -> Result<clap::Command<'a>, AllocError>
    ensures app { IfOk result (λ it. app_of it ≡ list_app) }
    ensures made { IfOk result AsksForList }
{
    clap::Command::new(alloc, "list")
        .about("Print which copies a folder has, and what restores of them would do")
        .override_usage(LIST_USAGE)
        .bin_name("imgcopy list")?
        .arg(folder_arg(alloc))?
        .arg(json_arg(alloc))?
        .arg(manifest_arg(alloc))?
        .arg(no_manifest_arg(alloc))
}

fn file_arg<'a>(alloc: Global) -> Arg<'a>
    ensures rule { rule_of result ≡ file_rule }
    ensures fits { FitsChain result }
    ensures value { TakesValue result }
{
    Arg::new(alloc, "of")
        .value_name("FILE")
        .help("The file; its first bytes tell what it is")
        .required(true)
        .action(ArgAction::Set)
}

fn from_arg<'a>(alloc: Global) -> Arg<'a>
    ensures rule { rule_of result ≡ from_rule }
    ensures fits { FitsChain result }
    ensures parser { result.value_parser ≡ Some (Signed (pos 0) (pos 67108928)) }
{
    Arg::new(alloc, "low")
        .long("from")
        .value_name("LSN")
        .help("Print no record of a log below this LSN")
        .action(ArgAction::Set)
        .value_parser(clap::value_parser!(u32).range(0..=67_108_928))
}

fn to_arg<'a>(alloc: Global) -> Arg<'a>
    ensures rule { rule_of result ≡ to_rule }
    ensures fits { FitsChain result }
    ensures parser { result.value_parser ≡ Some (Signed (pos 0) (pos 67108928)) }
{
    Arg::new(alloc, "high")
        .long("to")
        .value_name("LSN")
        .help("Print no record of a log above this LSN")
        .action(ArgAction::Set)
        .value_parser(clap::value_parser!(u32).range(0..=67_108_928))
}

fn txn_arg<'a>(alloc: Global) -> Arg<'a>
    ensures rule { rule_of result ≡ txn_rule }
    ensures fits { FitsChain result }
    ensures parser { result.value_parser ≡ Some (Signed (pos 1) (pos 4294967295)) }
{
    Arg::new(alloc, "owner")
        .long("txn")
        .value_name("N")
        .help("Print the records of a log alone that name transaction N")
        .action(ArgAction::Set)
        .value_parser(clap::value_parser!(u32).range(1..=4_294_967_295))
}

fn page_arg<'a>(alloc: Global) -> Arg<'a>
    ensures rule { rule_of result ≡ page_rule }
    ensures fits { FitsChain result }
    ensures parser { result.value_parser ≡ Some (Signed (pos 0) (pos 65535)) }
{
    Arg::new(alloc, "number")
        .long("page")
        .value_name("P")
        .help("Print page P alone, or the records of a log that name it")
        .action(ArgAction::Set)
        .value_parser(clap::value_parser!(u32).range(0..=65_535))
}

fn json_arg<'a>(alloc: Global) -> Arg<'a>
    ensures rule { rule_of result ≡ json_rule }
    ensures fits { FitsChain result }
{
    Arg::new(alloc, "as_json")
        .long("json")
        .help("Print an object of JSON a line")
        .action(ArgAction::SetTrue)
}

fn commits_arg<'a>(alloc: Global) -> Arg<'a>
    ensures rule { rule_of result ≡ commits_rule }
    ensures fits { FitsChain result }
{
    Arg::new(alloc, "finished")
        .long("commits")
        .help("Print the commits of a log alone, one of which --until takes")
        .action(ArgAction::SetTrue)
}

/// A number that was told, or none.
pub(crate) fn number_in(matches: &ArgMatches<'_>, id: &str) -> Option<u32>
    requires { PassesNumber (found_of matches.now) id.now }
    ensures { IsTold (one_of id.now (rows_of (found_of matches.now))) result }
{
    matches.get_one::<u32>(id)
}
