//! The words of `backup`, of `verify` and of `renew`, as `clap` reads them.
ghost use Rattle.std.specs.Prelude.{◌≡◌, ◌≢◌, ◌≤◌, ◌<◌, ◌^◌, IfErr, IfOk, IfSome, Some, [], codes};
ghost use Rattle.std.specs.Prelude.{is_some, map, pos, true};
ghost use Rattle.clap.specs.Built.{FitsChain, TakesValue};
ghost use Rattle.clap.specs.Words.{app_of, fault_of, first_value, found_of, matches_of, one_of};
ghost use Rattle.clap.specs.Words.{rows_of, rule_of};
ghost use Rattle.clap.specs.declared.builder.value_parser.ValueParser.TheVariants.{Signed};
ghost use Rattle.command_words.specs.Arguments.{AsksForBackup, AsksForTwoFolders};
ghost use Rattle.command_words.specs.Arguments.{AsksForVerify, PassesCopy};
ghost use Rattle.command_words.specs.Command.{ExplainsRead, Gives, HasCounts, IsTold, Names};
ghost use Rattle.command_words.specs.Command.{backup_app, full_rule, into_rule, old_rule, on_rule};
ghost use Rattle.command_words.specs.Command.{renew_app, renewed_rule, verify_app};
ghost use Rattle.command_words.specs.declared.command.Command.TheVariants as command;
ghost use Rattle.command_words.specs.declared.command.UsageFault.TheVariants.{OutOfMemory};

use crate::command::{Command, UsageFault, value_in};
use crate::manifest_words::{manifest_arg, no_manifest_arg};
use crate::open_words::folder_arg;
use clap::{Arg, ArgAction, ArgMatches};
use std::alloc::{AllocError, Global};
use std::convert::AsStr;

const BACKUP_USAGE: &str = "imgcopy backup [OPTIONS] <FOLDER>";

const VERIFY_USAGE: &str = "imgcopy verify [OPTIONS] <FOLDER>";

const RENEW_USAGE: &str = "imgcopy renew <OLD> <NEW>";

/// Reads the words of `backup`.
pub(crate) fn backup_of<'a, S: AsStr>(
    alloc: Global,
    words: &'a [S],
) -> Result<Command<'a>, UsageFault<'a>>
    requires { Names (map S.text words.now) backup_app }
    ensures ok { IfOk result (Gives (map S.text words.now)) }
    ensures counts { IfOk result HasCounts }
    ensures is_backup { IfOk result (λ it. it ≢ command.Redo) }
    ensures only { IfErr result (λ fault.
        fault_of backup_app (map S.text words.now) ≡ [] → fault ≡ OutOfMemory) }
    ensures explained { IfErr result (ExplainsRead (map S.text words.now)) }
{
    let matches = backup_matches(alloc, words)?;
    let folder = value_in(&matches, "dir");
    let on = copy_in(&matches, "on");
    let full = matches.get_flag("is_full");
    let into = matches.get_str("into");
    Ok(Command::Backup {
        folder,
        on,
        full,
        into,
    })
}

/// Reads the words of `verify`.
pub(crate) fn verify_of<'a, S: AsStr>(
    alloc: Global,
    words: &'a [S],
) -> Result<Command<'a>, UsageFault<'a>>
    requires { Names (map S.text words.now) verify_app }
    ensures ok { IfOk result (Gives (map S.text words.now)) }
    ensures counts { IfOk result HasCounts }
    ensures is_verify { IfOk result (λ it. it ≢ command.Redo) }
    ensures only { IfErr result (λ fault.
        fault_of verify_app (map S.text words.now) ≡ [] → fault ≡ OutOfMemory) }
    ensures explained { IfErr result (ExplainsRead (map S.text words.now)) }
{
    let matches = verify_matches(alloc, words)?;
    let folder = value_in(&matches, "dir");
    let manifest = matches.get_str("manifest_file");
    let no_manifest = matches.get_flag("without_sums");
    Ok(Command::Verify {
        folder,
        manifest,
        no_manifest,
    })
}

/// Reads the words of `renew`.
pub(crate) fn renew_of<'a, S: AsStr>(
    alloc: Global,
    words: &'a [S],
) -> Result<Command<'a>, UsageFault<'a>>
    requires { Names (map S.text words.now) renew_app }
    ensures ok { IfOk result (Gives (map S.text words.now)) }
    ensures counts { IfOk result HasCounts }
    ensures is_renew { IfOk result (λ it. it ≢ command.Redo) }
    ensures only { IfErr result (λ fault.
        fault_of renew_app (map S.text words.now) ≡ [] → fault ≡ OutOfMemory) }
    ensures explained { IfErr result (ExplainsRead (map S.text words.now)) }
{
    let matches = renew_matches(alloc, words)?;
    let old = value_in(&matches, "old");
    let new = value_in(&matches, "renewed");
    Ok(Command::Renew { old, new })
}

/// What `clap` makes of the words of `backup`.
fn backup_matches<'a, S: AsStr>(
    alloc: Global,
    words: &'a [S],
) -> Result<ArgMatches<'a>, UsageFault<'a>>
    requires { Names (map S.text words.now) backup_app }
    ensures taken { IfOk result (λ _. fault_of backup_app (map S.text words.now) ≡ []) }
    ensures rows { IfOk result (λ it.
        rows_of (found_of it) ≡ matches_of backup_app (map S.text words.now)) }
    ensures folder { IfOk result (λ it.
        is_some (first_value (found_of it) (codes "dir")) ≡ true) }
    ensures copy { IfOk result (λ it. PassesCopy (found_of it) (codes "on")) }
    ensures only { IfErr result (λ fault.
        fault_of backup_app (map S.text words.now) ≡ [] → fault ≡ OutOfMemory) }
    ensures explained { IfErr result (ExplainsRead (map S.text words.now)) }
{
    Ok(backup_command(alloc)?.try_get_matches_from(words)?)
}

/// What `clap` makes of the words of `verify`.
fn verify_matches<'a, S: AsStr>(
    alloc: Global,
    words: &'a [S],
) -> Result<ArgMatches<'a>, UsageFault<'a>>
    requires { Names (map S.text words.now) verify_app }
    ensures taken { IfOk result (λ _. fault_of verify_app (map S.text words.now) ≡ []) }
    ensures rows { IfOk result (λ it.
        rows_of (found_of it) ≡ matches_of verify_app (map S.text words.now)) }
    ensures folder { IfOk result (λ it.
        is_some (first_value (found_of it) (codes "dir")) ≡ true) }
    ensures only { IfErr result (λ fault.
        fault_of verify_app (map S.text words.now) ≡ [] → fault ≡ OutOfMemory) }
    ensures explained { IfErr result (ExplainsRead (map S.text words.now)) }
{
    Ok(verify_command(alloc)?.try_get_matches_from(words)?)
}

/// What `clap` makes of the words of `renew`.
fn renew_matches<'a, S: AsStr>(
    alloc: Global,
    words: &'a [S],
) -> Result<ArgMatches<'a>, UsageFault<'a>>
    requires { Names (map S.text words.now) renew_app }
    ensures taken { IfOk result (λ _. fault_of renew_app (map S.text words.now) ≡ []) }
    ensures rows { IfOk result (λ it.
        rows_of (found_of it) ≡ matches_of renew_app (map S.text words.now)) }
    ensures old { IfOk result (λ it. is_some (first_value (found_of it) (codes "old")) ≡ true) }
    ensures renewed { IfOk result (λ it.
        is_some (first_value (found_of it) (codes "renewed")) ≡ true) }
    ensures only { IfErr result (λ fault.
        fault_of renew_app (map S.text words.now) ≡ [] → fault ≡ OutOfMemory) }
    ensures explained { IfErr result (ExplainsRead (map S.text words.now)) }
{
    Ok(renew_command(alloc)?.try_get_matches_from(words)?)
}

fn backup_command<'a>(alloc: Global) -> Result<clap::Command<'a>, AllocError>
    ensures app { IfOk result (λ it. app_of it ≡ backup_app) }
    ensures made { IfOk result AsksForBackup }
{
    clap::Command::new(alloc, "backup")
        .about("Make a checkpoint and an image copy of a closed database")
        .override_usage(BACKUP_USAGE)
        .bin_name("imgcopy backup")?
        .arg(folder_arg(alloc))?
        .arg(on_arg(alloc))?
        .arg(full_arg(alloc))?
        .arg(into_arg(alloc))
}

fn verify_command<'a>(alloc: Global) -> Result<clap::Command<'a>, AllocError>
    ensures app { IfOk result (λ it. app_of it ≡ verify_app) }
    ensures made { IfOk result AsksForVerify }
{
    clap::Command::new(alloc, "verify")
        .about("Check the files of a folder against its manifest, and that its copies restore")
        .override_usage(VERIFY_USAGE)
        .bin_name("imgcopy verify")?
        .arg(folder_arg(alloc))?
        .arg(manifest_arg(alloc))?
        .arg(no_manifest_arg(alloc))
}

fn renew_command<'a>(alloc: Global) -> Result<clap::Command<'a>, AllocError>
    ensures app { IfOk result (λ it. app_of it ≡ renew_app) }
    ensures made { IfOk result AsksForTwoFolders }
{
    clap::Command::new(alloc, "renew")
        .about("Make a new database of the numbers of a closed one, with an empty log")
        .override_usage(RENEW_USAGE)
        .bin_name("imgcopy renew")?
        .arg(old_arg(alloc))?
        .arg(renewed_arg(alloc))
}

fn on_arg<'a>(alloc: Global) -> Arg<'a>
    ensures rule { rule_of result ≡ on_rule }
    ensures fits { FitsChain result }
    ensures parser { result.value_parser ≡ Some (Signed (pos 1) (pos 4294967295)) }
{
    Arg::new(alloc, "on")
        .long("on")
        .value_name("N")
        .help("Make an incremental copy on copy N; the newest one if not given")
        .action(ArgAction::Set)
        .value_parser(clap::value_parser!(u32).range(1..=4_294_967_295))
}

fn full_arg<'a>(alloc: Global) -> Arg<'a>
    ensures rule { rule_of result ≡ full_rule }
    ensures fits { FitsChain result }
{
    Arg::new(alloc, "is_full")
        .long("full")
        .help("Make a full copy, which stands on no other")
        .action(ArgAction::SetTrue)
}

fn into_arg<'a>(alloc: Global) -> Arg<'a>
    ensures rule { rule_of result ≡ into_rule }
    ensures fits { FitsChain result }
{
    Arg::new(alloc, "into")
        .long("into")
        .value_name("DIR")
        .help("Put the log, the master record and the copy into this folder, too")
        .action(ArgAction::Set)
}

fn old_arg<'a>(alloc: Global) -> Arg<'a>
    ensures rule { rule_of result ≡ old_rule }
    ensures fits { FitsChain result }
    ensures value { TakesValue result }
{
    Arg::new(alloc, "old")
        .value_name("OLD")
        .help("The folder of the closed database, which stays as it is")
        .required(true)
        .action(ArgAction::Set)
}

fn renewed_arg<'a>(alloc: Global) -> Arg<'a>
    ensures rule { rule_of result ≡ renewed_rule }
    ensures fits { FitsChain result }
    ensures value { TakesValue result }
{
    Arg::new(alloc, "renewed")
        .value_name("NEW")
        .help("The folder of the new one")
        .required(true)
        .action(ArgAction::Set)
}

/// The number of a copy, if that was told.
pub(crate) fn copy_in(matches: &ArgMatches<'_>, id: &str) -> Option<u32>
    requires { PassesCopy (found_of matches.now) id.now }
    ensures least { IfSome result (λ copy. 1 ≤ copy) }
    ensures most { IfSome result (λ copy. copy < 2 ^ 32) }
    ensures read { IsTold (one_of id.now (rows_of (found_of matches.now))) result }
{
    matches.get_one::<u32>(id)
}
