//! The words after a command's name, as `clap` reads them.
ghost use Rattle.std.specs.Prelude.{◌≡◌, IfErr, IfOk, Some, [], codes, is_some, map, true};
ghost use Rattle.clap.specs.Built.{FitsChain, TakesValue};
ghost use Rattle.clap.specs.Words.{app_of, fault_of, first_value, found_of, matches_of, rows_of};
ghost use Rattle.clap.specs.Words.{rule_of};
ghost use Rattle.command_words.specs.Arguments.{AsksForFiles, AsksForLog, AsksForOutput};
ghost use Rattle.command_words.specs.Arguments.{AsksForPages, PassesFrames, PassesNumber};
ghost use Rattle.command_words.specs.Arguments.{PassesPages};
ghost use Rattle.command_words.specs.Command.{ExplainsRead, Names, lsn_parser, until_rule};
ghost use Rattle.command_words.specs.Command.{all_rule, archive_rule, audit_app};
ghost use Rattle.command_words.specs.Command.{audited_master_rule, count_parser, force_rule};
ghost use Rattle.command_words.specs.Command.{frames_rule};
ghost use Rattle.command_words.specs.Command.{log_output_rule, log_rule, master_rule, output_rule};
ghost use Rattle.command_words.specs.Command.{pages_rule, redo_app, redo_into_app, restore_app};
ghost use Rattle.command_words.specs.Command.{run_app, save_rule, saved_manifest_rule, strict_rule};
ghost use Rattle.command_words.specs.declared.command.UsageFault.TheVariants.{OutOfMemory};

use crate::command::UsageFault;
use crate::manifest_words::{manifest_arg, no_manifest_arg};
use clap::{Arg, ArgAction, ArgMatches};
use std::alloc::{AllocError, Global};
use std::convert::AsStr;

const MOST_FRAMES: i64 = 65_536;

/// What `clap` makes of the words of `redo`.
pub(crate) fn redo_matches<'a, S: AsStr>(
    alloc: Global,
    words: &'a [S],
) -> Result<ArgMatches<'a>, UsageFault<'a>>
    requires { Names (map S.text words.now) redo_app }
    ensures taken { IfOk result (λ _. fault_of redo_app (map S.text words.now) ≡ []) }
    ensures only { IfErr result (λ fault.
        fault_of redo_app (map S.text words.now) ≡ [] → fault ≡ OutOfMemory) }
    ensures explained { IfErr result (ExplainsRead (map S.text words.now)) }
{
    Ok(redo_command(alloc)?.try_get_matches_from(words)?)
}

/// What `clap` makes of the words of `redo` with options.
pub(crate) fn redo_into_matches<'a, S: AsStr>(
    alloc: Global,
    words: &'a [S],
) -> Result<ArgMatches<'a>, UsageFault<'a>>
    requires { Names (map S.text words.now) redo_into_app }
    ensures taken { IfOk result (λ _. fault_of redo_into_app (map S.text words.now) ≡ []) }
    ensures rows { IfOk result (λ it.
        rows_of (found_of it) ≡ matches_of redo_into_app (map S.text words.now)) }
    ensures until { IfOk result (λ it. PassesNumber (found_of it) (codes "until_lsn")) }
    ensures only { IfErr result (λ fault.
        fault_of redo_into_app (map S.text words.now) ≡ [] → fault ≡ OutOfMemory) }
    ensures explained { IfErr result (ExplainsRead (map S.text words.now)) }
{
    Ok(redo_into_command(alloc)?.try_get_matches_from(words)?)
}

/// What `clap` makes of the words of `run`.
pub(crate) fn run_matches<'a, S: AsStr>(
    alloc: Global,
    words: &'a [S],
) -> Result<ArgMatches<'a>, UsageFault<'a>>
    requires { Names (map S.text words.now) run_app }
    ensures taken { IfOk result (λ _. fault_of run_app (map S.text words.now) ≡ []) }
    ensures rows { IfOk result (λ it.
        rows_of (found_of it) ≡ matches_of run_app (map S.text words.now)) }
    ensures pages { IfOk result (λ it. PassesPages (found_of it)) }
    ensures frames { IfOk result (λ it. PassesFrames (found_of it)) }
    ensures only { IfErr result (λ fault.
        fault_of run_app (map S.text words.now) ≡ [] → fault ≡ OutOfMemory) }
    ensures explained { IfErr result (ExplainsRead (map S.text words.now)) }
{
    Ok(run_command(alloc)?.try_get_matches_from(words)?)
}

/// What `clap` makes of the words of `restore`.
pub(crate) fn restore_matches<'a, S: AsStr>(
    alloc: Global,
    words: &'a [S],
) -> Result<ArgMatches<'a>, UsageFault<'a>>
    requires { Names (map S.text words.now) restore_app }
    ensures taken { IfOk result (λ _. fault_of restore_app (map S.text words.now) ≡ []) }
    ensures rows { IfOk result (λ it.
        rows_of (found_of it) ≡ matches_of restore_app (map S.text words.now)) }
    ensures log { IfOk result (λ it. is_some (first_value (found_of it) (codes "log")) ≡ true) }
    ensures master { IfOk result (λ it.
        is_some (first_value (found_of it) (codes "master")) ≡ true) }
    ensures until { IfOk result (λ it. PassesNumber (found_of it) (codes "until_lsn")) }
    ensures only { IfErr result (λ fault.
        fault_of restore_app (map S.text words.now) ≡ [] → fault ≡ OutOfMemory) }
    ensures explained { IfErr result (ExplainsRead (map S.text words.now)) }
{
    Ok(restore_command(alloc)?.try_get_matches_from(words)?)
}

/// What `clap` makes of the words of `audit`.
pub(crate) fn audit_matches<'a, S: AsStr>(
    alloc: Global,
    words: &'a [S],
) -> Result<ArgMatches<'a>, UsageFault<'a>>
    requires { Names (map S.text words.now) audit_app }
    ensures taken { IfOk result (λ _. fault_of audit_app (map S.text words.now) ≡ []) }
    ensures rows { IfOk result (λ it.
        rows_of (found_of it) ≡ matches_of audit_app (map S.text words.now)) }
    ensures log { IfOk result (λ it. is_some (first_value (found_of it) (codes "log")) ≡ true) }
    ensures until { IfOk result (λ it. PassesNumber (found_of it) (codes "until_lsn")) }
    ensures only { IfErr result (λ fault.
        fault_of audit_app (map S.text words.now) ≡ [] → fault ≡ OutOfMemory) }
    ensures explained { IfErr result (ExplainsRead (map S.text words.now)) }
{
    Ok(audit_command(alloc)?.try_get_matches_from(words)?)
}

// The usage of each shows the program's name before the command's, and what it reads and writes.

const REDO_ABOUT: &str = "Write the volume that the log on standard input makes\n\n\
    A terminal gets no volume (E29), unless -o - says so";

const REDO_USAGE: &str =
    "imgcopy redo [-o -] [--until <LSN>] < LOG > VOLUME\n       imgcopy redo -o <FILE> [--force] [--until <LSN>] < LOG";

const RUN_USAGE: &str = "imgcopy run --pages <N> [OPTIONS] < SCRIPT";

pub(crate) const RESTORE_ABOUT: &str = "Write the volume that a log and image copies restore\n\n\
    A FOLDER stands for the files in it: the newest copy that is whole is taken, with those that it\n\
    stands on, or copy N is, by --copy <N>\n\n\
    A file that the manifest beside it names has to be that file. Where no manifest stands, no file\n\
    is compared, and nothing says so: imgcopy audit finds a copy of another log\n\n\
    A terminal gets no volume (E29), unless -o - says so";

/// The usage of `restore`, a line for each of its forms.
pub const RESTORE_USAGE: &str =
    "imgcopy restore [--log-out <FILE> [--force]] [OPTIONS] <LOG> <MASTER> <ARCHIVE>... > VOLUME\n       \
    imgcopy restore -o <FILE> [--log-out <FILE>] [--force] [OPTIONS] <LOG> <MASTER> <ARCHIVE>...\n       \
    imgcopy restore [--copy <N>] [OPTIONS] <FOLDER>";

const AUDIT_USAGE: &str = "imgcopy audit [OPTIONS] <LOG> <ARCHIVE>...";

fn redo_command<'a>(alloc: Global) -> Result<clap::Command<'a>, AllocError>
    ensures { IfOk result (λ it. app_of it ≡ redo_app) }
{
    clap::Command::new(alloc, "redo")
        .about(REDO_ABOUT)
        .bin_name("imgcopy redo")
}

fn redo_into_command<'a>(alloc: Global) -> Result<clap::Command<'a>, AllocError>
    ensures app { IfOk result (λ it. app_of it ≡ redo_into_app) }
    ensures made { IfOk result AsksForOutput }
{
    clap::Command::new(alloc, "redo")
        .about(REDO_ABOUT)
        .override_usage(REDO_USAGE)
        .bin_name("imgcopy redo")?
        .arg(output_arg(alloc))?
        .arg(force_arg(alloc))?
        .arg(until_arg(alloc))
}

fn run_command<'a>(alloc: Global) -> Result<clap::Command<'a>, AllocError>
    ensures app { IfOk result (λ it. app_of it ≡ run_app) }
    ensures made { IfOk result AsksForPages }
{
    clap::Command::new(alloc, "run")
        .about("Play the script on standard input on a formatted volume")
        .override_usage(RUN_USAGE)
        .bin_name("imgcopy run")?
        .arg(pages_arg(alloc))?
        .arg(frames_arg(alloc))?
        .arg(save_arg(alloc))?
        .arg(saved_manifest_arg(alloc))?
        .arg(strict_arg(alloc))?
        .arg(save_force_arg(alloc))
}

fn restore_command<'a>(alloc: Global) -> Result<clap::Command<'a>, AllocError>
    ensures app { IfOk result (λ it. app_of it ≡ restore_app) }
    ensures made { IfOk result AsksForFiles }
{
    clap::Command::new(alloc, "restore")
        .about(RESTORE_ABOUT)
        .override_usage(RESTORE_USAGE)
        .bin_name("imgcopy restore")?
        .arg(log_arg(alloc))?
        .arg(master_arg(alloc))?
        .arg(archive_arg(alloc))?
        .arg(output_arg(alloc))?
        .arg(log_output_arg(alloc))?
        .arg(force_arg(alloc))?
        .arg(until_arg(alloc))?
        .arg(manifest_arg(alloc))?
        .arg(no_manifest_arg(alloc))
}

fn audit_command<'a>(alloc: Global) -> Result<clap::Command<'a>, AllocError>
    ensures app { IfOk result (λ it. app_of it ≡ audit_app) }
    ensures made { IfOk result AsksForLog }
{
    clap::Command::new(alloc, "audit")
        .about("Check that a chain of image copies restores what the log says")
        .override_usage(AUDIT_USAGE)
        .bin_name("imgcopy audit")?
        .arg(log_arg(alloc))?
        .arg(archive_arg(alloc))?
        .arg(audited_master_arg(alloc))?
        .arg(all_arg(alloc))?
        .arg(until_arg(alloc))?
        .arg(manifest_arg(alloc))?
        .arg(no_manifest_arg(alloc))
}

fn pages_arg<'a>(alloc: Global) -> Arg<'a>
    ensures rule { rule_of result ≡ pages_rule }
    ensures fits { FitsChain result }
    ensures value { TakesValue result }
    ensures parser { result.value_parser ≡ Some count_parser }
{
    Arg::new(alloc, "pages")
        .long("pages")
        .value_name("N")
        .help("How many pages the volume has, 1 to 65536")
        .required(true)
        .action(ArgAction::Set)
        .value_parser(clap::value_parser!(u32).range(1..=65_536))
}

pub(crate) fn frames_arg<'a>(alloc: Global) -> Arg<'a>
    ensures rule { rule_of result ≡ frames_rule }
    ensures fits { FitsChain result }
    ensures parser { result.value_parser ≡ Some count_parser }
{
    Arg::new(alloc, "frames")
        .long("frames")
        .value_name("B")
        .help("How many pages may be in memory at a time, 1 to 65536; 65536 if not given")
        .action(ArgAction::Set)
        .value_parser(clap::value_parser!(u32).range(1..=MOST_FRAMES))
}

fn save_arg<'a>(alloc: Global) -> Arg<'a>
    ensures rule { rule_of result ≡ save_rule }
    ensures fits { FitsChain result }
{
    Arg::new(alloc, "save")
        .long("save")
        .value_name("FOLDER")
        .help("Write the log, the master record and the complete copies into this folder")
        .action(ArgAction::Set)
}

fn saved_manifest_arg<'a>(alloc: Global) -> Arg<'a>
    ensures rule { rule_of result ≡ saved_manifest_rule }
    ensures fits { FitsChain result }
{
    Arg::new(alloc, "manifest")
        .long("manifest")
        .help("Write a manifest of these files, too: restore and audit compare with it")
        .action(ArgAction::SetTrue)
}

fn save_force_arg<'a>(alloc: Global) -> Arg<'a>
    ensures rule { rule_of result ≡ force_rule }
    ensures fits { FitsChain result }
{
    force_with(alloc, "Save into the folder of a database, too")
}

pub(crate) fn strict_arg<'a>(alloc: Global) -> Arg<'a>
    ensures rule { rule_of result ≡ strict_rule }
    ensures fits { FitsChain result }
{
    Arg::new(alloc, "is_strict")
        .long("strict")
        .help("End with status 1 if a call was refused, and say so")
        .action(ArgAction::SetTrue)
}

pub(crate) fn force_arg<'a>(alloc: Global) -> Arg<'a>
    ensures rule { rule_of result ≡ force_rule }
    ensures fits { FitsChain result }
{
    force_with(
        alloc,
        "Let an output replace a log, a master record, an image copy or an input",
    )
}

fn force_with<'a>(alloc: Global, help: &'a str) -> Arg<'a>
    ensures rule { rule_of result ≡ force_rule }
    ensures fits { FitsChain result }
{
    Arg::new(alloc, "with_force")
        .long("force")
        .help(help)
        .action(ArgAction::SetTrue)
}

pub(crate) fn output_arg<'a>(alloc: Global) -> Arg<'a>
    ensures rule { rule_of result ≡ output_rule }
    ensures fits { FitsChain result }
{
    Arg::new(alloc, "into")
        .short('o')
        .long("output")
        .value_name("FILE")
        .help(
            "Write the volume to this file, put in place when whole and synced; - is standard output",
        )
        .action(ArgAction::Set)
}

pub(crate) fn log_output_arg<'a>(alloc: Global) -> Arg<'a>
    ensures rule { rule_of result ≡ log_output_rule }
    ensures fits { FitsChain result }
{
    Arg::new(alloc, "log_into")
        .long("log-out")
        .value_name("FILE")
        .help("Write the log to this file, too, with the records that undo appends")
        .action(ArgAction::Set)
}

pub(crate) fn until_arg<'a>(alloc: Global) -> Arg<'a>
    ensures rule { rule_of result ≡ until_rule }
    ensures fits { FitsChain result }
    ensures parser { result.value_parser ≡ Some lsn_parser }
{
    Arg::new(alloc, "until_lsn")
        .long("until")
        .value_name("LSN")
        .help("Let the log count up to the record at this LSN, that one included")
        .action(ArgAction::Set)
        .value_parser(clap::value_parser!(u32).range(0..=67_108_928))
}

fn all_arg<'a>(alloc: Global) -> Arg<'a>
    ensures rule { rule_of result ≡ all_rule }
    ensures fits { FitsChain result }
{
    Arg::new(alloc, "every")
        .long("all")
        .help("Show each unsound page, up to 1000 of them")
        .action(ArgAction::SetTrue)
}

fn audited_master_arg<'a>(alloc: Global) -> Arg<'a>
    ensures rule { rule_of result ≡ audited_master_rule }
    ensures fits { FitsChain result }
{
    Arg::new(alloc, "master")
        .long("master")
        .value_name("FILE")
        .help("Check this master record, too, as restore does")
        .action(ArgAction::Set)
}

fn log_arg<'a>(alloc: Global) -> Arg<'a>
    ensures rule { rule_of result ≡ log_rule }
    ensures fits { FitsChain result }
    ensures value { TakesValue result }
{
    Arg::new(alloc, "log")
        .value_name("LOG")
        .help("The log")
        .required(true)
        .action(ArgAction::Set)
}

fn master_arg<'a>(alloc: Global) -> Arg<'a>
    ensures rule { rule_of result ≡ master_rule }
    ensures fits { FitsChain result }
    ensures value { TakesValue result }
{
    Arg::new(alloc, "master")
        .value_name("MASTER")
        .help("The master record of the log")
        .required(true)
        .action(ArgAction::Set)
}

fn archive_arg<'a>(alloc: Global) -> Arg<'a>
    ensures rule { rule_of result ≡ archive_rule }
    ensures fits { FitsChain result }
{
    Arg::new(alloc, "archive")
        .value_name("ARCHIVE")
        .help("The archives of a chain of copies, the full one first")
        .num_args(0..)
        .action(ArgAction::Append)
}
