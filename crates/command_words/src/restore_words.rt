//! The words of `restore` with a folder, as `clap` reads them.
ghost use Rattle.std.specs.Prelude.{◌≡◌, ◌≢◌, IfErr, IfOk, Some, [], codes, is_some, map, pos, true};
ghost use Rattle.clap.specs.Built.{FitsChain};
ghost use Rattle.clap.specs.Words.{app_of, fault_of, first_value, found_of, matches_of, rows_of};
ghost use Rattle.clap.specs.Words.{rule_of};
ghost use Rattle.clap.specs.declared.builder.value_parser.ValueParser.TheVariants.{Signed};
ghost use Rattle.command_words.specs.Arguments.{AsksForCopies, PassesCopy, PassesNumber};
ghost use Rattle.command_words.specs.Command.{ExplainsRead, Gives, HasCounts, Names, copy_rule};
ghost use Rattle.command_words.specs.Command.{restore_folder_app};
ghost use Rattle.command_words.specs.declared.command.Command.TheVariants as command;
ghost use Rattle.command_words.specs.declared.command.UsageFault.TheVariants.{OutOfMemory};

use crate::arguments::{
    RESTORE_ABOUT, RESTORE_USAGE, force_arg, log_output_arg, output_arg, until_arg,
};
use crate::command::{Command, UsageFault, value_in};
use crate::folder_words::copy_in;
use crate::manifest_words::{manifest_arg, no_manifest_arg};
use crate::open_words::folder_arg;
use crate::view_words::number_in;
use clap::{Arg, ArgAction, ArgMatches};
use std::alloc::{AllocError, Global};
use std::convert::AsStr;

/// Reads the words of `restore` with a folder.
pub(crate) fn restore_folder_of<'a, S: AsStr>(
    alloc: Global,
    words: &'a [S],
) -> Result<Command<'a>, UsageFault<'a>>
    requires { Names (map S.text words.now) restore_folder_app }
    ensures ok { IfOk result (Gives (map S.text words.now)) }
    ensures counts { IfOk result HasCounts }
    ensures is_restore { IfOk result (λ it. it ≢ command.Redo) }
    ensures only { IfErr result (λ fault.
        fault_of restore_folder_app (map S.text words.now) ≡ [] → fault ≡ OutOfMemory) }
    ensures explained { IfErr result (ExplainsRead (map S.text words.now)) }
{
    let matches = restore_folder_matches(alloc, words)?;
    let folder = value_in(&matches, "dir");
    let copy = copy_in(&matches, "which");
    let output = matches.get_str("into");
    let log_output = matches.get_str("log_into");
    let force = matches.get_flag("with_force");
    let until = number_in(&matches, "until_lsn");
    let manifest = matches.get_str("manifest_file");
    let no_manifest = matches.get_flag("without_sums");
    Ok(Command::RestoreFolder {
        folder,
        copy,
        output,
        log_output,
        force,
        until,
        manifest,
        no_manifest,
    })
}

/// Whether a word looks like the option that goes with a folder alone. Of words that are wrong it
/// says which fault is the one to tell.
pub(crate) fn names_copy<S: AsStr>(words: &[S]) -> bool {
    words.iter().any(|word| word.as_str().starts_with("--copy"))
}

/// What `clap` makes of the words of `restore` with a folder.
fn restore_folder_matches<'a, S: AsStr>(
    alloc: Global,
    words: &'a [S],
) -> Result<ArgMatches<'a>, UsageFault<'a>>
    requires { Names (map S.text words.now) restore_folder_app }
    ensures taken { IfOk result (λ _. fault_of restore_folder_app (map S.text words.now) ≡ []) }
    ensures rows { IfOk result (λ it.
        rows_of (found_of it) ≡ matches_of restore_folder_app (map S.text words.now)) }
    ensures folder { IfOk result (λ it.
        is_some (first_value (found_of it) (codes "dir")) ≡ true) }
    ensures copy { IfOk result (λ it. PassesCopy (found_of it) (codes "which")) }
    ensures until { IfOk result (λ it. PassesNumber (found_of it) (codes "until_lsn")) }
    ensures only { IfErr result (λ fault.
        fault_of restore_folder_app (map S.text words.now) ≡ [] → fault ≡ OutOfMemory) }
    ensures explained { IfErr result (ExplainsRead (map S.text words.now)) }
{
    Ok(restore_folder_command(alloc)?.try_get_matches_from(words)?)
}

fn restore_folder_command<'a>(alloc: Global) -> Result<clap::Command<'a>, AllocError>
    ensures app { IfOk result (λ it. app_of it ≡ restore_folder_app) }
    ensures made { IfOk result AsksForCopies }
{
    clap::Command::new(alloc, "restore")
        .about(RESTORE_ABOUT)
        .override_usage(RESTORE_USAGE)
        .bin_name("imgcopy restore")?
        .arg(folder_arg(alloc))?
        .arg(copy_arg(alloc))?
        .arg(output_arg(alloc))?
        .arg(log_output_arg(alloc))?
        .arg(force_arg(alloc))?
        .arg(until_arg(alloc))?
        .arg(manifest_arg(alloc))?
        .arg(no_manifest_arg(alloc))
}

fn copy_arg<'a>(alloc: Global) -> Arg<'a>
    ensures rule { rule_of result ≡ copy_rule }
    ensures fits { FitsChain result }
    ensures parser { result.value_parser ≡ Some (Signed (pos 1) (pos 4294967295)) }
{
    Arg::new(alloc, "which")
        .long("copy")
        .value_name("N")
        .help("Restore the chain of copy N; that of the newest whole one if not given")
        .action(ArgAction::Set)
        .value_parser(clap::value_parser!(u32).range(1..=4_294_967_295))
}
