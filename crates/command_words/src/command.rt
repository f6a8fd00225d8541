//! The command line: the first word names a command, and `clap` reads the words after it.
ghost use Rattle.std.specs.Prelude.{◌≡◌, ◌≢◌, ◌≤◌, ◌↔◌, ◌⊎◌, ◌∷◌, IfErr, IfOk, IsTrue, MatchOption};
ghost use Rattle.std.specs.Prelude.{IsErrAnd, IsSomeAnd, MatchResult, Ok, Some, [], codes};
ghost use Rattle.std.specs.Prelude.{is_some, map, option_map, slice_get, true, unwrap_or};
ghost use Rattle.clap.specs.Words.{fault_of, first_value, found_of, kind_of, matched_of, one_of};
ghost use Rattle.clap.specs.Words.{raw_values, rows_of};
ghost use Rattle.command_words.specs.Arguments.{PassesFrames, PassesPages};
ghost use Rattle.command_words.specs.Command.{AsksForVersion, Explains, Gives, HasCounts, IsNumberRead};
ghost use Rattle.command_words.specs.Command.{IsRedo, IsTaken};
ghost use Rattle.command_words.specs.Command.{ExplainsRead, ExplainsUnknown, IsFar, IsFramesRead};
ghost use Rattle.command_words.specs.Command.{IsNear, IsUnknown, Names};
ghost use Rattle.command_words.specs.Command.{audit_app, redo_app, redo_into_app, restore_app};
ghost use Rattle.command_words.specs.Command.{run_app};
ghost use Rattle.command_words.specs.declared.command.UsageFault.TheVariants.{BadArguments};
ghost use Rattle.command_words.specs.declared.command.UsageFault.TheVariants.{OutOfMemory};
ghost use Rattle.clap.specs.declared.error.kind.ErrorKind.TheVariants as kind;

use crate::arguments::{
    audit_matches, redo_into_matches, redo_matches, restore_matches, run_matches,
};
use crate::folder_words::{backup_of, renew_of, verify_of};
use crate::open_words::open_of;
use crate::restore_words::{names_copy, restore_folder_of};
use crate::view_words::{list_of, number_in, show_of};
use clap::ArgMatches;
use clap::error::ErrorKind;
use page_core::FaultName;
use std::alloc::{AllocError, Global};
use std::convert::AsStr;
use strsim::levenshtein;
use thiserror::Error;

/// What the command line tells the program to do.
#[derive(Debug, Drop, PartialEq, Eq)]
pub enum Command<'a> {
    /// To redo the log on standard input.
    Redo,
    /// The same, of the log up to the record at an LSN, if one is told. The volume goes into this
    /// file, if one is named, or to standard output by the name `-`, here and below. With force it
    /// replaces a file that is kept else, as in the other commands that write files. An LSN is at
    /// most 67,108,928, here and below.
    RedoInto {
        output: Option<&'a str>,
        force: bool,
        until: Option<u32>,
    },
    /// To play the script on standard input on a volume of so many pages, with memory for so many
    /// of them at a time, each 1 to 65,536. The log, the master record and the copies go into the
    /// folder, if one is named, and then a manifest of these, if one is asked for. If it is strict, a
    /// refused call is told at the end.
    Run {
        pages: u32,
        frames: u32,
        save: Option<&'a str>,
        manifest: bool,
        strict: bool,
        force: bool,
    },
    /// To open the database in this folder, with memory for so many pages at a time. A new one has
    /// so many pages. Each is 1 to 65,536. With salvage a damaged log may be cut where it is right
    /// to, and what is cut off is put aside. If it is strict, a refused call is told at the end.
    Open {
        folder: &'a str,
        pages: Option<u32>,
        frames: u32,
        salvage: bool,
        strict: bool,
    },
    /// To restore a volume of these files: the log, its master record, and the archives of a chain
    /// of copies, the full one first. The volume goes into the output, if one is named, and so does
    /// the log after undo. The log counts up to the record at an LSN, if one is told. The manifest
    /// of the files is this one, or there is to be none; else it is the one that stands beside them.
    Restore {
        log: &'a str,
        master: &'a str,
        archives: Vec<&'a str>,
        output: Option<&'a str>,
        log_output: Option<&'a str>,
        force: bool,
        until: Option<u32>,
        manifest: Option<&'a str>,
        no_manifest: bool,
    },
    /// To restore a volume of the files in this folder: of the newest chain of copies that is whole,
    /// or of that of the copy of this number, at least 1. The rest is as in `Restore`.
    RestoreFolder {
        folder: &'a str,
        copy: Option<u32>,
        output: Option<&'a str>,
        log_output: Option<&'a str>,
        force: bool,
        until: Option<u32>,
        manifest: Option<&'a str>,
        no_manifest: bool,
    },
    /// To audit a chain of copies against a log: the log, and the archives of the chain, the full
    /// one first, and then the master record, if one is named. All unsound pages are told, or the
    /// first one. The log counts up to the record at an LSN, if one is told. The manifest is told as
    /// for a restore.
    Audit {
        log: &'a str,
        archives: Vec<&'a str>,
        master: Option<&'a str>,
        all: bool,
        until: Option<u32>,
        manifest: Option<&'a str>,
        no_manifest: bool,
    },
    /// To print what a file has: a log, a master record, an archive or a volume. Of a log only the
    /// records from one LSN to another, those that name the transaction, and those that name the
    /// page, where these are told, or of these the commits alone; of an archive or a volume the page
    /// alone, where one is. A transaction's number is at least 1, a page's at most 65,535.
    Show {
        file: &'a str,
        from: Option<u32>,
        to: Option<u32>,
        txn: Option<u32>,
        page: Option<u32>,
        json: bool,
        commits: bool,
    },
    /// To print which copies stand in this folder, and what restores of them would do. The manifest
    /// is told as for a restore.
    ListFolder {
        folder: &'a str,
        json: bool,
        manifest: Option<&'a str>,
        no_manifest: bool,
    },
    /// To open the closed database in this folder, make a checkpoint and an image copy, and close
    /// it. The copy stands on the one of this number, at least 1, or on the newest one, or it is a
    /// full one. The files go into the second folder, too, if one is named.
    Backup {
        folder: &'a str,
        on: Option<u32>,
        full: bool,
        into: Option<&'a str>,
    },
    /// To check the files of this folder against its manifest, which is told as for a restore, and
    /// that its copies restore.
    Verify {
        folder: &'a str,
        manifest: Option<&'a str>,
        no_manifest: bool,
    },
    /// To make a database in the new folder that begins with the numbers of the closed one in the
    /// old folder, and whose log begins anew.
    Renew {
        old: &'a str,
        new: &'a str,
    },
    /// To tell which version of the program this is.
    Version,
}

/// As many frames as a volume has pages at most, so that no page has to leave memory.
pub(crate) const DEFAULT_FRAMES: u32 = 65_536;

const NAMES: [&str; 11] = [
    "redo", "run", "open", "backup", "restore", "audit", "verify", "show", "list", "renew", "help",
];

const HELP: &str = "\
Usage: imgcopy <COMMAND>

Commands:
  redo     Write the volume that the log on standard input makes
  run      Play the script on standard input on a formatted volume
  open     Open the database in a folder, and answer the lines of standard input
  backup   Make a checkpoint and an image copy of a closed database
  restore  Write the volume that a log and image copies restore
  audit    Check that a chain of image copies restores what the log says
  verify   Check the files of a folder against its manifest, and that its copies restore
  show     Print what a log, a master record, an image copy or a volume has
  list     Print which copies a folder has, and what restores of them would do
  renew    Make a new database of the numbers of a closed one, with an empty log
  help     Print this help, or that of a command

Options:
  -h, --help     Print this help
  -V, --version  Print the version

For the arguments of a command, try 'imgcopy help <COMMAND>'.
This is imgcopy 0.2.0.
";

/// Why the words give no command. Its `Display` is the whole text for the user, with its last line
/// break.
#[derive(Debug, Drop, Error)]
pub enum UsageFault<'a> {
    #[error("{help}", help = HELP)]
    HelpAsked,
    #[error("error: no command was given\n\n{help}", help = HELP)]
    NoCommand,
    #[error("error: unrecognized command '{0}'\n\n{help}", help = HELP)]
    UnknownCommand(&'a str),
    /// The word names no command, but it is close to a name.
    #[error("error: unrecognized command '{0}'\n\n  tip: a similar command exists: '{1}'\n\n{help}", help = HELP)]
    MisspelledCommand(&'a str, &'static str),
    /// The words after the command's name are wrong, or ask for its help.
    #[error(transparent)]
    BadArguments(clap::Error),
    #[error("{name}\n", name = FaultName::OutOfMemory)]
    OutOfMemory,
}

impl From<AllocError> for UsageFault<'_> {
    ghost from_gives = { λ _ fault. fault ≡ OutOfMemory };

    fn from(_error: AllocError) -> Self {
        UsageFault::OutOfMemory
    }
}

impl From<clap::Error> for UsageFault<'_> {
    ghost from_gives = { λ error fault.
        ((kind_of error ≡ kind.OutOfMemory) × (fault ≡ OutOfMemory))
        ⊎ ((kind_of error ≢ kind.OutOfMemory) × (fault ≡ BadArguments error)) };

    fn from(error: clap::Error) -> Self {
        match error.kind() {
            ErrorKind::OutOfMemory => UsageFault::OutOfMemory,
            _ => UsageFault::BadArguments(error),
        }
    }
}

/// Reads the words of the command line that follow the program's name.
pub fn command_of<'a, S: AsStr>(
    alloc: Global,
    words: &'a [S],
) -> Result<Command<'a>, UsageFault<'a>>
    ensures ok { IfOk result (Gives (map S.text words.now)) }
    ensures counts { IfOk result HasCounts }
    ensures only { IfErr result (λ fault.
        IsTaken (map S.text words.now) → fault ≡ UsageFault.OutOfMemory) }
    ensures explained { IfErr result (Explains (map S.text words.now)) }

    ensures version { IsSomeAnd (slice_get (map S.text words.now) 0) AsksForVersion →
        result ≡ Ok Command.Version }

    // What the clauses above come to for `redo`, with no word of clap's.
    ensures redo { IsRedo (map S.text words.now) → MatchResult result
        (λ command. command ≡ Command.Redo) (λ fault. fault ≡ UsageFault.OutOfMemory) }
    ensures redo_only { IfOk result (λ command.
        command ≡ Command.Redo → IsRedo (map S.text words.now)) }
{
    let Some(name) = words.first() else {
        return Err(UsageFault::NoCommand);
    };
    match name.as_str() {
        "redo" => redo_of(alloc, words),
        "run" => run_of(alloc, words),
        "open" => open_of(alloc, words),
        "backup" => backup_of(alloc, words),
        "restore" => restore_of(alloc, words),
        "audit" => audit_of(alloc, words),
        "verify" => verify_of(alloc, words),
        "show" => show_of(alloc, words),
        "list" => list_of(alloc, words),
        "renew" => renew_of(alloc, words),
        "help" => match words.get(1) {
            Some(command) => help_of(alloc, command.as_str()),
            None => Err(UsageFault::HelpAsked),
        },
        "--help" | "-h" => Err(UsageFault::HelpAsked),
        "--version" | "-V" => Ok(Command::Version),
        other => Err(fault_of_unknown(alloc, other)),
    }
}

/// Reads `help NAME` as `NAME --help`.
fn help_of<'a>(alloc: Global, name: &'a str) -> Result<Command<'a>, UsageFault<'a>>
    ensures refused { IfOk result (λ _. ⊥) }
    ensures explained { IfErr result (ExplainsRead (name.now ∷ codes "--help" ∷ [])) }
{
    match name {
        "redo" => redo_into_of(alloc, &["redo", "--help"]),
        "run" => run_of(alloc, &["run", "--help"]),
        "open" => open_of(alloc, &["open", "--help"]),
        "backup" => backup_of(alloc, &["backup", "--help"]),
        "restore" => restore_files_of(alloc, &["restore", "--help"]),
        "audit" => audit_of(alloc, &["audit", "--help"]),
        "verify" => verify_of(alloc, &["verify", "--help"]),
        "show" => show_of(alloc, &["show", "--help"]),
        "list" => list_of(alloc, &["list", "--help"]),
        "renew" => renew_of(alloc, &["renew", "--help"]),
        "help" | "--help" | "-h" => Err(UsageFault::HelpAsked),
        _ => Err(fault_of_unknown(alloc, name)),
    }
}

/// Why a word that names no command gives none.
fn fault_of_unknown<'a>(alloc: Global, word: &'a str) -> UsageFault<'a>
    ensures { IsUnknown word.now → ExplainsUnknown word.now result }
{
    match nearest(alloc, word) {
        Ok(Some(name)) => UsageFault::MisspelledCommand(word, name),
        Ok(None) => UsageFault::UnknownCommand(word),
        Err(_) => UsageFault::OutOfMemory,
    }
}

/// The name that is the fewest edits away from the word, if they are at most two.
fn nearest(alloc: Global, word: &str) -> Result<Option<&'static str>, AllocError>
    ensures { IfOk result (λ near.
        MatchOption near (IsFar word.now) (λ name. IsNear word.now name.now)) }
{
    let mut best = None;
    let mut least = 3;
    for name in NAMES {
        let edits = levenshtein(alloc, word, name)?;
        if edits < least {
            best = Some(name);
            least = edits;
        }
    }
    Ok(best)
}

/// `redo` alone writes to standard output what the whole log makes. Else options follow it.
fn redo_of<'a, S: AsStr>(alloc: Global, words: &'a [S]) -> Result<Command<'a>, UsageFault<'a>>
    requires { Names (map S.text words.now) redo_app }
    ensures ok { IfOk result (Gives (map S.text words.now)) }
    ensures counts { IfOk result HasCounts }
    ensures only { IfErr result (λ fault.
        IsTaken (map S.text words.now) → fault ≡ UsageFault.OutOfMemory) }
    ensures explained { IfErr result (ExplainsRead (map S.text words.now)) }
    ensures redo { IsRedo (map S.text words.now) → MatchResult result
        (λ command. command ≡ Command.Redo) (λ fault. fault ≡ UsageFault.OutOfMemory) }
    ensures redo_only { IfOk result (λ command.
        command ≡ Command.Redo → IsRedo (map S.text words.now)) }
{
    if is_redo(words) {
        redo_alone_of(alloc, words)
    } else {
        redo_into_of(alloc, words)
    }
}

/// Whether nothing follows `redo`, or what only ends the options.
fn is_redo<S: AsStr>(words: &[S]) -> bool
    requires { Names (map S.text words.now) redo_app }
    ensures { IsTrue result ↔ IsRedo (map S.text words.now) }
{
    match words.len() {
        1 => true,
        2 => words[1].as_str() == "--",
        _ => false,
    }
}

fn redo_into_of<'a, S: AsStr>(alloc: Global, words: &'a [S]) -> Result<Command<'a>, UsageFault<'a>>
    requires { Names (map S.text words.now) redo_into_app }
    ensures ok { IfOk result (Gives (map S.text words.now)) }
    ensures is_redo_into { IfOk result (λ command. command ≢ Command.Redo) }
    ensures counts { IfOk result HasCounts }
    ensures only { IfErr result (λ fault.
        fault_of redo_into_app (map S.text words.now) ≡ [] → fault ≡ UsageFault.OutOfMemory) }
    ensures explained { IfErr result (ExplainsRead (map S.text words.now)) }
{
    let matches = redo_into_matches(alloc, words)?;
    let output = matches.get_str("into");
    let force = matches.get_flag("with_force");
    let until = number_in(&matches, "until_lsn");
    Ok(Command::RedoInto {
        output,
        force,
        until,
    })
}

fn redo_alone_of<'a, S: AsStr>(alloc: Global, words: &'a [S]) -> Result<Command<'a>, UsageFault<'a>>
    requires { Names (map S.text words.now) redo_app }
    ensures ok { IfOk result (Gives (map S.text words.now)) }
    ensures is_redo { IfOk result (λ command. command ≡ Command.Redo) }
    ensures only { IfErr result (λ fault.
        fault_of redo_app (map S.text words.now) ≡ [] → fault ≡ UsageFault.OutOfMemory) }
    ensures explained { IfErr result (ExplainsRead (map S.text words.now)) }
{
    redo_matches(alloc, words)?;
    Ok(Command::Redo)
}

fn run_of<'a, S: AsStr>(alloc: Global, words: &'a [S]) -> Result<Command<'a>, UsageFault<'a>>
    requires { Names (map S.text words.now) run_app }
    ensures ok { IfOk result (Gives (map S.text words.now)) }
    ensures counts { IfOk result HasCounts }
    ensures is_run { IfOk result (λ command. command ≢ Command.Redo) }
    ensures only { IfErr result (λ fault.
        fault_of run_app (map S.text words.now) ≡ [] → fault ≡ UsageFault.OutOfMemory) }
    ensures explained { IfErr result (ExplainsRead (map S.text words.now)) }
{
    let matches = run_matches(alloc, words)?;
    let pages = pages_in(&matches);
    let frames = frames_in(&matches);
    let save = matches.get_str("save");
    let manifest = matches.get_flag("manifest");
    let strict = matches.get_flag("is_strict");
    let force = matches.get_flag("with_force");
    Ok(Command::Run {
        pages,
        frames,
        save,
        manifest,
        strict,
        force,
    })
}

fn pages_in(matches: &ArgMatches<'_>) -> u32
    requires { PassesPages (found_of matches.now) }
    ensures least { 1 ≤ result }
    ensures most { result ≤ 65536 }
    ensures read { IsNumberRead (one_of (codes "pages") (rows_of (found_of matches.now))) result }
{
    matches.get_one::<u32>("pages").unwrap()
}

pub(crate) fn frames_in(matches: &ArgMatches<'_>) -> u32
    requires { PassesFrames (found_of matches.now) }
    ensures least { 1 ≤ result }
    ensures most { result ≤ 65536 }
    ensures read { IsFramesRead
        (one_of (codes "frames") (rows_of (found_of matches.now))) result }
{
    matches.get_one::<u32>("frames").unwrap_or(DEFAULT_FRAMES)
}

/// `restore` takes files. Words that do not name them may name a folder.
fn restore_of<'a, S: AsStr>(alloc: Global, words: &'a [S]) -> Result<Command<'a>, UsageFault<'a>>
    requires { Names (map S.text words.now) restore_app }
    ensures ok { IfOk result (Gives (map S.text words.now)) }
    ensures counts { IfOk result HasCounts }
    ensures is_restore { IfOk result (λ command. command ≢ Command.Redo) }
    ensures only { IfErr result (λ fault.
        IsTaken (map S.text words.now) → fault ≡ UsageFault.OutOfMemory) }
    ensures explained { IfErr result (ExplainsRead (map S.text words.now)) }
{
    match restore_files_of(alloc, words) {
        Err(UsageFault::BadArguments(fault)) => {
            let given = restore_folder_of(alloc, words);
            if is_refused_else(&given, words) {
                Err(UsageFault::BadArguments(fault))
            } else {
                given
            }
        }
        given => given,
    }
}

/// Whether words that are those of no folder are told as those of no files.
fn is_refused_else<S: AsStr>(given: &Result<Command<'_>, UsageFault<'_>>, words: &[S]) -> bool
    ensures { IsTrue result → IsErrAnd given.now (λ fault. fault ≢ UsageFault.OutOfMemory) }
{
    match given {
        Err(UsageFault::BadArguments(_)) => !names_copy(words),
        _ => false,
    }
}

fn restore_files_of<'a, S: AsStr>(
    alloc: Global,
    words: &'a [S],
) -> Result<Command<'a>, UsageFault<'a>>
    requires { Names (map S.text words.now) restore_app }
    ensures ok { IfOk result (Gives (map S.text words.now)) }
    ensures counts { IfOk result HasCounts }
    ensures is_restore { IfOk result (λ command. command ≢ Command.Redo) }
    ensures only { IfErr result (λ fault.
        fault_of restore_app (map S.text words.now) ≡ [] → fault ≡ UsageFault.OutOfMemory) }
    ensures explained { IfErr result (ExplainsRead (map S.text words.now)) }
{
    let matches = restore_matches(alloc, words)?;
    let log = value_in(&matches, "log");
    let master = value_in(&matches, "master");
    let archives = archives_in(alloc, &matches)?;
    let output = matches.get_str("into");
    let log_output = matches.get_str("log_into");
    let force = matches.get_flag("with_force");
    let until = number_in(&matches, "until_lsn");
    let manifest = matches.get_str("manifest_file");
    let no_manifest = matches.get_flag("without_sums");
    Ok(Command::Restore {
        log,
        master,
        archives,
        output,
        log_output,
        force,
        until,
        manifest,
        no_manifest,
    })
}

fn audit_of<'a, S: AsStr>(alloc: Global, words: &'a [S]) -> Result<Command<'a>, UsageFault<'a>>
    requires { Names (map S.text words.now) audit_app }
    ensures ok { IfOk result (Gives (map S.text words.now)) }
    ensures counts { IfOk result HasCounts }
    ensures is_audit { IfOk result (λ command. command ≢ Command.Redo) }
    ensures only { IfErr result (λ fault.
        fault_of audit_app (map S.text words.now) ≡ [] → fault ≡ UsageFault.OutOfMemory) }
    ensures explained { IfErr result (ExplainsRead (map S.text words.now)) }
{
    let matches = audit_matches(alloc, words)?;
    let log = value_in(&matches, "log");
    let archives = archives_in(alloc, &matches)?;
    let master = matches.get_str("master");
    let all = matches.get_flag("every");
    let until = number_in(&matches, "until_lsn");
    let manifest = matches.get_str("manifest_file");
    let no_manifest = matches.get_flag("without_sums");
    Ok(Command::Audit {
        log,
        archives,
        master,
        all,
        until,
        manifest,
        no_manifest,
    })
}

pub(crate) fn value_in<'a>(matches: &ArgMatches<'a>, id: &str) -> &'a str
    requires { is_some (first_value (found_of matches.now) id.now) ≡ true }
    ensures { first_value (found_of matches.now) id.now ≡ Some result.now }
{
    matches.get_str(id).unwrap()
}

fn archives_in<'a>(alloc: Global, matches: &ArgMatches<'a>) -> Result<Vec<&'a str>, AllocError>
    ensures { IfOk result (λ names. map (λ name. name.now) names.items ≡ unwrap_or
        (option_map raw_values (matched_of (found_of matches.now) (codes "archive"))) []) }
{
    match matches.get_strs("archive") {
        Some(names) => names.to_vec(alloc),
        None => Ok(Vec::new(alloc)),
    }
}
