//! The options that say which manifest counts for the files that a command reads.
ghost use Rattle.std.specs.Prelude.{◌≡◌};
ghost use Rattle.clap.specs.Built.{FitsChain};
ghost use Rattle.clap.specs.Words.{rule_of};
ghost use Rattle.command_words.specs.Command.{manifest_rule, no_manifest_rule};

use clap::{Arg, ArgAction};
use std::alloc::Global;

pub(crate) fn manifest_arg<'a>(alloc: Global) -> Arg<'a>
    ensures rule { rule_of result ≡ manifest_rule }
    ensures fits { FitsChain result }
{
    Arg::new(alloc, "manifest_file")
        .long("manifest")
        .value_name("FILE")
        .help(
            "Take this file as the manifest of the files, in place of one that stands beside them",
        )
        .action(ArgAction::Set)
}

pub(crate) fn no_manifest_arg<'a>(alloc: Global) -> Arg<'a>
    ensures rule { rule_of result ≡ no_manifest_rule }
    ensures fits { FitsChain result }
{
    Arg::new(alloc, "without_sums")
        .long("no-manifest")
        .help("Look at no manifest: the files are not compared")
        .action(ArgAction::SetTrue)
}
