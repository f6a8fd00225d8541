//! Why the program does not do what its words say.

use script_run::{FinishFault, ScriptRunFault};
use thiserror::Error;

const NO_OUTPUT: &str = "\
error: --force needs the argument:
  --output <FILE>

Usage: imgcopy redo [OPTIONS] < LOG

For more information, try '--help'.";

const NO_FOLDER: &str = "\
error: --manifest needs the argument:
  --save <FOLDER>

Usage: imgcopy run --pages <N> [OPTIONS] < SCRIPT

For more information, try '--help'.";

const TWO_MANIFESTS: &str = "\
error: the argument '--manifest <FILE>' cannot be used with '--no-manifest'

For more information, try '--help'.";

/// Why the program did not do what its words say, or not to the end. Its text goes to standard
/// error.
#[derive(Debug, Drop, Error)]
pub enum ProgramFault {
    /// `redo` may replace a file, and names none.
    #[error("{text}", text = NO_OUTPUT)]
    NoOutput,
    /// `run` is to write a manifest, and to save no files.
    #[error("{text}", text = NO_FOLDER)]
    NoFolder,
    /// A manifest is named, and none is to count.
    #[error("{text}", text = TWO_MANIFESTS)]
    TwoManifests,
    /// A script is not played.
    #[error(transparent)]
    Run(#[from] ScriptRunFault),
    /// The last restore of a script came to no end.
    #[error(transparent)]
    Finish(#[from] FinishFault),
}
