//! A manifest to its text.

ghost use Rattle.std.specs.Prelude.{◌≡◌, ◌++◌, OnOk, IfOk, string_bytes};
ghost use Rattle.std.specs.List.{flat_map};
ghost use Rattle.manifest.specs.Text.{break_of, entry_text, head_text, word_of};

use crate::entry::{Entry, Extent};
use crate::sum::DatabaseName;
use std::alloc::{AllocError, Global};

impl Extent {
    /// What stands before a length.
    pub(crate) fn word(self) -> &'static str
        ensures { result.now ≡ word_of self }
    {
        match self {
            Extent::Whole => "# whole ",
            Extent::First => "# first ",
        }
    }

    /// What stands behind a length.
    pub(crate) fn break_byte(self) -> u8
        ensures { result ≡ break_of self }
    {
        match self {
            Extent::Whole => b'\n',
            Extent::First => b' ',
        }
    }
}

/// The head of a manifest of this database.
pub(crate) fn head(alloc: Global, database: DatabaseName) -> Result<String, AllocError>
    ensures { IfOk result (λ text. string_bytes text ≡ head_text database.0) }
{
    format!(in alloc; "# imgcopy manifest 1 database {database}\n")
}

/// Writes entries behind a text.
pub(crate) fn push_entries(text: &mut String, entries: &[Entry]) -> Result<(), AllocError>
    ensures { OnOk result (string_bytes text.new
        ≡ string_bytes text.old ++ flat_map entry_text entries.now) }
{
    for entry in entries {
        push_entry(text, entry)?;
    }
    Ok(())
}

fn push_entry(text: &mut String, entry: &Entry) -> Result<(), AllocError>
    ensures { OnOk result (string_bytes text.new
        ≡ string_bytes text.old ++ entry_text entry.now) }
{
    let file = entry.file();
    let (bytes, sum) = (file.bytes, file.sum);
    let word = file.extent.word();
    let name = entry.name();
    match file.extent {
        Extent::Whole => write!(text, "{word}{bytes}\n{sum}  {name}\n"),
        Extent::First => write!(text, "{word}{bytes} {sum}  {name}\n"),
    }
}
