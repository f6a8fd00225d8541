//! What is known of a file that is to be read.

ghost use Rattle.std.specs.Prelude.{◌≡◌};
ghost use Rattle.checked_files.specs.Expected.{sum_of};

use manifest::FileSum;

/// A file that a manifest names: the name under which it is opened, and what is known of its bytes.
#[derive(Clone, Copy, Debug)]
pub struct Expected<'a> {
    pub name: &'a str,
    pub file: FileSum,
}

/// What is known of the file of this name.
pub(crate) fn sum_in(expected: &[Expected<'_>], name: &str) -> Option<FileSum>
    ensures { result ≡ sum_of name.now expected.now }
{
    for it in expected {
        if it.name == name {
            return Some(it.file);
        }
    }
    None
}
