//! An entry of a manifest: a file's name, and what is known of its bytes.

ghost use Rattle.std.specs.Prelude.{◌≡◌, ◌⊎◌, ◌↔◌, IsTrue, List, ℕ};
ghost use Rattle.std.specs.Str.{bytes_eq};
ghost use Rattle.manifest.specs.Entries.{is_name_byte, IsName};
ghost use Rattle.manifest.specs.Sums.{Collide, IsSumOf};

use crate::sum::Sum;
use std::marker::Model;

/// How much of a file is summed.
#[derive(Clone, Copy, Debug, PartialEq, Eq)]
pub enum Extent {
    /// All of it.
    Whole,
    /// Its beginning: it may have grown since.
    First,
}

/// What is known of a file: how much of it is summed, how many bytes that are, and their sum.
#[derive(Clone, Copy, Debug, PartialEq, Eq)]
pub struct FileSum {
    pub extent: Extent,
    pub bytes: u64,
    pub sum: Sum,
}

impl FileSum {
    /// Whether a file has this sum and this count of bytes. If it has, though it has other bytes,
    /// then these and the other ones are two texts with one digest.
    pub fn agrees(&self, sum: Sum, bytes: u64) -> bool
        ensures same { IsTrue result ↔ ((sum ≡ self.now.sum) × (bytes ≡ self.now.bytes)) }
        ensures detects { IsTrue result → (made found : List ℕ)
            → IsSumOf self.now.sum self.now.bytes made → IsSumOf sum bytes found
            → (found ≡ made) ⊎ Collide found made }
    {
        self.sum == sum && self.bytes == bytes
    }
}

/// An entry of a manifest.
#[derive(Drop)]
pub struct Entry {
    pub(crate) name: String,
    pub(crate) file: FileSum,
}

impl Model for Entry {
    ghost use Rattle.std.specs.Prelude.{string_bytes};
    ghost use Rattle.manifest.specs.Entries.{Noted};

    ghost Value = { Noted };

    ghost view = { λ it. record { name = string_bytes it.name; file = it.file } };
}

impl Entry {
    /// The file's name.
    pub fn name(&self) -> &str
        ensures { result.now ≡ self.now.name }
    {
        self.name.as_str()
    }

    /// What is known of the file.
    pub fn file(&self) -> FileSum
        ensures { result ≡ self.now.file }
    {
        self.file
    }

    /// Whether the file has this name.
    pub(crate) fn has_name(&self, name: &str) -> bool
        ensures { result ≡ bytes_eq self.now.name name.now }
    {
        self.name() == name
    }
}

/// Whether a manifest can have a file of this name: it has 1 to 255 bytes, all of them printable
/// ASCII, and no space, no slash and no backslash.
pub fn is_name(name: &str) -> bool
    ensures { IsTrue result ↔ IsName name.now }
{
    are_name_bytes(name.as_bytes())
}

/// Whether these bytes are a name.
pub(crate) fn are_name_bytes(name: &[u8]) -> bool
    ensures { IsTrue result ↔ IsName name.now }
{
    !name.is_empty() && name.len() <= 255 && name.iter().all(|byte| is_name_byte(*byte))
}

fn is_name_byte(byte: u8) -> bool
    ensures { result ≡ is_name_byte byte }
{
    byte.is_ascii_graphic() && byte != b'/' && byte != b'\\'
}
