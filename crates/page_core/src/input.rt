//! Reads input piece by piece into a buffer.

ghost use Rattle.std.specs.Prelude.{◌≡◌, ◌-◌, ◌<◌, ◌≤◌, length, take, drop};
ghost use Rattle.page_core.specs.Input.{Gives};

use std::io::{ErrorKind, Read};

/// The most times that a reader is asked for more bytes.
pub const MAX_TURNS: u32 = 134_217_728;

/// The result of asking a reader for more bytes.
pub enum Turn {
    /// So many more, and none where the read was interrupted.
    More(usize),
    /// There are no more.
    End,
    Failed,
}

/// Asks a reader for more bytes, after those that fill the buffer.
pub fn read_more<R: Read>(reader: &mut R, buffer: &mut [u8], filled: usize) -> Turn
    requires { filled < length buffer.old }
    ensures { Gives (R.remaining reader.old) (R.remaining reader.new) filled
        buffer.old buffer.new result }
{
    match reader.read(&mut buffer[filled..]) {
        Ok(0) => Turn::End,
        Ok(count) => Turn::More(count),
        Err(error) => {
            if error.kind() == ErrorKind::Interrupted {
                Turn::More(0)
            } else {
                Turn::Failed
            }
        }
    }
}

/// How many turns a reader is given.
pub fn readers_are_asked_so_often()
    ensures { MAX_TURNS ≡ 134217728 }
{}

/// Moves the filled bytes at and after `from` to the front of the buffer, and answers how many they
/// are.
pub fn keep_from(buffer: &mut [u8], from: usize, filled: usize) -> usize
    requires within { from ≤ filled }
    requires filled { filled ≤ length buffer.old }
    ensures rest { take result buffer.new ≡ drop from (take filled buffer.old) }
    ensures count { result ≡ filled - from }
{
    for i in 0..filled - from {
        buffer[i] = buffer[from + i];
    }
    filled - from
}
