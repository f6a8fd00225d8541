//! What a file was asked to do, for contracts alone.

ghost use Rattle.std.specs.Prelude.{◌≡◌, [], ◌∷◌, ◌++◌};

use std::marker::Model;
use std::snapshot::Snapshot;

/// The bytes of a slice, for contracts alone: it takes one byte, however many they are.
#[derive(Drop)]
pub(crate) struct SliceSnapshot {
    bytes: Bytes,
}

/// Some bytes. It has all of them for contracts alone.
#[derive(Drop)]
enum Bytes {
    None,
    After {
        before: Snapshot<Bytes>,
        last: Snapshot<u8>,
    },
}

impl Model for SliceSnapshot {
    ghost use Rattle.std.specs.Prelude.{List, ℕ};

    ghost Value = { List ℕ };

    ghost use Rattle.file_devices.specs.Bytes.{bytes_of};

    ghost view = { λ it. bytes_of it.bytes };
}

impl SliceSnapshot {
    /// The bytes of this slice.
    pub fn of(slice: &[u8]) -> SliceSnapshot
        ensures { result ≡ slice.now }
    {
        let mut bytes = Bytes::None;
        for byte in slice {
            let before = Snapshot::of(&bytes);
            bytes = Bytes::After {
                before,
                last: Snapshot::of(byte),
            };
        }
        SliceSnapshot { bytes }
    }
}

/// What a file is asked to do.
#[derive(Drop)]
pub(crate) enum Request {
    /// To have so many bytes: it is cut, or filled up with zero bytes.
    SetLen(u64),
    /// To have these bytes from an offset on.
    Write { at: u64, bytes: SliceSnapshot },
    /// To give as many bytes from an offset on. These are what it gave.
    Read { at: u64, bytes: SliceSnapshot },
    /// To wait until all that was asked of it lasts.
    Sync,
}

/// One call of a file: a request, and whether the file answered that it is done.
#[derive(Drop)]
pub(crate) struct FileCall {
    pub request: Request,
    pub is_done: bool,
}

/// The calls of a file, in order. It has them for contracts alone, and takes one byte.
#[derive(Drop)]
pub(crate) enum Calls {
    None,
    After {
        before: Snapshot<Calls>,
        last: Snapshot<FileCall>,
    },
}

impl Calls {
    ghost use Rattle.file_devices.specs.Calls.{calls_of};

    /// Notes one call more.
    pub fn note(&mut self, request: Request, is_done: bool)
        ensures { calls_of self.new
            ≡ calls_of self.old ++ record { request = request; is_done = is_done } ∷ [] }
    {
        let call = FileCall { request, is_done };
        let before = Snapshot::of(self);
        *self = Calls::After {
            before,
            last: Snapshot::of(&call),
        };
    }
}
