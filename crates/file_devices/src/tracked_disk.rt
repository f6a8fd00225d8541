//! A disk, of which contracts know what it was asked to do.

ghost use Rattle.std.specs.Prelude.{ℕ, ◌≡◌, ◌+◌, ◌≤◌, [], ◌∷◌, ◌++◌, List, length, max};
ghost use Rattle.std.specs.Prelude.{is_ok, IsTrue, OnOk};
ghost use Rattle.file_devices.specs.Calls.{call, calls_of};
ghost use Rattle.file_devices.specs.TrackedDisk.{Begins, BeginsEach};
ghost use Rattle.file_devices.specs.declared.calls.Request.TheVariants.{Read, SetLen, Sync, Write};

use crate::calls::{Calls, Request, SliceSnapshot};
use sqlite_disk::Disk;
use std::io;
use std::marker::Model;

/// A disk, and what it was asked to do since it was given. Each method has one call of it, and the
/// note of that call. It says, too, which first bytes each content begins with that a crash may
/// leave then.
#[derive(Drop)]
pub(crate) struct TrackedDisk<D: Disk> {
    disk: D,
    calls: Calls,
    /// The number that the system has for why the last call failed, if it did.
    error: Option<i32>,
}

impl<D: Disk> Model for TrackedDisk<D> {
    ghost use Rattle.file_devices.specs.Calls.{calls_of};
    ghost use Rattle.file_devices.specs.TrackedDisk.{Asked};

    ghost Value = { Asked D };

    ghost view = { λ it. record { calls = calls_of it.calls; disk = it.disk } };
}

impl<D: Disk + Drop> TrackedDisk<D> {
    /// A disk of which nothing was asked yet.
    pub fn new(disk: D) -> TrackedDisk<D>
        ensures { result ≡ record { calls = []; disk = disk } }
    {
        TrackedDisk {
            disk,
            calls: Calls::None,
            error: None,
        }
    }

    /// The disk.
    pub fn into_disk(self) -> D
        ensures { result ≡ self.disk }
    {
        let TrackedDisk { disk, .. } = self;
        disk
    }

    /// What it was asked to do. The disk is given up.
    pub fn into_calls(self) -> Calls
        ensures { calls_of result ≡ self.calls }
    {
        let TrackedDisk { calls, .. } = self;
        calls
    }

    /// Why the last call failed, if it did and the system told why.
    pub fn error(&self) -> Option<io::Error> {
        Some(io::Error::from_raw_os_error(self.error?))
    }

    /// No sync of it has failed.
    pub fn is_usable(&self) -> bool
        ensures { result ≡ D.is_usable self.now.disk }
    {
        self.disk.may_be_used()
    }

    /// Notes why a call failed, if it did.
    fn note_error(&mut self, answer: &io::Result<()>)
        ensures { self.new ≡ self.old }
    {
        self.error = match answer {
            Ok(()) => None,
            Err(error) => error.raw_os_error(),
        };
    }

    /// Cuts the disk, or fills it up, so that it has so many bytes.
    #[tactic(auto, using(crate::proofs::Fronts::begins_cut, crate::proofs::Fronts::begins_each_cut))]
    pub fn set_len(&mut self, len: usize) -> io::Result<()>
        requires { IsTrue (D.is_usable self.old.disk) }
        ensures calls { self.new.calls ≡ self.old.calls ++ call (SetLen len) (is_ok result) ∷ [] }
        ensures usable { IsTrue (D.is_usable self.new.disk) }
        ensures cut { OnOk result (length (D.seen self.new.disk) ≡ len) }
        ensures seen { (front : List ℕ) → length front ≤ len → Begins front (D.seen self.old.disk)
            → Begins front (D.seen self.new.disk) }
        ensures kept { (front : List ℕ) → length front ≤ len
            → BeginsEach front (D.may_leave self.old.disk)
            → BeginsEach front (D.may_leave self.new.disk) }
        ensures clean { D.is_clean self.new.disk ≡ D.is_clean self.old.disk }
    {
        let answer = self.disk.set_len(len);
        self.note_error(&answer);
        self.calls.note(Request::SetLen(len as u64), answer.is_ok());
        answer
    }

    /// Writes bytes over those of the disk from an offset on.
    #[tactic(auto, using(crate::proofs::Fronts::begins_written, crate::proofs::Fronts::begins_each_torn))]
    pub fn write_at(&mut self, at: usize, bytes: &[u8]) -> io::Result<()>
        requires { IsTrue (D.is_usable self.old.disk) }
        ensures calls { self.new.calls
            ≡ self.old.calls ++ call (Write at bytes.now) (is_ok result) ∷ [] }
        ensures usable { IsTrue (D.is_usable self.new.disk) }
        ensures written { OnOk result ((front : List ℕ) → length front ≡ at
            → Begins front (D.seen self.old.disk)
            → Begins (front ++ bytes.now) (D.seen self.new.disk)) }
        ensures short { length (D.seen self.new.disk)
            ≤ max (length (D.seen self.old.disk)) (at + length bytes.now) }
        ensures kept { (front : List ℕ) → length front ≤ at
            → BeginsEach front (D.may_leave self.old.disk)
            → BeginsEach front (D.may_leave self.new.disk) }
        ensures clean { D.is_clean self.new.disk ≡ D.is_clean self.old.disk }
    {
        let answer = self.disk.write_at(at, bytes);
        self.note_error(&answer);
        let at = at as u64;
        let bytes = SliceSnapshot::of(bytes);
        self.calls
            .note(Request::Write { at, bytes }, answer.is_ok());
        answer
    }

    /// Fills the buffer with the first bytes of the disk.
    pub fn read_first(&mut self, buffer: &mut [u8]) -> io::Result<()>
        requires { IsTrue (D.is_usable self.old.disk) }
        ensures calls { self.new.calls
            ≡ self.old.calls ++ call (Read 0 buffer.new) (is_ok result) ∷ [] }
        ensures usable { IsTrue (D.is_usable self.new.disk) }
        ensures given { OnOk result (IsTrue (D.is_clean self.new.disk)
            → Begins buffer.new (D.seen self.new.disk)) }
        ensures length { length buffer.new ≡ length buffer.old }
    {
        let answer = self.disk.read_at(0, buffer);
        self.note_error(&answer);
        let bytes = SliceSnapshot::of(buffer);
        self.calls
            .note(Request::Read { at: 0, bytes }, answer.is_ok());
        answer
    }

    /// Waits until all that was written to the disk lasts.
    pub fn sync(&mut self) -> io::Result<()>
        requires { IsTrue (D.is_usable self.old.disk) }
        ensures calls { self.new.calls ≡ self.old.calls ++ call Sync (is_ok result) ∷ [] }
        ensures usable { D.is_usable self.new.disk ≡ is_ok result }
        ensures lasts { OnOk result ((front : List ℕ) → Begins front (D.seen self.old.disk)
            → BeginsEach front (D.may_leave self.new.disk)) }
        ensures seen { D.seen self.new.disk ≡ D.seen self.old.disk }
        ensures kept { (front : List ℕ) → BeginsEach front (D.may_leave self.old.disk)
            → BeginsEach front (D.may_leave self.new.disk) }
        ensures clean { D.is_clean self.new.disk ≡ D.is_clean self.old.disk }
    {
        let answer = self.disk.sync();
        self.note_error(&answer);
        self.calls.note(Request::Sync, answer.is_ok());
        answer
    }
}
