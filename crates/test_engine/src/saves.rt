//! Files that are put in place in a folder in memory, and what stands where a call of it fails.

use crate::asserts::{same, same_at};
use saved_files::{
    FailingCalls, FileFault, Folder, MemFolder, PutFault, PutStoredFault, Source, put_and_store,
    put_in_place,
};
use std::alloc::Global;
use std::io;
use std::io::{ErrorKind, Write};
use std::process::Abort;

/// Bytes that are written at once.
#[derive(Clone, Copy, Drop)]
struct Bytes(&'static [u8]);

impl Source for Bytes {
    ghost use Rattle.std.specs.Io.KnownBytes.{Appends};

    type Fault = FileFault;

    ghost gives = { λ it old new. Appends old new it.0.now };

    ghost leaves = { λ _ _ _ _. Unit {0} };

    fn write_to<W: Write>(&mut self, _alloc: Global, writer: &mut W) -> Result<(), FileFault> {
        match writer.write_all(self.0) {
            Ok(()) => Ok(()),
            Err(_) => Err(FileFault::WriteFault(0)),
        }
    }
}

const OLD: &[u8] = b"older";

const NEW: Bytes = Bytes(b"new");

/// Takes a folder, and puts older files of these names into it.
fn fill<F: Folder>(rt: &(impl Abort + AllocGlobal), folder: &mut F, names: &[&str])
    ensures { F.is_claimed folder.new }
{
    for name in names {
        put_old(rt, folder, name);
    }
    folder.claim().expect(rt, "a folder");
}

/// Takes a folder, and puts an older file of this name into it.
fn put_old<F: Folder>(rt: &(impl Abort + AllocGlobal), folder: &mut F, name: &str) {
    folder.claim().expect(rt, "a folder");
    let put = put_in_place(folder, rt.alloc(), name, &mut Bytes(OLD));
    same(rt, &put, &Ok(()));
}

/// Has this call fail, counted from 1, before or after it does anything.
fn fail(calls: &FailingCalls, k: u64, is_late: bool) {
    if is_late {
        calls.fail_late(k);
    } else {
        calls.fail(k);
    }
}

// One file

/// What comes of the calls `make`, `write`, `sync`, `rename` and `sync_names` where one fails: the
/// fault, and whether the file is in place. The last row is of no call.
const OF_ONE: [(Result<(), PutStoredFault<FileFault>>, bool, bool); 6] = [
    (
        Err(PutStoredFault::Unput(PutFault::Unmade(FileFault::WriteFault(0)))),
        false,
        false,
    ),
    (
        Err(PutStoredFault::Unput(PutFault::Unwritten(FileFault::WriteFault(0)))),
        false,
        false,
    ),
    (
        Err(PutStoredFault::Unput(PutFault::Unplaced(FileFault::WriteFault(0)))),
        false,
        false,
    ),
    (
        Err(PutStoredFault::Unput(PutFault::Unplaced(FileFault::WriteFault(0)))),
        false,
        true,
    ),
    (
        Err(PutStoredFault::Unstored(FileFault::WriteFault(0))),
        true,
        true,
    ),
    (Ok(()), true, true),
];

#[test]
fn each_call_of_a_file_fails(rt: HostRuntime) {
    for (index, (fault, is_new, is_new_late)) in OF_ONE.iter().enumerate() {
        for (is_late, is_new) in [(false, *is_new), (true, *is_new_late)] {
            let calls = FailingCalls::new();
            let mut folder = MemFolder::new(rt.alloc(), &calls);
            fill(&rt, &mut folder, &["v", "w"]);
            fail(&calls, index as u64 + 1, is_late);
            let done = put_and_store(&mut folder, rt.alloc(), "v", &mut Bytes(b"new"));
            same_at(&rt, &done, fault, &index);
            let wanted = if is_new { NEW.0 } else { OLD };
            same_at(&rt, &folder.stored("v"), &Some(wanted), &(index, is_late));
            same_at(&rt, &folder.stored("w"), &Some(OLD), &index);
            same_at(&rt, &folder.len(), &2, &index);
        }
    }
}

// What a crash leaves

/// A folder in which a file was put in the place of an older one whose name lasts, after a crash.
fn crashed<'a>(
    rt: &(impl Abort + AllocGlobal),
    calls: &'a FailingCalls,
    undone: u64,
) -> MemFolder<'a> {
    let mut folder = MemFolder::new(rt.alloc(), calls);
    fill(rt, &mut folder, &["v"]);
    folder.sync_names().expect(rt, "names that last");
    let put = put_in_place(&mut folder, rt.alloc(), "v", &mut Bytes(b"new"));
    same(rt, &put, &Ok(()));
    folder.crash(undone).expect(rt, "a folder")
}

#[test]
fn a_crash_leaves_the_older_file_or_the_new_one(rt: HostRuntime) {
    let calls = FailingCalls::new();
    for undone in 0..16 {
        let left = crashed(&rt, &calls, undone);
        let wanted = if undone & 1 == 1 { OLD } else { NEW.0 };
        same_at(&rt, &left.stored("v"), &Some(wanted), &undone);
    }
}

#[test]
fn a_crash_leaves_a_name_that_is_stored(rt: HostRuntime) {
    let calls = FailingCalls::new();
    let mut folder = MemFolder::new(rt.alloc(), &calls);
    fill(&rt, &mut folder, &["v"]);
    let put = put_and_store(&mut folder, rt.alloc(), "v", &mut Bytes(b"new"));
    same(&rt, &put, &Ok(()));
    let left = folder.crash(u64::MAX).expect(&rt, "a folder");
    same(&rt, &left.stored("v"), &Some(NEW.0));
    same(&rt, &left.len(), &1);
}

// The folder in memory

#[test]
fn a_file_is_synced_under_its_own_name(rt: HostRuntime) {
    let calls = FailingCalls::new();
    let mut folder = MemFolder::new(rt.alloc(), &calls);
    fill(&rt, &mut folder, &["v"]);
    let mut one = folder.make("one").expect(&rt, "a file");
    let two = folder.make("two").expect(&rt, "a file");
    same(&rt, &one.write_all(b"bytes").is_ok(), &true);
    let (one, two) = (MemFolder::finish(one), MemFolder::finish(two));
    same(
        &rt,
        &kind_of(folder.sync("one", &two)),
        &Some(ErrorKind::NotFound),
    );
    same(&rt, &folder.stored("one"), &None);
    same(&rt, &kind_of(folder.sync("one", &one)), &None);
    same(&rt, &folder.stored("one"), &Some(b"bytes".as_slice()));
    same(
        &rt,
        &kind_of(folder.give_up("one", two)),
        &Some(ErrorKind::NotFound),
    );
    same(
        &rt,
        &kind_of(folder.rename("three", "v")),
        &Some(ErrorKind::NotFound),
    );
    same(&rt, &kind_of(folder.rename("one", "one")), &None);
    same(&rt, &folder.len(), &3);
    same(&rt, &kind_of(folder.give_up("one", one)), &None);
    same(&rt, &folder.make("two").is_err(), &true);
    same(&rt, &folder.len(), &2);
}

/// The kind of the error, if it is one.
fn kind_of<T: Drop>(done: io::Result<T>) -> Option<ErrorKind> {
    match done {
        Ok(_) => None,
        Err(error) => Some(error.kind()),
    }
}
