//! Archives of image copies that are written while the engine goes on.

ghost use Rattle.std.specs.Prelude.{[], ◌≡◌, ◌≤◌};

use crate::volume::{
    Volume, add_one, assert_copy, checkpoint, first_point, full_copy, new_session, only, settled,
    volume,
};
use copy_coverage::Retired;
use copy_vault::{ArchiveWriteFault, CopyFault, CopyId, CopyKind, CopyWriteFault, write_archive};
use engine_run::{Life, OpenGate, Session, Work};
use page_core::PageNo;
use std::io;
use std::io::Write;
use std::marker::Brand;
use std::process::Abort;
use std::sync::Wait;
use std::sync::ledger::Blank;
use std::thread::{Threads, join};

/// A writer that asks for the engine's lock before it takes what it is given. If the lock were held
/// then, it would wait for ever.
#[derive(Drop)]
struct Asking<'a, R: Wait, G: Life> {
    rt: &'a R,
    shared: &'a Volume<G>,
    bytes: Vec<u8>,
    flushed: u32,
}

impl<R: Wait, G: Life> Write for Asking<'_, R, G> {
    fn write(&mut self, buf: &[u8]) -> io::Result<usize> {
        if self.shared.flush_pass(self.rt, &OpenGate).is_ok() {
            self.flushed = self.flushed.saturating_add(1);
        }
        self.bytes.extend_from_slice(buf)?;
        Ok(buf.len())
    }

    fn flush(&mut self) -> io::Result<()> {
        Ok(())
    }
}

/// A writer that takes so many bytes, and then no more.
#[derive(Drop)]
struct Short {
    left: usize,
}

impl Write for Short {
    fn write(&mut self, buf: &[u8]) -> io::Result<usize> {
        let taken = buf.len().min(self.left);
        self.left -= taken;
        Ok(taken)
    }

    fn flush(&mut self) -> io::Result<()> {
        Ok(())
    }
}

/// The archive of copy 1, by a writer that asks for the lock.
fn asked_archive<G: Life>(rt: &(impl Wait + Abort + AllocGlobal), shared: &Volume<G>) -> Vec<u8> {
    let mut writer = Asking {
        rt,
        shared,
        bytes: Vec::new(rt.alloc()),
        flushed: 0,
    };
    let written = shared.write_copy(rt, rt.alloc(), CopyId(1), &mut writer);
    assert_eq!(rt; written, Ok(()));
    assert!(rt; writer.flushed > 0);
    writer.bytes
}

/// What a shared engine answers where there is no complete copy, and where the writer fails.
fn assert_refusals<G: Life>(rt: &(impl Wait + Abort + AllocGlobal), shared: &Volume<G>) {
    let alloc = rt.alloc();
    let none = shared.write_copy(rt, alloc, CopyId(2), &mut Short { left: 4096 });
    assert_eq!(rt; none, Err(CopyWriteFault::Refused(CopyFault::NoCopy)));
    assert!(rt; shared.lend_copy(rt, CopyId(0)).is_err());
    let fault = ArchiveWriteFault::WriteFault(1000);
    let short = shared.write_copy(rt, alloc, CopyId(1), &mut Short { left: 1000 });
    assert_eq!(rt; short, Err(CopyWriteFault::Archive(fault)));
}

/// Changes pages in a thread of its own while copy 1 is written, twice, and compares both archives
/// with that of the copy that the run leaves.
fn write_beside<G: Life + Send + Sync, R: Threads + Wait + Abort + AllocGlobal + Sync>(
    rt: &R,
    blank: Blank,
)
    requires name { blank.name ≡ G.name }
    requires parts { blank.parts ≡ G.parts }
    requires before { G.before ≡ [] }
    requires sessions { blank.parts ≡ 65 }
{
    let mut shared = volume::<G, R>(rt, blank, 8);
    let mut session = new_session(rt, &mut shared);
    let archives = archives_beside(rt, &shared, &mut session);
    let works = [first_point(8), full_copy(1)];
    let left = settled(rt, only(rt, session), &works, shared);
    assert_archives(rt, &left, &archives);
}

/// Two archives of copy 1, of which the first is written while pages change.
fn archives_beside<G: Life + Send + Sync, R: Threads + Wait + Abort + AllocGlobal + Sync>(
    rt: &R,
    shared: &Volume<G>,
    session: &mut Session<G>,
) -> (Vec<u8>, Vec<u8>) {
    checkpoint(rt, shared, 8);
    assert_copy(rt, shared, CopyKind::Full, 2, Ok(full_copy(1)));
    assert_refusals(rt, shared);
    let (written, _) = join(
        rt,
        || asked_archive(rt, shared),
        || add_often(rt, shared, session),
    );
    (written, asked_archive(rt, shared))
}

/// Both archives are that of the copy that the run leaves.
fn assert_archives(rt: &(impl Abort + AllocGlobal), left: &Retired, archives: &(Vec<u8>, Vec<u8>)) {
    let Some(copy) = left.vault().complete(CopyId(1)) else {
        panic!(rt; "copy 1 is complete");
    };
    let mut archive = Vec::new(rt.alloc());
    assert_eq!(rt; write_archive(rt.alloc(), copy, &mut archive), Ok(()));
    assert_eq!(rt; archive.len(), 64 + 8 * 512);
    assert!(rt; archives.0.as_slice() == archive.as_slice());
    assert!(rt; archives.1.as_slice() == archive.as_slice());
}

/// Changes each page in turn, in transactions of their own.
fn add_often<G: Life>(rt: &(impl Wait + Abort), shared: &Volume<G>, session: &mut Session<G>) {
    for round in 0..40 {
        add_one(rt, shared, session, PageNo(round % 8));
    }
}

#[test]
fn an_archive_is_written_while_the_engine_goes_on(rt: HostRuntime) {
    write_beside::<Brand, HostRuntime>(&rt, Blank::new(65));
}
