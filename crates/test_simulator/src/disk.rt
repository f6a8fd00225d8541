//! The disk of a log on a machine.

ghost use Rattle.std.specs.Prelude.{◌≡◌, ◌+◌, ◌&&◌, ◌↔◌, not, false, IsErr, IsTrue, IfOk};
ghost use Rattle.sqlite_disk.specs.Disk.{CountsFault};
ghost use Rattle.sqlite_disk.specs.Memory.{memory_is_usable};
ghost use Rattle.sqlite_disk.specs.Refusal.{finds_no_room};

use crate::machine::Machine;
use crate::trouble::Call;
use sqlite_disk::{Disk, Memory, Tally};
use std::alloc::Global;
use std::io;

/// The disk of a log, whose calls the machine sees too. A call fails where the machine's does.
#[derive(Drop)]
pub struct SimulatedDisk<'a, D: Disk> {
    inner: D,
    machine: &'a Machine,
    file: usize,
    refused: u64,
    sync_refused: bool,
}

impl<'a> SimulatedDisk<'a, Memory> {
    /// The disk in memory that is this file of a machine, which has these bytes.
    pub fn new(
        alloc: Global,
        machine: &'a Machine,
        file: usize,
        bytes: &[u8],
    ) -> io::Result<SimulatedDisk<'a, Memory>>
        ensures usable { IfOk result (λ disk. IsTrue (memory_is_usable disk.inner)) }
        ensures fresh { IfOk result (λ disk. disk.sync_refused ≡ false) }
    {
        let mut inner = Memory::new(alloc);
        inner.write_at(0, bytes)?;
        inner.sync()?;
        Ok(SimulatedDisk {
            inner,
            machine,
            file,
            refused: 0,
            sync_refused: false,
        })
    }
}

impl<D: Disk> Disk for SimulatedDisk<'_, D> {
    ghost seen = { λ it. D.Disk.seen it.inner };

    ghost may_leave = { λ it. D.Disk.may_leave it.inner };

    ghost is_usable = { λ it. D.Disk.is_usable it.inner && not it.sync_refused };

    ghost faults = { λ it. D.Disk.faults it.inner + it.refused };

    ghost tally_of = { λ it. D.Disk.tally_of it.inner };

    ghost is_clean = { λ it. D.Disk.is_clean it.inner };

    ghost key_of = { λ it. D.Disk.key_of it.inner };

    ghost is_mixing = { λ it. D.Disk.is_mixing it.inner };

    ghost is_fair = { λ it. D.Disk.is_fair it.inner };

    ghost fair_if_clean = { λ it. D.Disk.fair_if_clean it.inner };

    ghost seen_may_stay = { λ it. D.Disk.seen_may_stay it.inner };

    fn mixes(&self) -> bool {
        self.inner.mixes()
    }

    fn key(&self) -> u64 {
        self.inner.key()
    }

    fn tally(&self) -> Tally {
        self.inner.tally()
    }

    fn may_be_used(&self) -> bool {
        self.inner.may_be_used() && !self.sync_refused
    }

    fn len(&mut self) -> io::Result<usize> {
        self.inner.len()
    }

    fn read_at(&mut self, at: usize, buf: &mut [u8]) -> io::Result<()> {
        self.inner.read_at(at, buf)
    }

    fn read_checked(&mut self, key: u64, want: u64, at: usize, buf: &mut [u8]) -> io::Result<()> {
        self.inner.read_checked(key, want, at, buf)
    }

    fn write_at(&mut self, at: usize, bytes: &[u8]) -> io::Result<()> {
        let fails = !writes(self.machine, self.file, at, bytes);
        ask(&mut self.refused, fails)?;
        self.inner.write_at(at, bytes)
    }

    fn set_len(&mut self, len: usize) -> io::Result<()> {
        let fails = !sets_len(self.machine, self.file, len);
        ask(&mut self.refused, fails)?;
        self.inner.set_len(len)
    }

    fn sync(&mut self) -> io::Result<()> {
        let fails = !syncs(self.machine, self.file);
        if let Err(error) = ask(&mut self.refused, fails) {
            self.sync_refused = true;
            return Err(error);
        }
        self.inner.sync()
    }
}

/// Fails, and counts that, if the call is to fail.
fn ask(refused: &mut u64, fails: bool) -> io::Result<()>
    ensures faults { CountsFault result refused.old refused.new }
    ensures kind { finds_no_room result ≡ false }
    ensures exact { IsErr result ↔ IsTrue fails }
{
    if fails {
        *refused = refused.saturating_add(1);
        return Err(io::Error::other("the call is to fail"));
    }
    Ok(())
}

fn writes(machine: &Machine, file: usize, at: usize, bytes: &[u8]) -> bool {
    match machine.state.try_borrow_mut() {
        Ok(mut state) => state.write(Call::WriteLog, file, at, bytes).is_ok(),
        Err(_) => false,
    }
}

fn sets_len(machine: &Machine, file: usize, len: usize) -> bool {
    match machine.state.try_borrow_mut() {
        Ok(mut state) => state.set_len(Call::WriteLog, file, len).is_ok(),
        Err(_) => false,
    }
}

fn syncs(machine: &Machine, file: usize) -> bool {
    match machine.state.try_borrow_mut() {
        Ok(mut state) => state.sync(Call::SyncLog, file).is_ok(),
        Err(_) => false,
    }
}
