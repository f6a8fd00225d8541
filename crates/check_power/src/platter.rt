//! A disk that keeps what it was asked to write since its last sync, and whose calls fail when they
//! are to.

ghost use Rattle.std.specs.Prelude.{◌≡◌, ◌+◌, ◌&&◌, ◌↔◌, not, false, IfOk, IsErr, IsTrue, OnOk};
ghost use Rattle.check_power.specs.Steps.{MayReach};
ghost use Rattle.sqlite_disk.specs.Disk.{CountsFault};
ghost use Rattle.sqlite_disk.specs.Refusal.{finds_no_room};

use crate::chance::Chance;
use crate::step::{Grain, Step};
use crate::trouble::Trouble;
use sqlite_disk::{Disk, Tally};
use std::alloc::{AllocError, Global};
use std::io;

/// A disk over another one.
#[derive(Drop)]
pub struct Platter<D: Disk> {
    inner: D,
    /// What each crash leaves, but for the steps.
    synced: Vec<u8>,
    steps: Vec<Step>,
    trouble: Trouble,
    calls: u64,
    refused: u64,
    sync_refused: bool,
    /// It was asked to change or sync bytes once a sync had failed.
    is_misused: bool,
}

impl<D: Disk> Platter<D> {
    /// A disk over one that has these bytes, all of them synced.
    pub fn new(inner: D, synced: Vec<u8>, trouble: Trouble) -> Platter<D>
        ensures inner { result.inner ≡ inner }
        ensures fresh { result.sync_refused ≡ false }
    {
        let alloc = *synced.allocator();
        Platter {
            inner,
            synced,
            steps: Vec::new(alloc),
            trouble,
            calls: 0,
            refused: 0,
            sync_refused: false,
            is_misused: false,
        }
    }

    /// Whether it was asked to change or sync bytes once a sync had failed.
    pub fn is_misused(&self) -> bool {
        self.is_misused
    }

    /// What a cut of the power leaves: of each step since the last sync all, nothing or a part.
    pub fn torn(
        &self,
        alloc: Global,
        grain: Grain,
        chance: &mut Chance,
    ) -> Result<Vec<u8>, AllocError>
        ensures { IfOk result (λ left.
            MayReach self.now.steps.items self.now.synced.items left.items) }
    {
        let mut left = Vec::from_slice(alloc, &self.synced)?;
        for step in &self.steps {
            step.tear(&mut left, grain, chance)?;
        }
        Ok(left)
    }

    /// What the end of the process alone leaves: all that was written.
    pub fn written(&self, alloc: Global) -> Result<Vec<u8>, AllocError>
        ensures { IfOk result (λ left.
            MayReach self.now.steps.items self.now.synced.items left.items) }
    {
        let mut left = Vec::from_slice(alloc, &self.synced)?;
        make_all(&mut left, &self.steps)?;
        Ok(left)
    }
}

fn make_all(left: &mut Vec<u8>, steps: &[Step]) -> Result<(), AllocError>
    ensures { OnOk result (MayReach steps.now left.old.items left.new.items) }
{
    for step in steps {
        step.make(left)?;
    }
    Ok(())
}

/// Takes the steps as synced.
fn settle(synced: &mut Vec<u8>, steps: &mut Vec<Step>) -> Result<(), AllocError> {
    make_all(synced, steps)?;
    steps.clear();
    Ok(())
}

/// Notes a write.
fn note_write(steps: &mut Vec<Step>, at: usize, bytes: &[u8]) -> Result<(), AllocError> {
    let step = Step::write(*steps.allocator(), at, bytes)?;
    steps.push(step)?;
    Ok(())
}

/// Notes a call, and whether a sync had failed before it.
fn note_misuse(is_misused: &mut bool, has_failed: bool) {
    if has_failed {
        *is_misused = true;
    }
}

/// Counts a call, and answers its number.
fn counted(calls: &mut u64) -> u64 {
    *calls = calls.saturating_add(1);
    *calls
}

/// Fails, and counts that, if the call is to fail.
fn ask(refused: &mut u64, fails: bool) -> io::Result<()>
    ensures faults { CountsFault result refused.old refused.new }
    ensures kind { finds_no_room result ≡ false }
    ensures exact { IsErr result ↔ IsTrue fails }
{
    if fails {
        *refused = refused.saturating_add(1);
        return Err(io::Error::other("the call is to fail"));
    }
    Ok(())
}

impl<D: Disk> Disk for Platter<D> {
    ghost seen = { λ p. D.Disk.seen p.inner };

    ghost may_leave = { λ p. D.Disk.may_leave p.inner };

    ghost is_usable = { λ p. D.Disk.is_usable p.inner && not p.sync_refused };

    ghost faults = { λ p. D.Disk.faults p.inner + p.refused };

    ghost tally_of = { λ p. D.Disk.tally_of p.inner };

    ghost is_rotten = { λ p. D.Disk.is_rotten p.inner };

    ghost key_of = { λ p. D.Disk.key_of p.inner };

    ghost is_clean = { λ p. D.Disk.is_clean p.inner };

    ghost is_fair = { λ p. D.Disk.is_fair p.inner };

    ghost fair_if_clean = { λ p. D.Disk.fair_if_clean p.inner };

    ghost seen_may_stay = { λ p. D.Disk.seen_may_stay p.inner };

    ghost is_mixing = { λ p. D.Disk.is_mixing p.inner };

    fn mixes(&self) -> bool {
        self.inner.mixes()
    }

    fn key(&self) -> u64 {
        self.inner.key()
    }

    fn tally(&self) -> Tally {
        self.inner.tally()
    }

    fn may_be_used(&self) -> bool {
        self.inner.may_be_used() && !self.sync_refused
    }

    fn len(&mut self) -> io::Result<usize> {
        self.inner.len()
    }

    fn read_at(&mut self, at: usize, buf: &mut [u8]) -> io::Result<()> {
        self.inner.read_at(at, buf)
    }

    fn read_checked(&mut self, key: u64, want: u64, at: usize, buf: &mut [u8]) -> io::Result<()> {
        self.inner.read_checked(key, want, at, buf)
    }

    fn write_at(&mut self, at: usize, bytes: &[u8]) -> io::Result<()> {
        note_misuse(&mut self.is_misused, self.sync_refused);
        let call = counted(&mut self.calls);
        let fails = self.trouble.fails_write(call)
            || note_write(&mut self.steps, at, bytes).is_err();
        ask(&mut self.refused, fails)?;
        self.inner.write_at(at, bytes)
    }

    fn set_len(&mut self, len: usize) -> io::Result<()> {
        note_misuse(&mut self.is_misused, self.sync_refused);
        let call = counted(&mut self.calls);
        let fails = self.trouble.fails_write(call) || self.steps.push(Step::SetLen(len)).is_err();
        ask(&mut self.refused, fails)?;
        self.inner.set_len(len)
    }

    fn sync(&mut self) -> io::Result<()> {
        note_misuse(&mut self.is_misused, self.sync_refused);
        let call = counted(&mut self.calls);
        let fails = self.trouble.fails_sync(call);
        if fails && self.trouble.drops {
            self.steps.clear();
        }
        let fails = fails || settle(&mut self.synced, &mut self.steps).is_err();
        if let Err(error) = ask(&mut self.refused, fails) {
            self.sync_refused = true;
            return Err(error);
        }
        self.inner.sync()
    }
}
