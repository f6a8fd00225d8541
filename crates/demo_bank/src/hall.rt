//! What those who work on a day on files have in common.

use crate::clerk::{Bank, Helper, MOST_TRIES, flush};
use crate::halt::{FileTrouble, Halt, Place};
use crate::line::Line;
use crate::watch::Watch;
use imgcopy_engine::{CopyId, Life, LogDevice, Lsn, PageNo, PageStore, Refusal};
use std::io::{Stdout, Write};
use std::sync::atomic::{AtomicBool, AtomicU64, Ordering};
use std::sync::{Mutex, Wait};
use std::thread;
use std::time::Duration;

/// How often something is done at most about a store that fails at one call.
pub const MOST_REPAIRS: u32 = 100;

/// How many milliseconds one who waits sleeps before it looks again.
const PAUSE: u64 = 1;

/// What those who work on a day on files have in common.
#[derive(Drop)]
pub struct Hall<'a> {
    pub files: &'a HostRuntime,
    pub folder: &'a str,
    /// How many transfers each teller makes.
    pub transfers: u32,
    /// The first fault that one of them met.
    fault: Mutex<Option<Halt>>,
    has_fault: AtomicBool,
    /// How many tellers have not ended.
    tellers: AtomicU64,
    /// The id of the newest complete copy, and 0 where there is none.
    newest: AtomicU64,
    /// Who has it may write a line.
    output: Mutex<Stdout>,
}

impl<'a> Hall<'a> {
    /// A hall with so many tellers, none of whom has begun, and no copy.
    pub fn new(files: &'a HostRuntime, folder: &'a str, tellers: u32, transfers: u32) -> Hall<'a> {
        Hall {
            files,
            folder,
            transfers,
            fault: Mutex::new(None),
            has_fault: AtomicBool::new(false),
            tellers: AtomicU64::new(tellers as u64),
            newest: AtomicU64::new(0),
            output: Mutex::new(files.stdout()),
        }
    }

    /// Writes a line, by one write.
    pub fn tell(&self, rt: &impl Wait, line: &Line<'_>) -> Result<(), Halt> {
        let Ok(text) = format!(in self.files.alloc(); "{line}\n") else {
            return Err(Halt::Refused(Refusal::OutOfMemory));
        };
        let mut output = self.output.lock(rt);
        match output.write_all(text.as_str().as_bytes()) {
            Ok(()) => Ok(()),
            Err(error) => Err(Halt::Unkept(FileTrouble::of(Place::Output, &error))),
        }
    }

    /// Notes why one of them ends. The first fault ends the day.
    pub fn note(&self, rt: &impl Wait, ended: &Result<(), Halt>) {
        if let Err(halt) = ended {
            if !matches!(halt, Halt::DayOver) {
                let mut fault = self.fault.lock(rt);
                if fault.is_none() {
                    *fault = Some(*halt);
                }
            }
            self.has_fault.store(true, Ordering::SeqCst);
        }
    }

    /// Notes that a teller has ended.
    pub fn note_teller(&self) {
        self.tellers.fetch_sub(1, Ordering::SeqCst);
    }

    /// Whether all tellers have ended.
    pub fn is_closing(&self) -> bool {
        self.tellers.load(Ordering::SeqCst) == 0
    }

    /// Waits until so many transfers were made, all tellers have ended, or there is a fault.
    pub fn wait_for(&self, rt: &impl Wait, watch: &Watch, transfers: u64) {
        for _ in rt.forever() {
            let is_over = self.is_closing() || self.has_fault.load(Ordering::SeqCst);
            if is_over || watch.made() >= transfers {
                break;
            }
            self.pause();
        }
    }

    /// Lets others come first for a moment.
    fn pause(&self) {
        thread::sleep(self.files, Duration::from_millis(PAUSE));
    }

    /// Notes the newest complete copy.
    pub fn note_copy(&self, id: CopyId) {
        self.newest.store(id.0 as u64, Ordering::SeqCst);
    }

    /// The newest complete copy.
    fn newest(&self) -> Option<CopyId> {
        match u32::try_from(self.newest.load(Ordering::SeqCst)) {
            Ok(0) | Err(_) => None,
            Ok(id) => Some(CopyId(id)),
        }
    }

    /// Writes the pages that are dirty. Where the store fails, it is tried again: the write that was
    /// begun is ended then.
    pub fn flush<S: PageStore, D: LogDevice, G: Life>(
        &self,
        rt: &impl Wait,
        bank: &Bank<S, D, G>,
    ) -> Result<(), Refusal> {
        for _ in 0..MOST_REPAIRS {
            match flush(rt, bank, 1) {
                Err(Refusal::StoreFault) => self.pause(),
                answer => return answer,
            }
        }
        flush(rt, bank, 1)
    }

    /// Stores a page anew that cannot be read, from the newest copy. A write of it that was begun
    /// is ended first.
    fn repair<S: PageStore, D: LogDevice, G: Life>(
        &self,
        rt: &impl Wait,
        bank: &Bank<S, D, G>,
        page: PageNo,
    ) -> Result<Lsn, Refusal> {
        let Some(copy) = self.newest() else {
            return Err(Refusal::StoreFault);
        };
        for _ in 0..MOST_TRIES {
            match bank.repair(rt, copy, page) {
                Err(Refusal::WriteBegun) => self.flush(rt, bank)?,
                answer => return answer,
            }
            self.pause();
        }
        Err(Refusal::StoreFault)
    }

    /// The first fault, if one was met.
    pub fn halted(&self, rt: &impl Wait) -> Result<(), Halt> {
        match *self.fault.lock(rt) {
            Some(halt) => Err(halt),
            None => Ok(()),
        }
    }
}

impl Helper for Hall<'_> {
    fn may_go_on(&self) -> Result<(), Halt> {
        if self.has_fault.load(Ordering::SeqCst) {
            return Err(Halt::DayOver);
        }
        Ok(())
    }

    /// Has dirty pages written where no frame was free, and repairs a page that could not be read.
    fn help<S: PageStore, D: LogDevice, G: Life, R: Wait>(
        &self,
        rt: &R,
        bank: &Bank<S, D, G>,
        page: PageNo,
        why: Refusal,
        faults: u32,
    ) -> Result<(), Halt> {
        match why {
            Refusal::PoolFull => Ok(self.flush(rt, bank)?),
            Refusal::StoreFault if faults < MOST_REPAIRS => {
                let lsn = self.repair(rt, bank, page)?;
                self.tell(rt, &Line::Repaired(page, lsn))
            }
            _ => Err(Halt::Refused(why)),
        }
    }
}
