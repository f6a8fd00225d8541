//! A database whose lives end by cuts of the power.

ghost use Rattle.buffer_pool.specs.Pool.{IsFrameCount};
ghost use Rattle.log_records.specs.Log.{IsPageCount};

use crate::chance::Chance;
use crate::copies::Copies;
use crate::counts::Counts;
use crate::drive::{LogEngine, drive_of};
use crate::expected::Expected;
use crate::hand::Hand;
use crate::lost::{LostLog, lose};
use crate::opening::{Opening, Ready, Restart, begin, restart_on};
use crate::trouble::Trouble;
use crate::wrong::Wrong;
use aries_core::{Answer, Engine, Event, Refusal, Reply, Setup};
use log_records::log_header;
use log_store::LogDevice;
use page_store::PageStore;
use std::alloc::{AllocError, Global};
use std::thread::Threads;

/// How often the power may be cut while a database is opened.
const MOST_CUTS: u32 = 3;

/// What the lives of a database leave one another, and what is known of it.
#[derive(Drop)]
pub struct Database {
    /// What the disk of the log has.
    bytes: Vec<u8>,
    lost: LostLog,
    copies: Copies,
    expected: Expected,
    has_lived: bool,
    /// The last life has ended with all of its log forced, as a closing leaves it.
    is_closed: bool,
}

impl Database {
    /// One that has to be begun.
    pub fn new(alloc: Global, pages: u32) -> Result<Database, AllocError> {
        Ok(Database {
            bytes: Vec::new(alloc),
            lost: LostLog::none(alloc),
            copies: Copies::new(alloc),
            expected: Expected::new(alloc, pages)?,
            has_lived: false,
            is_closed: false,
        })
    }

    /// How many commits were answered.
    pub fn commits(&self) -> u64 {
        self.expected.commits
    }

    /// Plays a life: opens the database, makes calls of its engine, and cuts the power.
    pub fn live(
        &mut self,
        rt: &(impl Threads + Sync),
        alloc: Global,
        setup: Setup,
        chance: &mut Chance,
        counts: &mut Counts,
    ) -> Result<(), Wrong>
        requires pages { IsPageCount setup.pages }
        requires frames { IsFrameCount setup.frames }
    {
        let engine = self.open(rt, alloc, setup, chance, counts)?;
        self.has_lived = true;
        let (lost, bytes) = self.play(alloc, engine, chance)?;
        self.lost = lost;
        self.bytes = bytes;
        counts.cut();
        counts.lived();
        Ok(())
    }

    /// Opens the database, and compares what it has. The power may be cut meanwhile.
    pub fn open(
        &mut self,
        rt: &(impl Threads + Sync),
        alloc: Global,
        setup: Setup,
        chance: &mut Chance,
        counts: &mut Counts,
    ) -> Result<LogEngine, Wrong>
        requires pages { IsPageCount setup.pages }
        requires frames { IsFrameCount setup.frames }
    {
        for cuts in 0..=MOST_CUTS {
            let trouble = if cuts < MOST_CUTS {
                Trouble::draw(chance)
            } else {
                Trouble::NONE
            };
            match self.try_open(rt, alloc, setup, trouble, chance, counts)? {
                Opening::Engine(engine) => return Ok(engine),
                Opening::Cut(bytes) => self.bytes = bytes,
            }
            self.is_closed = false;
            counts.cut();
        }
        Err(Wrong::NotOpened)
    }

    fn try_open(
        &mut self,
        rt: &(impl Threads + Sync),
        alloc: Global,
        setup: Setup,
        trouble: Trouble,
        chance: &mut Chance,
        counts: &mut Counts,
    ) -> Result<Opening, Wrong>
        requires pages { IsPageCount setup.pages }
        requires frames { IsFrameCount setup.frames }
    {
        if !self.has_lived && log_header(&self.bytes).is_none() {
            return begin(alloc, setup, drive_of(alloc, &[], trouble)?, chance);
        }
        let drive = drive_of(alloc, &self.bytes, trouble)?;
        match restart_on(
            alloc,
            &self.bytes,
            drive,
            &self.lost,
            self.is_closed,
            chance,
        )? {
            Restart::Done(ready) => self.go_on(rt, alloc, setup, ready, counts),
            Restart::Cut(bytes) => {
                self.note_restart(alloc, chance)?;
                Ok(Opening::Cut(bytes))
            }
        }
    }

    /// The power was cut while a restart stored its records: notes which these are.
    fn note_restart(&mut self, alloc: Global, chance: &mut Chance) -> Result<(), Wrong> {
        let drive = drive_of(alloc, &self.bytes, Trouble::NONE)?;
        match restart_on(alloc, &self.bytes, drive, &self.lost, false, chance)? {
            Restart::Done(ready) => {
                self.lost = ready.lost(alloc)?;
                Ok(())
            }
            Restart::Cut(_) => Err(Wrong::NotOpened),
        }
    }

    fn go_on(
        &mut self,
        rt: &(impl Threads + Sync),
        alloc: Global,
        setup: Setup,
        ready: Ready,
        counts: &mut Counts,
    ) -> Result<Opening, Wrong>
        requires { IsFrameCount setup.frames }
    {
        let mut ready = ready;
        if ready.is_read {
            counts.went_on();
        }
        self.compare(rt, alloc, &mut ready, counts)?;
        let engine = ready.into_engine(alloc, setup.frames)?;
        Ok(Opening::Engine(engine))
    }

    /// Compares a database that was restarted with what is known of it.
    fn compare(
        &mut self,
        rt: &(impl Threads + Sync),
        alloc: Global,
        ready: &mut Ready,
        counts: &mut Counts,
    ) -> Result<(), Wrong> {
        self.copies.add_to(alloc, &mut ready.restarted)?;
        let pages = ready.restarted.pages();
        if ready.is_strange {
            self.expected.begin_life(pages);
            counts.met_strange();
        } else {
            self.expected.check_left(pages)?;
        }
        let master = ready.master;
        let copies = self
            .copies
            .restore_each(rt, alloc, &ready.restarted, master)?;
        counts.restored(copies);
        Ok(())
    }

    /// Makes calls of an engine, forces its log now and then, as a closing does, and cuts its power.
    fn play(
        &mut self,
        alloc: Global,
        engine: LogEngine,
        chance: &mut Chance,
    ) -> Result<(LostLog, Vec<u8>), Wrong> {
        let mut engine = engine;
        let lived = self.make_calls(alloc, &mut engine, chance);
        self.is_closed = chance.one_in(4) && engine.force().is_ok();
        let lost = lose(alloc, engine, chance);
        lived?;
        lost
    }

    /// Makes calls, up to some behind the first that met a fault.
    fn make_calls<S: PageStore, D: LogDevice>(
        &mut self,
        alloc: Global,
        engine: &mut Engine<S, D>,
        chance: &mut Chance,
    ) -> Result<(), Wrong> {
        let mut hand = Hand::new(self.copies.last());
        for _ in 0..20 + chance.below(200) {
            let event = hand.draw(chance, &self.expected);
            let reply = engine.apply(event);
            self.expected.note(&event, &reply)?;
            hand.note(&event, &reply);
            if let (Event::Seal(id), Ok(Answer::Sealed(_))) = (&event, &reply) {
                self.copies.write(alloc, engine.copies(), *id)?;
            }
            if is_fault(&reply) && chance.one_in(4) {
                return Ok(());
            }
        }
        Ok(())
    }
}

/// Whether a reply tells of a fault of the log's device.
fn is_fault(reply: &Reply) -> bool {
    matches!(reply, Err(Refusal::LogFault | Refusal::CommitUnsure(_)))
}
