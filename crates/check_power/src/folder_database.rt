//! A database in a folder, whose lives end by cuts of the power, or with their process.

ghost use Rattle.buffer_pool.specs.Pool.{IsFrameCount};
ghost use Rattle.log_records.specs.Log.{IsPageCount};
ghost use Rattle.std.specs.Prelude.{IfSome};

use crate::ask::Ask;
use crate::chance::Chance;
use crate::counts::Counts;
use crate::heard::Heard;
use crate::left_log::{check_untouched, check_whole, is_strange, named_bytes};
use crate::restored::{restores, stand};
use crate::spoil::Spoiled;
use crate::user::User;
use crate::wrong::Wrong;
use aries_core::{Event, Setup};
use open_database::{OpenCall, OpenEnd, open_in};
use page_core::{PAGE_BYTES, Page, PageNo, SlotNo};
use std::alloc::Global;
use std::cell::RefCell;
use std::io::Read;
use std::thread::Threads;
use test_simulator::{
    Call, Draw, Machine, Remains, SimulatedFolder, SimulatedOutput, SimulatedReader, State, Trouble,
};

/// How often what a life leaves is looked at.
const LOOKS: u32 = 4;

/// How many numbers are read where that is done.
const READS: u32 = 6;

/// A database in a folder.
#[derive(Drop)]
pub struct FolderDatabase {
    alloc: Global,
    setup: Setup,
    /// Syncs of this kind store nothing.
    ignored: Option<Call>,
    remains: Remains,
    heard: Heard,
    /// It has told that it is open, in some life.
    is_begun: bool,
    /// A call of its log has failed in a life since its power came.
    has_failed: bool,
    ghost pages: { IsPageCount setup.pages },
    ghost frames: { IsFrameCount setup.frames },
}

/// A life, and the lines that were typed in it.
#[derive(Drop)]
struct Life {
    remains: Remains,
    /// How many steps were made before it.
    began: usize,
    asks: Vec<Ask>,
    has_failed: bool,
}

/// What a life left.
#[derive(Drop)]
struct Left {
    remains: Remains,
    heard: Heard,
    is_begun: bool,
    has_failed: bool,
    /// How many bytes the log has for certain.
    lasting: usize,
}

/// How a folder is opened.
#[derive(Clone, Copy)]
struct Opening {
    setup: Setup,
    is_new: bool,
    salvage: bool,
    ghost pages: { IsPageCount setup.pages },
    ghost frames: { IsFrameCount setup.frames },
}

/// Opens the database in a folder of a machine, and answers all lines.
fn open<R: Read + Drop>(alloc: Global, machine: &Machine, opening: Opening, input: R) -> OpenEnd {
    let call = OpenCall {
        folder: "",
        pages: opening.first_pages(),
        frames: opening.setup.frames,
        salvage: opening.salvage,
        strict: false,
    };
    let folder = SimulatedFolder { alloc, machine };
    let (mut input, mut output) = (input, SimulatedOutput { machine });
    open_in(alloc, folder, &call, &mut input, &mut output)
}

/// Reads some numbers of a folder's database, and closes it.
fn look(
    alloc: Global,
    folder: State,
    opening: Opening,
    asks: &[Ask],
) -> Result<(OpenEnd, State), Wrong> {
    let mut lines = Vec::new(alloc);
    for ask in asks {
        lines.extend_from_slice(ask.line(alloc)?.as_bytes())?;
    }
    let machine = Machine::new(folder);
    let end = open(alloc, &machine, opening, SimulatedReader::new(lines));
    Ok((end, machine.into_state()))
}

/// Draws which numbers are read.
fn draw_reads(alloc: Global, chance: &mut Chance) -> Result<Vec<Ask>, Wrong> {
    let mut asks = Vec::new(alloc);
    for _ in 0..READS {
        let (page, slot) = (PageNo(chance.below(6)), SlotNo(chance.below(4) as u16));
        asks.push(Ask::Call(Event::Read { page, slot }))?;
    }
    Ok(asks)
}

/// Draws which calls of a life fail, unless syncs are ignored.
fn draw_trouble(ignored: Option<Call>, chance: &mut Chance) -> Trouble {
    match ignored {
        Some(sync) => Trouble::ignoring(sync),
        None if chance.one_in(3) => Trouble::draw(&mut Draw::new(chance.next())),
        None => Trouble::NONE,
    }
}

/// The pages of a volume's file.
fn pages_in(alloc: Global, volume: &[u8]) -> Result<Vec<Page>, Wrong> {
    let mut pages = Vec::new(alloc);
    for bytes in volume.chunks(PAGE_BYTES) {
        match Page::from_bytes(bytes) {
            Ok(page) => pages.push(page)?,
            Err(_) => return Err(Wrong::NoVolume),
        }
    }
    Ok(pages)
}

impl FolderDatabase {
    /// One that has to be begun.
    pub fn new(alloc: Global, setup: Setup, ignored: Option<Call>) -> Result<FolderDatabase, Wrong>
        requires pages { IsPageCount setup.pages }
        requires frames { IsFrameCount setup.frames }
    {
        Ok(FolderDatabase {
            alloc,
            setup,
            ignored,
            remains: Remains::new(alloc),
            heard: Heard::new(alloc, setup.pages)?,
            is_begun: false,
            has_failed: false,
        })
    }

    /// How many commits were answered.
    pub fn commits(&self) -> u64 {
        self.heard.known.commits
    }

    /// How it is opened next.
    fn opening(&self) -> Opening {
        Opening {
            setup: self.setup,
            is_new: !self.is_begun,
            salvage: false,
        }
    }

    /// Plays a life, and looks at what it leaves where it ends at some steps. Answers the database that
    /// goes on from one of these, if it may.
    pub fn live(
        self,
        rt: &(impl Threads + Sync),
        chance: &mut Chance,
        counts: &mut Counts,
    ) -> Result<Option<FolderDatabase>, Wrong> {
        let opening = self.opening();
        let FolderDatabase {
            alloc,
            ignored,
            remains,
            heard,
            is_begun,
            has_failed,
            ..
        } = self;
        let trouble = draw_trouble(ignored, chance);
        let mut life = Life::play(alloc, remains, &heard, opening, trouble, chance)?;
        life.has_failed = life.has_failed || has_failed;
        for _ in 0..LOOKS {
            let left = life.end(&heard, is_begun, chance)?;
            left.look_at(rt, &life, opening, chance, counts)?;
        }
        let left = life.end(&heard, is_begun, chance)?;
        let Some(left) = left.go_on(&life, opening, chance, counts)? else {
            return Ok(None);
        };
        Ok(Some(FolderDatabase {
            alloc,
            setup: opening.setup,
            ignored,
            remains: left.remains,
            heard: left.heard,
            is_begun: left.is_begun,
            has_failed: left.has_failed,
        }))
    }
}

impl Life {
    /// Opens the database and types lines.
    fn play(
        alloc: Global,
        remains: Remains,
        heard: &Heard,
        opening: Opening,
        trouble: Trouble,
        chance: &mut Chance,
    ) -> Result<Life, Wrong> {
        let Remains { first, mut now } = remains;
        let began = now.steps.len();
        now.begin(trouble);
        let machine = Machine::new(now);
        let asks = RefCell::new(Vec::new(alloc));
        let user = User {
            alloc,
            machine: &machine,
            asks: &asks,
            heard: heard.copied()?,
            chance: Chance::of(chance.next()),
            place: began,
            lines: 10 + chance.below(90),
        };
        let end = open(alloc, &machine, opening, user);
        let now = machine.into_state();
        if now.is_misused() {
            return Err(Wrong::Misused);
        }
        if end != OpenEnd::Well && !now.has_failed() {
            return Err(Wrong::Refused);
        }
        let has_failed = now.has_log_failed();
        Ok(Life {
            remains: Remains { first, now },
            began,
            asks: asks.into_inner(),
            has_failed,
        })
    }

    /// Ends it at some step.
    fn end(&self, heard: &Heard, is_begun: bool, chance: &mut Chance) -> Result<Left, Wrong> {
        let steps = self.remains.now.steps.len();
        let at = steps.saturating_sub(chance.up_to(steps.saturating_sub(self.began)));
        let at = if chance.one_in(8) { steps } else { at };
        let mut heard = heard.copied()?;
        let made = self.remains.now.steps.get(self.began..at).unwrap_or(&[]);
        heard.hear(&self.asks, made)?;
        let is_begun = is_begun || heard.has_begun;
        heard.end(&self.asks)?;
        let is_killed = chance.one_in(4);
        let remains = if is_killed {
            self.remains.killed(at)?
        } else {
            let mut draw = Draw::new(chance.next());
            self.remains.cut(at, &mut draw)?
        };
        check_whole(&self.remains.now, &remains.now)?;
        let lasting = match remains.now.file_of("log") {
            Some(file) => self.remains.lasting_bytes(file, at)?,
            None => 0,
        };
        Ok(Left {
            remains,
            heard,
            is_begun,
            has_failed: self.has_failed,
            lasting,
        })
    }
}

impl Left {
    /// Damages something, perhaps, opens the database, perhaps once more behind a cut in that opening,
    /// and compares what it has.
    fn look_at(
        self,
        rt: &(impl Threads + Sync),
        life: &Life,
        opening: Opening,
        chance: &mut Chance,
        counts: &mut Counts,
    ) -> Result<(), Wrong> {
        if !self.is_begun {
            return Ok(());
        }
        counts.looked();
        let mut left = self;
        let spoiled = Spoiled::draw(chance, &mut left.remains, left.lasting)?;
        if let Spoiled::Forced(at) = spoiled {
            return left.look_at_damaged(opening, at, counts);
        }
        let mut is_strange = left.is_strange(life);
        if spoiled == Spoiled::Nothing && chance.one_in(2) {
            is_strange = left.cut_again(opening, chance)? || is_strange;
        }
        let asks = draw_reads(left.heard.alloc(), chance)?;
        let found = left.find(opening, spoiled, is_strange, &asks, counts)?;
        if let Some(folder) = found
            && spoiled != Spoiled::Beside
        {
            left.compare_copies(rt, &folder, chance, counts)?;
        }
        Ok(())
    }

    fn is_strange(&self, life: &Life) -> bool {
        is_strange(self.heard.alloc(), &life.remains, &self.remains.now)
    }

    /// Opens it, and ends that at some step. Answers whether a torn write has spelled a record then that
    /// nobody wrote.
    fn cut_again(&mut self, opening: Opening, chance: &mut Chance) -> Result<bool, Wrong> {
        let alloc = self.heard.alloc();
        let Remains { first, now } = self.remains.copied()?;
        let began = now.steps.len();
        let (_, now) = look(alloc, now, opening.again(), &[])?;
        let again = Remains { first, now };
        let steps = again.now.steps.len();
        let at = steps.saturating_sub(chance.up_to(steps.saturating_sub(began)));
        self.remains = if chance.one_in(4) {
            again.killed(at)?
        } else {
            again.cut(at, &mut Draw::new(chance.next()))?
        };
        check_whole(&again.now, &self.remains.now)?;
        Ok(is_strange(alloc, &again, &self.remains.now))
    }

    /// Opens it, and compares its numbers. Answers what the folder has then, or nothing where it was
    /// refused, as it may be.
    fn find(
        &mut self,
        opening: Opening,
        spoiled: Spoiled,
        is_strange: bool,
        asks: &[Ask],
        counts: &mut Counts,
    ) -> Result<Option<State>, Wrong> {
        let alloc = self.heard.alloc();
        let folder = self.remains.copied()?.now;
        let began = folder.steps.len();
        let (end, folder) = look(alloc, folder, opening.again(), asks)?;
        if end != OpenEnd::Well {
            check_untouched(&self.remains.now, &folder)?;
            if !spoiled.may_be_refused() && !self.has_failed {
                return Err(Wrong::Refused);
            }
            counts.refused();
            if spoiled == Spoiled::Nothing {
                self.salvage(opening)?;
            }
            return Ok(None);
        }
        let pages = pages_in(alloc, folder.bytes_at("volume").unwrap_or(&[]))?;
        if is_strange {
            counts.met_strange();
        }
        self.heard.find(&pages, is_strange)?;
        let mut heard = self.heard.copied()?;
        heard.hear(asks, folder.steps.get(began..).unwrap_or(&[]))?;
        Ok(Some(folder))
    }

    /// Opens what is left where a log looks damaged since a call of it had failed: nothing is lost.
    fn salvage(&mut self, opening: Opening) -> Result<(), Wrong> {
        let alloc = self.heard.alloc();
        let folder = self.remains.copied()?.now;
        let (end, folder) = look(alloc, folder, opening.to_salvage(), &[])?;
        if end != OpenEnd::Well {
            return Err(Wrong::NotSalvaged);
        }
        let pages = pages_in(alloc, folder.bytes_at("volume").unwrap_or(&[]))?;
        self.heard.find(&pages, false)
    }

    /// Opens it where a byte of the log is another one that was forced: it is refused, or the manifest
    /// does not name that byte.
    fn look_at_damaged(
        self,
        opening: Opening,
        at: usize,
        counts: &mut Counts,
    ) -> Result<(), Wrong> {
        let alloc = self.heard.alloc();
        let named = named_bytes(alloc, &self.remains.now);
        let folder = self.remains.copied()?.now;
        let (end, folder) = look(alloc, folder, opening.again(), &[])?;
        if end != OpenEnd::Well {
            counts.refused();
            return check_untouched(&self.remains.now, &folder);
        }
        if (at as u64) < named {
            return Err(Wrong::BelowManifest { at: at as u64 });
        }
        Ok(())
    }

    /// Looks whether each complete copy is there, and restores one.
    fn compare_copies(
        &self,
        rt: &(impl Threads + Sync),
        folder: &State,
        chance: &mut Chance,
        counts: &mut Counts,
    ) -> Result<(), Wrong> {
        let alloc = self.heard.alloc();
        stand(alloc, folder, &self.heard.copies)?;
        let count = self.heard.copies.len();
        let index = chance.up_to(count.saturating_sub(1));
        if let Some(copy) = self.heard.copies.get(index) {
            let volume = folder.bytes_at("volume").unwrap_or(&[]);
            restores(rt, alloc, folder, *copy, volume)?;
            counts.restored(1);
        }
        Ok(())
    }

    /// Has the next life go on from it, if it may be opened.
    fn go_on(
        self,
        life: &Life,
        opening: Opening,
        chance: &mut Chance,
        counts: &mut Counts,
    ) -> Result<Option<Left>, Wrong> {
        if !self.is_begun {
            return Ok(None);
        }
        let mut left = self;
        let is_strange = left.is_strange(life);
        let asks = draw_reads(left.heard.alloc(), chance)?;
        let found = left.find(opening, Spoiled::Nothing, is_strange, &asks, counts)?;
        if found.is_none() {
            return Ok(None);
        }
        counts.cut();
        counts.lived();
        if left.remains.now.steps.is_empty() {
            left.has_failed = false;
        }
        Ok(Some(left))
    }
}

impl Opening {
    /// How many pages a new database begins with.
    fn first_pages(&self) -> Option<u32>
        ensures { IfSome result IsPageCount }
    {
        if self.is_new {
            Some(self.setup.pages)
        } else {
            None
        }
    }

    /// How a folder is opened in which there is a database.
    fn again(self) -> Opening {
        Opening {
            setup: self.setup,
            is_new: false,
            salvage: false,
        }
    }

    /// How a folder is opened whose log lacks records.
    fn to_salvage(self) -> Opening {
        Opening {
            setup: self.setup,
            is_new: false,
            salvage: true,
        }
    }
}
