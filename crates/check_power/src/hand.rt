//! The calls that are made, as they are drawn.

use crate::ask::{Ask, Word};
use crate::chance::Chance;
use crate::expected::Expected;
use crate::numbers::MOST_PAGES;
use aries_core::{Answer, Event, Refusal, Reply};
use copy_vault::CopyId;
use page_core::{Lsn, PageNo, SlotNo, TxnNo};

/// What it takes to draw calls of which most are answered.
#[derive(Clone, Copy)]
pub struct Hand {
    /// The copy that is being made, and the page that it takes next.
    copy: Option<CopyId>,
    next_page: u32,
    /// The last complete copy.
    last_copy: CopyId,
    is_ckpt_open: bool,
    is_gathered: bool,
}

impl Hand {
    /// At the begin of a life.
    pub fn new(last_copy: CopyId) -> Hand {
        Hand {
            copy: None,
            next_page: 0,
            last_copy,
            is_ckpt_open: false,
            is_gathered: false,
        }
    }

    /// The last complete copy.
    pub fn last_copy(&self) -> CopyId {
        self.last_copy
    }

    /// Takes note of a complete copy that one word made.
    pub fn has_copied(&mut self, id: CopyId) {
        self.last_copy = id;
    }

    /// Draws a line: a call, or seldom a word or a line that is wrong.
    pub fn draw_line(&self, chance: &mut Chance, known: &Expected) -> Ask {
        match chance.below(48) {
            0 => Ask::Word(Word::Checkpoint),
            1 => Ask::Word(Word::Flush),
            2 => Ask::Word(Word::Copy),
            3 => Ask::Word(Word::CopyOn(self.last_copy.0)),
            4 if chance.one_in(4) => Ask::Word(Word::Status),
            5 if chance.one_in(4) => Ask::Word(Word::Bad),
            _ => Ask::Call(self.draw(chance, known)),
        }
    }

    /// Draws a call.
    pub fn draw(&self, chance: &mut Chance, known: &Expected) -> Event {
        match chance.below(40) {
            0..=3 => Event::Begin,
            4..=19 => draw_of_txn(chance, known),
            20..=22 => Event::Read {
                page: any_page(chance, known),
                slot: any_slot(chance),
            },
            23 => Event::Force,
            24..=26 => Event::WriteBegin(any_page(chance, known)),
            27..=29 => Event::WriteEnd(any_page(chance, known)),
            30..=33 => self.draw_of_checkpoint(chance),
            34..=37 => self.draw_of_copy(chance, known),
            38 => Event::Repair {
                copy: self.last_copy,
                page: any_page(chance, known),
            },
            _ => draw_growth(chance, known),
        }
    }

    fn draw_of_checkpoint(&self, chance: &mut Chance) -> Event {
        if chance.one_in(16) || !self.is_ckpt_open {
            Event::CkptBegin
        } else if self.is_gathered {
            Event::CkptEnd
        } else {
            Event::CkptGather
        }
    }

    fn draw_of_copy(&self, chance: &mut Chance, known: &Expected) -> Event {
        match self.copy {
            Some(copy) if chance.one_in(24) => Event::DropCopy(copy),
            Some(copy) if self.next_page < known.pages => Event::Take {
                copy,
                page: PageNo(self.next_page),
            },
            Some(copy) => Event::Seal(copy),
            None if chance.one_in(3) => Event::CopyFull,
            None => Event::CopyInc(self.last_copy),
        }
    }

    /// Takes note of a call and its reply.
    pub fn note(&mut self, event: &Event, reply: &Reply) {
        match (event, reply) {
            (Event::CkptBegin, Ok(_)) => {
                self.is_ckpt_open = true;
                self.is_gathered = false;
            }
            (_, Ok(Answer::Done)) => self.is_gathered = true,
            (_, Err(Refusal::GatherLeft)) => self.is_gathered = false,
            (_, Err(Refusal::CkptOpen)) => {
                self.is_ckpt_open = true;
                self.is_gathered = true;
            }
            (Event::CkptEnd, _) => self.is_ckpt_open = false,
            (_, Ok(Answer::Copied(copy))) => {
                self.copy = Some(*copy);
                self.next_page = 0;
            }
            (Event::Take { .. }, _) => self.next_page = self.next_page.saturating_add(1),
            (_, Err(Refusal::PagesLeft(page))) => self.next_page = page.0,
            (Event::Seal(copy), Ok(_)) => {
                self.copy = None;
                self.last_copy = *copy;
            }
            (Event::DropCopy(_) | Event::Seal(_), _) => self.copy = None,
            (Event::CopyInc(_), Err(_)) => self.last_copy = CopyId(1),
            _ => {}
        }
    }
}

/// A page of the volume, or seldom one behind it.
fn any_page(chance: &mut Chance, known: &Expected) -> PageNo {
    if chance.one_in(32) {
        return PageNo(known.pages);
    }
    PageNo(chance.below(known.pages.clamp(1, MOST_PAGES)))
}

/// One of few slots, or seldom any.
fn any_slot(chance: &mut Chance) -> SlotNo {
    let count = if chance.one_in(16) { 63 } else { 4 };
    SlotNo((chance.below(count) & 0xff) as u16)
}

/// A number with any count of bits.
fn any_number(chance: &mut Chance) -> u64 {
    let bits = chance.below(64);
    chance.next() >> bits
}

/// Grows the volume by a page, unless it has as many as it is to have at most.
fn draw_growth(chance: &mut Chance, known: &Expected) -> Event {
    if chance.one_in(4) && known.pages < MOST_PAGES {
        Event::Extend(known.pages.saturating_add(1))
    } else {
        Event::Extend(known.pages)
    }
}

/// A call of an open transaction, or seldom of none.
fn draw_of_txn(chance: &mut Chance, known: &Expected) -> Event {
    let (txn, is_rolling, savepoint) = draw_txn(chance, known);
    if is_rolling && !chance.one_in(8) {
        return Event::UndoStep(txn);
    }
    match chance.below(16) {
        0..=7 => draw_change(chance, known, txn),
        8..=11 => Event::Commit(txn),
        12 => Event::Abort(txn),
        13 => Event::Savepoint(txn),
        _ => Event::UndoTo { txn, savepoint },
    }
}

/// A transaction, whether it rolls back, and its last savepoint.
fn draw_txn(chance: &mut Chance, known: &Expected) -> (TxnNo, bool, Lsn) {
    let txns = known.txns();
    let index = if chance.one_in(24) {
        txns.len()
    } else {
        chance.up_to(txns.len().saturating_sub(1))
    };
    match txns.get(index) {
        Some(it) => {
            let savepoint = match it.marks().last() {
                Some(mark) => mark.savepoint,
                None => Lsn(64),
            };
            (it.txn, it.is_rolling, savepoint)
        }
        None => (TxnNo(1), false, Lsn(64)),
    }
}

fn draw_change(chance: &mut Chance, known: &Expected, txn: TxnNo) -> Event {
    let (page, slot) = (any_page(chance, known), any_slot(chance));
    let number = any_number(chance);
    if chance.one_in(2) {
        Event::Set {
            txn,
            page,
            slot,
            number,
        }
    } else {
        Event::Add {
            txn,
            page,
            slot,
            amount: number,
        }
    }
}
