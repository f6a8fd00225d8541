//! What is known of a database from the lines of its lives alone.

use crate::ask::{Ask, Told, told_by};
use crate::chance::Chance;
use crate::expected::Expected;
use crate::hand::Hand;
use crate::wrong::Wrong;
use aries_core::{Answer, Event, Reply};
use copy_vault::CopyId;
use page_core::Page;
use std::alloc::Global;
use test_simulator::Step;

/// What is known of a database from the lines that were typed and told.
#[derive(Drop)]
pub struct Heard {
    alloc: Global,
    pub known: Expected,
    /// What it is known to have once it tells that it is open.
    opened: Expected,
    /// Until then nobody knows its numbers: a torn write has spelled a record that nobody wrote.
    pub is_strange: bool,
    hand: Hand,
    /// The complete copies whose files are in place.
    pub copies: Vec<u32>,
    asked: usize,
    answered: usize,
    pub has_begun: bool,
}

impl Heard {
    /// Of a new database.
    pub fn new(alloc: Global, pages: u32) -> Result<Heard, Wrong> {
        Ok(Heard {
            alloc,
            known: Expected::new(alloc, pages)?,
            opened: Expected::new(alloc, pages)?,
            is_strange: false,
            hand: Hand::new(CopyId(1)),
            copies: Vec::new(alloc),
            asked: 0,
            answered: 0,
            has_begun: false,
        })
    }

    /// A copy of this value, which then hears of its own database.
    pub fn copied(&self) -> Result<Heard, Wrong> {
        Ok(Heard {
            alloc: self.alloc,
            known: self.known.copied(self.alloc)?,
            opened: self.opened.copied(self.alloc)?,
            is_strange: self.is_strange,
            hand: self.hand,
            copies: Vec::from_slice(self.alloc, &self.copies)?,
            asked: self.asked,
            answered: self.answered,
            has_begun: self.has_begun,
        })
    }

    /// Where its memory comes from.
    pub fn alloc(&self) -> Global {
        self.alloc
    }

    /// Draws what is asked next.
    pub fn draw(&self, chance: &mut Chance) -> Ask {
        self.hand.draw_line(chance, &self.known)
    }

    /// Hears what was asked and told by these steps.
    pub fn hear(&mut self, asks: &[Ask], steps: &[Step]) -> Result<(), Wrong> {
        for step in steps {
            match step {
                Step::Asked => self.asked = self.asked.saturating_add(1),
                Step::Told { bytes } => {
                    for line in std::str::from_utf8(bytes).unwrap_or("").lines() {
                        self.hear_line(asks, line)?;
                    }
                }
                _ => {}
            }
        }
        Ok(())
    }

    fn hear_line(&mut self, asks: &[Ask], line: &str) -> Result<(), Wrong> {
        if !self.has_begun {
            self.has_begun = true;
            self.is_strange = false;
            self.known = self.opened.copied(self.alloc)?;
            return Ok(());
        }
        if line.starts_with("status ") && line != "status end" {
            return Ok(());
        }
        let Some(ask) = asks.get(self.answered) else {
            return Ok(());
        };
        self.answered = self.answered.saturating_add(1);
        match (ask, told_by(line)) {
            (Ask::Call(event), Told::Reply(reply)) => self.hear_reply(event, &reply),
            (Ask::Word(_), Told::Reply(reply)) if reply.is_ok() => {
                self.hear_reply(&Event::CkptEnd, &reply)
            }
            (Ask::Word(_), Told::Copied(id)) => {
                self.hand.has_copied(CopyId(id));
                self.copies.push(id)?;
                Ok(())
            }
            _ => Ok(()),
        }
    }

    /// Hears what a call was answered. A word that is answered as a call is makes a checkpoint.
    fn hear_reply(&mut self, event: &Event, reply: &Reply) -> Result<(), Wrong> {
        self.known.note(event, reply)?;
        self.hand.note(event, reply);
        if let (Event::Seal(id), Ok(Answer::Sealed(_))) = (event, reply) {
            self.copies.push(id.0)?;
        }
        Ok(())
    }

    /// Takes note that the life has ended: what was asked and not answered may be done.
    pub fn end(&mut self, asks: &[Ask]) -> Result<(), Wrong> {
        if self.answered < self.asked
            && let Some(Ask::Call(event)) = asks.get(self.answered)
        {
            self.known.leave_open(event)?;
        }
        self.asked = 0;
        self.answered = 0;
        self.has_begun = false;
        let last = self.hand.last_copy();
        self.hand = Hand::new(last);
        Ok(())
    }

    /// Compares the volume that was left. The next life has it for certain, once it is open.
    pub fn find(&mut self, pages: &[Page], is_strange: bool) -> Result<(), Wrong> {
        self.is_strange = self.is_strange || is_strange;
        self.opened = self.known.copied(self.alloc)?;
        if self.is_strange {
            self.opened.begin_life(pages);
            Ok(())
        } else {
            self.opened.check_left(pages)
        }
    }
}
