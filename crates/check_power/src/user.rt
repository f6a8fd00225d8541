//! One who types lines to an open database, and reads what they are answered.

use crate::ask::Ask;
use crate::chance::Chance;
use crate::heard::Heard;
use crate::wrong::Wrong;
use std::alloc::Global;
use std::cell::RefCell;
use std::io;
use std::io::Read;
use test_simulator::Machine;

/// One who types lines to an open database. What is typed next hangs on what was answered.
#[derive(Drop)]
pub struct User<'a> {
    pub alloc: Global,
    pub machine: &'a Machine,
    /// All lines that were typed in this life.
    pub asks: &'a RefCell<Vec<Ask>>,
    pub heard: Heard,
    pub chance: Chance,
    /// So many steps were heard.
    pub place: usize,
    /// So many lines are still to be typed.
    pub lines: u32,
}

impl User<'_> {
    /// Hears what was answered, and draws the next line. None comes where something differs.
    fn next_line(&mut self) -> Result<String, Wrong> {
        let Ok(mut state) = self.machine.state.try_borrow_mut() else {
            return Err(Wrong::NotHeard);
        };
        let Ok(mut asks) = self.asks.try_borrow_mut() else {
            return Err(Wrong::NotHeard);
        };
        let steps = state.steps.get(self.place..).unwrap_or(&[]);
        self.heard.hear(asks.as_slice(), steps)?;
        self.place = state.steps.len();
        let ask = self.heard.draw(&mut self.chance);
        let line = ask.line(self.alloc)?;
        asks.push(ask)?;
        state.ask()?;
        Ok(line)
    }
}

impl Read for User<'_> {
    fn read(&mut self, buf: &mut [u8]) -> io::Result<usize> {
        if self.lines == 0 {
            return Ok(0);
        }
        self.lines = self.lines.saturating_sub(1);
        let Ok(line) = self.next_line() else {
            self.lines = 0;
            return Ok(0);
        };
        let mut bytes = line.as_bytes();
        bytes.read(buf)
    }
}
