//! The volume of a database on a machine.

ghost use Rattle.std.specs.Prelude.{◌<◌, ◌≤◌, ◌≡◌, length, IfOk, OnOk};
ghost use Rattle.page_core.specs.Failures.{failure_count};
ghost use Rattle.page_core.specs.declared.page.TheConstants.{MAX_PAGES};

use crate::machine::{Machine, busy};
use crate::trouble::Call;
use page_core::{Failures, PAGE_BYTES, Page, PageNo};
use page_store::{MemStore, PageStore, StoreFault};
use std::io;

/// A store of pages that has them in memory, and in a file of a machine too. A page is given only
/// where the file has just that page.
#[derive(Drop)]
pub struct SimulatedVolume<'a> {
    pages: MemStore,
    machine: &'a Machine,
    file: usize,
    failures: Failures,
}

impl<'a> SimulatedVolume<'a> {
    /// A volume of these pages. What its file had is gone.
    pub fn new(
        machine: &'a Machine,
        file: usize,
        pages: MemStore,
    ) -> io::Result<SimulatedVolume<'a>>
        ensures { IfOk result (λ it. it.pages ≡ pages) }
    {
        empty(machine, file)?;
        for page in pages.stored() {
            put(machine, file, page)?;
        }
        Ok(SimulatedVolume {
            pages,
            machine,
            file,
            failures: Failures::None,
        })
    }

    fn fail(&mut self) -> StoreFault
        ensures pages { self.new.pages ≡ self.old.pages }
        ensures failure { failure_count self.old.failures < failure_count self.new.failures }
    {
        self.failures.add_one();
        StoreFault
    }
}

fn empty(machine: &Machine, file: usize) -> io::Result<()> {
    match machine.state.try_borrow_mut() {
        Ok(mut state) => state.set_len(Call::WriteVolume, file, 0),
        Err(_) => Err(busy()),
    }
}

fn place_of(number: PageNo) -> usize {
    PAGE_BYTES.saturating_mul(number.0 as usize)
}

/// Writes a page at its place.
fn put(machine: &Machine, file: usize, page: &Page) -> io::Result<()> {
    match machine.state.try_borrow_mut() {
        Ok(mut state) => state.write(
            Call::WriteVolume,
            file,
            place_of(page.number),
            &page.to_bytes(),
        ),
        Err(_) => Err(busy()),
    }
}

/// Writes formatted pages, from one number up to another.
fn put_formatted(machine: &Machine, file: usize, from: u32, to: u32) -> io::Result<()> {
    for number in from..to {
        put(machine, file, &Page::formatted(PageNo(number)))?;
    }
    Ok(())
}

/// Whether the file has just this page at its place.
fn has(machine: &Machine, file: usize, page: &Page) -> bool {
    let at = place_of(page.number);
    match machine.state.try_borrow() {
        Ok(state) => {
            let there = state.bytes_of(file).get(at..at.saturating_add(PAGE_BYTES));
            there == Some(page.to_bytes().as_slice())
        }
        Err(_) => false,
    }
}

impl PageStore for SimulatedVolume<'_> {
    ghost stored = { λ it. it.pages };

    ghost gave = { λ _ _ _ _. Unit {0} };

    ghost wrote = { λ _ _ _ _ _. Unit {0} };

    ghost grew = { λ _ _ _ _. Unit {0} };

    ghost failures = { λ it. failure_count it.failures };

    fn pages(&self) -> u32 {
        self.pages.pages()
    }

    fn read(&mut self, number: PageNo) -> Result<Page, StoreFault> {
        let page = self.pages.read(number)?;
        if !has(self.machine, self.file, &page) {
            return Err(self.fail());
        }
        Ok(page)
    }

    fn write(&mut self, number: PageNo, page: &Page) -> Result<(), StoreFault> {
        if put(self.machine, self.file, page).is_err() {
            return Err(self.fail());
        }
        self.pages.write(number, page)
    }

    fn grow(&mut self, count: u32) -> Result<(), StoreFault> {
        if put_formatted(self.machine, self.file, self.pages.pages(), count).is_err() {
            return Err(self.fail());
        }
        self.pages.grow(count)
    }
}
