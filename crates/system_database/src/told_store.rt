//! A page store on a file that notes why a call of it failed.

ghost use Rattle.std.specs.Prelude.{◌≡◌, ◌<◌, ◌≤◌, length};
ghost use Rattle.page_core.specs.declared.page.TheConstants.{MAX_PAGES};

use file_devices::FileStore;
use page_core::{Page, PageNo};
use page_store::{PageStore, StoreFault};
use std::io;
use std::io::ErrorKind;
use system_files::Notes;

/// A page store on a file. Whom it answers a fault cannot ask it why, so it notes that.
#[derive(Drop)]
pub struct ToldStore<'a> {
    pub store: FileStore,
    pub notes: &'a Notes,
}

impl ToldStore<'_> {
    /// Notes why a call failed, if it did.
    fn note<T>(&self, answer: &Result<T, StoreFault>) {
        if answer.is_err() {
            let failed: io::Result<()> = Err(match self.store.error() {
                Some(error) => error,
                None => io::Error::from(ErrorKind::InvalidData),
            });
            self.notes.note(&failed);
        }
    }
}

impl PageStore for ToldStore<'_> {
    ghost use Rattle.file_devices.specs.FileStore.{FileGrows, FileReads, FileWrites};

    ghost stored = { λ it. it.store.pages };

    ghost gave = { λ old number result new. FileReads old.store number result new.store };

    ghost wrote = { λ old number page result new.
        FileWrites old.store number page result new.store };

    ghost grew = { λ old count result new. FileGrows old.store count result new.store };

    ghost failures = { λ it. it.store.failures };

    fn pages(&self) -> u32 {
        self.store.pages()
    }

    fn read(&mut self, number: PageNo) -> Result<Page, StoreFault> {
        let answer = self.store.read(number);
        self.note(&answer);
        answer
    }

    fn write(&mut self, number: PageNo, page: &Page) -> Result<(), StoreFault> {
        let answer = self.store.write(number, page);
        self.note(&answer);
        answer
    }

    fn grow(&mut self, count: u32) -> Result<(), StoreFault> {
        let answer = self.store.grow(count);
        self.note(&answer);
        answer
    }
}
