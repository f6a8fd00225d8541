//! A page store on a file.

ghost use Rattle.std.specs.Prelude.{◌≡◌, ◌+◌, ◌*◌, ◌<◌, ◌≤◌, [], ◌∷◌, ◌++◌, length, is_ok};
ghost use Rattle.std.specs.Prelude.{IfOk, IfErr, OnOk, OnErr};
ghost use Rattle.page_core.specs.declared.page.Page.{Page};
ghost use Rattle.page_core.specs.declared.page.TheConstants.{MAX_PAGES, PAGE_BYTES};
ghost use Rattle.page_core.specs.Volume.{AreNumbered};
ghost use Rattle.file_devices.specs.Calls.{call, done, failed};
ghost use Rattle.file_devices.specs.FileStore.{FileGrows, FileReads, FileWrites, FormatFails};
ghost use Rattle.file_devices.specs.FileStore.{formatted_between};
ghost use Rattle.file_devices.specs.FileStore.{Looks, WritesFail, page_write, writes_of};
ghost use Rattle.file_devices.specs.declared.calls.Request.TheVariants.{SetLen, Sync};

use crate::failed_file::FailedFile;
use crate::tracked_file::TrackedFile;
use page_core::{Failures, PAGE_BYTES, Page, PageNo};
use page_store::{MemStore, PageStore, StoreFault};
use std::fs::File;
use std::io;
use std::marker::Model;

/// A page store on a file, in which page k stands at 512 k. It has the pages in memory too, and a
/// read answers a page only where the file gives just that page: what the file lost, or has from
/// another writer, is a fault, and a new write mends it.
#[derive(Drop)]
pub struct FileStore {
    file: TrackedFile,
    pages: MemStore,
    failures: Failures,
}

impl Model for FileStore {
    ghost use Rattle.page_core.specs.Failures.{failure_count};
    ghost use Rattle.file_devices.specs.FileStore.{FiledPages};

    ghost Value = { FiledPages };

    ghost view = { λ it. record {
      pages = it.pages;
      calls = it.file;
      failures = failure_count it.failures;
    } };
}

/// Where the page of this number stands in the file.
fn place_of(number: PageNo) -> u64
    ensures { result ≡ PAGE_BYTES * number }
{
    PAGE_BYTES as u64 * number.0 as u64
}

/// Writes a page at its place.
fn put(file: &mut TrackedFile, page: &Page) -> io::Result<()>
    ensures { file.new ≡ file.old ++ call (page_write page.now) (is_ok result) ∷ [] }
{
    file.write_at(place_of(page.number), &page.to_bytes())
}

/// Whether the file gives just this page at its place.
fn has(file: &mut TrackedFile, page: &Page) -> bool
    ensures { Looks file.old page.now result file.new }
{
    let mut bytes = [0; PAGE_BYTES];
    file.read_at(place_of(page.number), &mut bytes).is_ok() && bytes == page.to_bytes()
}

impl FileStore {
    /// A store of these pages on a file, which is emptied and gets them. The file is open for
    /// reading and writing, and not for appending.
    ///
    /// An `Err` comes where it cannot be emptied, or a page cannot be written.
    pub fn new(file: File, pages: MemStore) -> Result<FileStore, FailedFile>
        ensures pages { IfOk result (λ store. store.pages ≡ pages) }
        ensures calls { IfOk result (λ store. store.calls ≡ done (SetLen 0) ∷ writes_of pages) }
        ensures no_failure { IfOk result (λ store. store.failures ≡ 0) }
        ensures fault { IfErr result (λ why. FormatFails pages why) }
    {
        let mut file = TrackedFile::new(file);
        match fill(&mut file, pages.stored()) {
            Ok(()) => Ok(FileStore {
                file,
                pages,
                failures: Failures::None,
            }),
            Err(error) => Err(FailedFile::new(error, file.into_calls())),
        }
    }

    /// Waits until all that was written lasts. No other call does so.
    ///
    /// An `Err` comes where the store fails, and of nothing else. Then some of it may be gone, and
    /// a read tells.
    pub fn sync(&mut self) -> Result<(), StoreFault>
        ensures pages { self.new.pages ≡ self.old.pages }
        ensures calls { self.new.calls ≡ self.old.calls ++ call Sync (is_ok result) ∷ [] }
        ensures no_failure { OnOk result (self.new.failures ≡ self.old.failures) }
        ensures failure { OnErr result (self.new.failures ≡ self.old.failures + 1) }
    {
        if self.file.sync().is_err() {
            return Err(self.fail());
        }
        Ok(())
    }

    /// Why the last call of the file failed, if it did and the system told why. Where a read failed
    /// since the file has something else than was written, no call of it failed.
    pub fn error(&self) -> Option<io::Error> {
        self.file.error()
    }

    /// A call that fails.
    fn fail(&mut self) -> StoreFault
        ensures { self.new ≡ record self.old { failures = self.old.failures + 1 } }
    {
        self.failures.add_one();
        StoreFault
    }
}

/// Empties a file and writes these pages.
fn fill(file: &mut TrackedFile, pages: &[Page]) -> io::Result<()>
    requires { file.old ≡ [] }
    ensures ok { OnOk result (file.new ≡ done (SetLen 0) ∷ writes_of pages.now) }
    ensures err { OnErr result (FormatFails pages.now file.new) }
{
    file.set_len(0)?;
    for page in pages {
        put(file, page)?;
    }
    Ok(())
}

impl PageStore for FileStore {
    ghost stored = { λ store. store.pages };

    ghost gave = { λ old number result new. FileReads old number result new };

    ghost wrote = { λ old number page result new. FileWrites old number page result new };

    ghost grew = { λ old count result new. FileGrows old count result new };

    ghost failures = { λ store. store.failures };

    fn pages(&self) -> u32
        ensures count { result ≡ length self.now.pages }
        ensures few { length self.now.pages ≤ MAX_PAGES }
        ensures numbered { AreNumbered self.now.pages }
    {
        self.pages.pages()
    }

    /// An `Err` comes where the file gives no bytes of the page's place, or others than those of
    /// the page. The call takes no memory.
    fn read(&mut self, number: PageNo) -> Result<Page, StoreFault>
        requires { number < length self.old.pages }

        ensures exact { FileReads self.old number result self.new }
        ensures numbered { IfOk result (λ page. page.number ≡ number) }
    {
        let page = self.pages.read(number)?;
        if !has(&mut self.file, &page) {
            return Err(self.fail());
        }
        Ok(page)
    }

    /// An `Err` comes where the page cannot be written to the file. Then the old page counts as
    /// stored. If the file has another one, the old one or a part of it, each read is a fault until
    /// a write mends it. The call takes no memory.
    fn write(&mut self, number: PageNo, page: &Page) -> Result<(), StoreFault>
        requires there { number < length self.old.pages }
        requires numbered { page.now.number ≡ number }

        ensures exact { FileWrites self.old number page.now result self.new }
    {
        if put(&mut self.file, page).is_err() {
            return Err(self.fail());
        }
        self.pages.write(number, page)
    }

    /// An `Err` comes where a page cannot be written to the file. Then none is added. The call
    /// takes no memory.
    fn grow(&mut self, count: u32) -> Result<(), StoreFault>
        requires { count ≤ MAX_PAGES }

        ensures exact { FileGrows self.old count result self.new }
        ensures enough { OnOk result (count ≤ length self.new.pages) }
        ensures same { OnOk result
            (count ≤ length self.old.pages → self.new.pages ≡ self.old.pages) }
    {
        if put_formatted(&mut self.file, self.pages.pages(), count).is_err() {
            return Err(self.fail());
        }
        self.pages.grow(count)
    }
}

/// Writes formatted pages, from one number up to another.
fn put_formatted(file: &mut TrackedFile, from: u32, to: u32) -> io::Result<()>
    ensures ok { OnOk result (file.new ≡ file.old ++ writes_of (formatted_between from to)) }
    ensures err { OnErr result (WritesFail file.old (formatted_between from to) file.new) }
{
    for number in from..to {
        put(file, &Page::formatted(PageNo(number)))?;
    }
    Ok(())
}
