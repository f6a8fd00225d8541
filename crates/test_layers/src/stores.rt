//! What no clause says: that each call succeeds, and that a caller can use any store by its trait.

ghost use Rattle.std.specs.Prelude.{◌≡◌, ◌<◌, length, slice_get, slice_set, Some};
ghost use Rattle.std.specs.Prelude.{IfOk, OnOk, OnErr};
ghost use Rattle.page_store.specs.Store.{StoresOrKeeps};

use crate::asserts::{same, same_at};
use page_core::{Lsn, MAX_PAGES, Page, PageNo, SLOTS};
use page_store::{FaultyStore, MemStore, PageStore, StoreFault};
use std::process::Abort;
use std::test::Fail;

/// Page `number`, with a number in slot 0.
fn page_with(number: u32, value: u64) -> Page
    ensures { result.number ≡ number }
{
    let mut slots = [0; SLOTS];
    slots[0] = value;
    Page {
        number: PageNo(number),
        lsn: Lsn(64),
        slots,
    }
}

/// Puts a page in the place of the one of its number, and gives the old one back.
fn swap_in<S: PageStore>(store: &mut S, page: &Page) -> Result<Page, StoreFault>
    requires { page.now.number < length (S.stored store.old) }

    ensures found { IfOk result
        (λ before. slice_get (S.stored store.old) page.now.number ≡ Some before) }
    ensures stored { OnOk result
        (S.stored store.new ≡ slice_set (S.stored store.old) page.now.number page.now) }
    ensures either { OnErr result
        (StoresOrKeeps (S.stored store.old) page.now.number page.now (S.stored store.new)) }
    ensures count { length (S.stored store.new) ≡ length (S.stored store.old) }

    ensures no_failure { OnOk result (S.failures store.new ≡ S.failures store.old) }
    ensures failure { OnErr result (S.failures store.old < S.failures store.new) }
{
    let before = store.read(page.number)?;
    store.write(page.number, page)?;
    Ok(before)
}

/// A call of a store: a write of a page with a number in slot 0, a read of it, or a growth.
#[derive(Clone, Copy, Debug)]
enum Call {
    Write(u32, u64),
    Read(u32),
    Grow(u32),
}

/// Makes a call, and tells the number that is then known to be in slot 0 of its page, or for a
/// growth how many pages there are then.
fn make_call<S: PageStore>(rt: &impl Abort, store: &mut S, call: Call) -> Result<u64, StoreFault> {
    match call {
        Call::Write(number, value) => {
            assert!(rt; number < store.pages());
            store.write(PageNo(number), &page_with(number, value))?;
            Ok(value)
        }
        Call::Read(number) => {
            assert!(rt; number < store.pages());
            let page = store.read(PageNo(number))?;
            same(rt, &page.number, &PageNo(number));
            Ok(page.slots[0])
        }
        Call::Grow(count) => {
            assert!(rt; count <= MAX_PAGES);
            store.grow(count)?;
            Ok(u64::from(store.pages()))
        }
    }
}

const SCRIPT: [Call; 11] = [
    Call::Read(0),
    Call::Write(1, 5),
    Call::Grow(3),
    Call::Read(1),
    Call::Grow(1),
    Call::Write(0, 6),
    Call::Grow(4),
    Call::Write(1, 7),
    Call::Read(0),
    Call::Read(1),
    Call::Write(0, 8),
];

/// Makes the calls of the script on a store of two formatted pages, of which the `k`-th one fails.
fn assert_follows<S: PageStore>(rt: &impl Abort, store: &mut S, k: usize) {
    let mut numbers = [0, 0];
    let mut pages = 2;
    for (index, call) in SCRIPT.iter().enumerate() {
        let done = make_call(rt, store, *call);
        if index + 1 == k {
            same_at(
                rt,
                &done,
                &Err(StoreFault),
                &format_args!("{call:?}, call {k} fails"),
            );
            continue;
        }
        let want = match *call {
            Call::Write(0, value) => {
                numbers[0] = value;
                value
            }
            Call::Write(_, value) => {
                numbers[1] = value;
                value
            }
            Call::Read(0) => numbers[0],
            Call::Read(_) => numbers[1],
            Call::Grow(count) => {
                pages = pages.max(count);
                u64::from(pages)
            }
        };
        same_at(
            rt,
            &done,
            &Ok(want),
            &format_args!("{call:?}, call {k} fails"),
        );
    }
}

#[test]
fn a_store_in_memory_never_fails(rt: HostRuntime) -> Result<(), Fail> {
    let mut store = MemStore::new(rt.alloc(), 2)?;
    let formatted = [Page::formatted(PageNo(0)), Page::formatted(PageNo(1))];
    same(&rt, &store.stored(), &formatted.as_slice());
    assert_follows(&rt, &mut store, 0);
    let written = [
        page_with(0, 8),
        page_with(1, 7),
        Page::formatted(PageNo(2)),
        Page::formatted(PageNo(3)),
    ];
    same(&rt, &store.stored(), &written.as_slice());
    Ok(())
}

#[test]
fn one_call_fails(rt: HostRuntime) -> Result<(), Fail> {
    let alloc = rt.alloc();
    for k in 0..=SCRIPT.len() {
        let mut store = FaultyStore::new(alloc, MemStore::new(alloc, 2)?, k as u64)?;
        same(&rt, &store.pages(), &2);
        assert_follows(&rt, &mut store, k);
        let last = if k == SCRIPT.len() { 6 } else { 8 };
        same_at(
            &rt,
            &make_call(&rt, &mut store, Call::Read(0)),
            &Ok(last),
            &format_args!("call {k} failed"),
        );
    }
    Ok(())
}

/// Makes these calls, and asserts what comes of each.
fn assert_calls<S: PageStore>(
    rt: &impl Abort,
    store: &mut S,
    calls: &[(Call, Result<u64, StoreFault>)],
) {
    for &(call, want) in calls {
        same_at(
            rt,
            &make_call(rt, store, call),
            &want,
            &format_args!("{call:?}"),
        );
    }
}

#[test]
fn a_damaged_page_is_read_once_it_is_written(rt: HostRuntime) -> Result<(), Fail> {
    let alloc = rt.alloc();
    let mut store = FaultyStore::new(alloc, MemStore::new(alloc, 2)?, 3)?;
    store.damage(PageNo(1));
    let calls = [
        (Call::Read(1), Err(StoreFault)),
        (Call::Read(0), Ok(0)),
        // The third call, which fails, and so mends nothing.
        (Call::Write(1, 5), Err(StoreFault)),
        (Call::Read(1), Err(StoreFault)),
        (Call::Write(0, 6), Ok(6)),
        (Call::Read(1), Err(StoreFault)),
        (Call::Write(1, 7), Ok(7)),
        (Call::Read(1), Ok(7)),
    ];
    assert_calls(&rt, &mut store, &calls);
    let written = [page_with(0, 6), page_with(1, 7)];
    same(&rt, &store.stored(), &written.as_slice());
    Ok(())
}

/// The second call writes page 0 before it is damaged, and so does not mend it; the fifth does.
#[test]
fn a_page_is_damaged_from_a_call_on(rt: HostRuntime) -> Result<(), Fail> {
    let alloc = rt.alloc();
    let mut store = FaultyStore::new(alloc, MemStore::new(alloc, 2)?, 0)?;
    store.damage_from(PageNo(0), 2);
    let calls = [
        (Call::Read(0), Ok(0)),
        (Call::Write(0, 5), Ok(5)),
        (Call::Read(0), Err(StoreFault)),
        (Call::Read(1), Ok(0)),
        (Call::Write(0, 6), Ok(6)),
        (Call::Read(0), Ok(6)),
    ];
    assert_calls(&rt, &mut store, &calls);
    let written = [page_with(0, 6), Page::formatted(PageNo(1))];
    same(&rt, &store.stored(), &written.as_slice());
    Ok(())
}

/// A read that is to fail late leaves all pages, and a write leaves the new one.
#[test]
fn a_store_fails_late(rt: HostRuntime) -> Result<(), Fail> {
    let alloc = rt.alloc();
    let mut store = FaultyStore::late(alloc, MemStore::new(alloc, 2)?, 2)?;
    let calls = [
        (Call::Read(1), Ok(0)),
        (Call::Write(1, 5), Err(StoreFault)),
        (Call::Read(1), Ok(5)),
        (Call::Write(0, 6), Ok(6)),
    ];
    assert_calls(&rt, &mut store, &calls);
    same(
        &rt,
        &store.stored(),
        &[page_with(0, 6), page_with(1, 5)].as_slice(),
    );
    let mut store = FaultyStore::late(alloc, MemStore::new(alloc, 2)?, 1)?;
    assert_calls(
        &rt,
        &mut store,
        &[(Call::Read(1), Err(StoreFault)), (Call::Read(1), Ok(0))],
    );
    Ok(())
}

/// The write that fails late stores the page, but mends nothing.
#[test]
fn a_late_write_mends_nothing(rt: HostRuntime) -> Result<(), Fail> {
    let alloc = rt.alloc();
    let mut store = FaultyStore::late(alloc, MemStore::new(alloc, 2)?, 1)?;
    store.damage(PageNo(1));
    let calls = [
        (Call::Write(1, 5), Err(StoreFault)),
        (Call::Read(1), Err(StoreFault)),
        (Call::Write(1, 6), Ok(6)),
        (Call::Read(1), Ok(6)),
    ];
    assert_calls(&rt, &mut store, &calls);
    Ok(())
}

/// A growth that asks for no more pages than there are changes nothing.
#[test]
fn a_store_grows(rt: HostRuntime) -> Result<(), Fail> {
    let mut store = MemStore::new(rt.alloc(), 1)?;
    let calls = [
        (Call::Write(0, 5), Ok(5)),
        (Call::Grow(3), Ok(3)),
        (Call::Read(2), Ok(0)),
        (Call::Write(2, 6), Ok(6)),
        (Call::Grow(0), Ok(3)),
        (Call::Grow(3), Ok(3)),
    ];
    assert_calls(&rt, &mut store, &calls);
    let grown = [page_with(0, 5), Page::formatted(PageNo(1)), page_with(2, 6)];
    same(&rt, &store.stored(), &grown.as_slice());
    let calls = [
        (Call::Grow(MAX_PAGES), Ok(65_536)),
        (Call::Read(65_535), Ok(0)),
        (Call::Read(2), Ok(6)),
    ];
    assert_calls(&rt, &mut store, &calls);
    Ok(())
}

/// The second call is a growth that fails, and adds no page; the next one adds them.
#[test]
fn a_growth_fails(rt: HostRuntime) -> Result<(), Fail> {
    let alloc = rt.alloc();
    let mut store = FaultyStore::new(alloc, MemStore::new(alloc, 2)?, 2)?;
    let calls = [(Call::Write(1, 5), Ok(5)), (Call::Grow(4), Err(StoreFault))];
    assert_calls(&rt, &mut store, &calls);
    let stayed = [Page::formatted(PageNo(0)), page_with(1, 5)];
    same(&rt, &store.stored(), &stayed.as_slice());
    let calls = [
        (Call::Grow(4), Ok(4)),
        (Call::Read(3), Ok(0)),
        (Call::Read(1), Ok(5)),
    ];
    assert_calls(&rt, &mut store, &calls);
    Ok(())
}

/// A growth that fails late has added the pages, also where it asked for none.
#[test]
fn a_growth_fails_late(rt: HostRuntime) -> Result<(), Fail> {
    let alloc = rt.alloc();
    let mut store = FaultyStore::late(alloc, MemStore::new(alloc, 1)?, 1)?;
    assert_calls(&rt, &mut store, &[(Call::Grow(3), Err(StoreFault))]);
    let grown = [
        Page::formatted(PageNo(0)),
        Page::formatted(PageNo(1)),
        Page::formatted(PageNo(2)),
    ];
    same(&rt, &store.stored(), &grown.as_slice());
    let calls = [
        (Call::Write(2, 5), Ok(5)),
        (Call::Grow(3), Ok(3)),
        (Call::Read(2), Ok(5)),
    ];
    assert_calls(&rt, &mut store, &calls);
    let mut store = FaultyStore::late(alloc, MemStore::new(alloc, 2)?, 1)?;
    let calls = [
        (Call::Grow(1), Err(StoreFault)),
        (Call::Grow(1), Ok(2)),
        (Call::Read(1), Ok(0)),
    ];
    assert_calls(&rt, &mut store, &calls);
    Ok(())
}

/// A page stays damaged where the store grows. A page that was added is damaged only later.
#[test]
fn a_page_that_was_added_is_damaged(rt: HostRuntime) -> Result<(), Fail> {
    let alloc = rt.alloc();
    let mut store = FaultyStore::new(alloc, MemStore::new(alloc, 2)?, 0)?;
    store.damage(PageNo(1));
    store.damage_from(PageNo(0), 1);
    let calls = [
        (Call::Grow(4), Ok(4)),
        (Call::Read(0), Err(StoreFault)),
        (Call::Read(1), Err(StoreFault)),
        (Call::Read(2), Ok(0)),
        (Call::Read(3), Ok(0)),
    ];
    assert_calls(&rt, &mut store, &calls);
    assert!(&rt; store.pages() == 4);
    store.damage(PageNo(3));
    let calls = [
        (Call::Read(3), Err(StoreFault)),
        (Call::Read(2), Ok(0)),
        (Call::Grow(5), Ok(5)),
        (Call::Read(3), Err(StoreFault)),
        (Call::Write(3, 6), Ok(6)),
        (Call::Read(3), Ok(6)),
    ];
    assert_calls(&rt, &mut store, &calls);
    Ok(())
}

#[test]
fn a_page_is_swapped_in(rt: HostRuntime) -> Result<(), Fail> {
    let mut store = MemStore::new(rt.alloc(), 3)?;
    let page = page_with(2, 9);
    same(
        &rt,
        &swap_in(&mut store, &page),
        &Ok(Page::formatted(PageNo(2))),
    );
    same(&rt, &swap_in(&mut store, &page), &Ok(page_with(2, 9)));
    Ok(())
}

#[test]
fn a_swap_fails(rt: HostRuntime) -> Result<(), Fail> {
    let alloc = rt.alloc();
    for k in [1, 2] {
        let mut store = FaultyStore::new(alloc, MemStore::new(alloc, 3)?, k)?;
        let swapped = swap_in(&mut store, &page_with(2, 9));
        same_at(
            &rt,
            &swapped,
            &Err(StoreFault),
            &format_args!("call {k} fails"),
        );
        let read = make_call(&rt, &mut store, Call::Read(2));
        same_at(&rt, &read, &Ok(0), &format_args!("call {k} failed"));
    }
    Ok(())
}

#[test]
fn the_last_page_of_the_largest_store_is_there(rt: HostRuntime) -> Result<(), Fail> {
    let mut store = MemStore::new(rt.alloc(), MAX_PAGES)?;
    same(&rt, &store.pages(), &65_536);
    let calls = [
        (Call::Read(65_535), Ok(0)),
        (Call::Write(65_535, 1), Ok(1)),
        (Call::Read(65_535), Ok(1)),
        (Call::Read(65_534), Ok(0)),
    ];
    assert_calls(&rt, &mut store, &calls);
    Ok(())
}

#[test]
fn a_fault_has_a_text(rt: HostRuntime) -> Result<(), Fail> {
    let fault = StoreFault;
    let printed = format!(in rt.alloc(); "{fault}")?;
    same(&rt, &printed.as_str(), &"the page store failed");
    Ok(())
}
