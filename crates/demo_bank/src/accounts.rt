//! Where the accounts of the bank stand.

ghost use Rattle.std.specs.Prelude.{◌<◌};

use imgcopy_engine::{Page, PageNo, SlotNo};

/// How many pages the volume has: those of accounts, and behind them the reserves, which nobody
/// changes.
pub const PAGES: u32 = 12;

/// How many pages have accounts, and how many of them each has, from slot 0 on.
pub const ACCOUNT_PAGES: u32 = 8;

const ACCOUNTS_OF_PAGE: u32 = 8;

/// How many accounts there are.
pub const ACCOUNTS: u32 = ACCOUNT_PAGES * ACCOUNTS_OF_PAGE;

/// What each account, and each reserve, has at first. No account can lose as much in a day.
pub const OPENING: u64 = 100_000;

/// The page and the slot of an account.
pub fn place_of(account: u32) -> (PageNo, SlotNo) {
    (
        PageNo(account / ACCOUNTS_OF_PAGE),
        SlotNo((account % ACCOUNTS_OF_PAGE) as u16),
    )
}

/// The balances of a page of accounts.
pub fn balances_of(page: &Page) -> &[u64] {
    &page.slots[..ACCOUNTS_OF_PAGE as usize]
}

/// What all accounts of these pages have together.
pub fn sum_of(pages: &[Page]) -> u64 {
    let mut sum = 0u64;
    for page in pages.iter().take(ACCOUNT_PAGES as usize) {
        for balance in balances_of(page) {
            sum = sum.wrapping_add(*balance);
        }
    }
    sum
}
