//! The bytes of checkpoint records. Their fields overlap those of transaction records, so they have
//! their own layout.

ghost use Rattle.std.specs.Int.{w32, w64, to_le_bytes};
ghost use Rattle.std.specs.Prelude.{ℕ, ◌++◌, ◌≡◌, ◌+◌, ◌<◌, ◌≤◌, ◌^◌, IfSome, Some, slice_range};
ghost use Rattle.log_records.specs.declared.dirty_page.DirtyPage.{DirtyPage};
ghost use Rattle.log_records.specs.declared.dirty_page.DirtyPages.{DirtyPages};
ghost use Rattle.log_records.specs.declared.txn_phase.TxnPhase.{TxnPhase};
ghost use Rattle.log_records.specs.CkptBytes.{ckpt_bytes, code_of, entry_bytes, no_body};
ghost use Rattle.log_records.specs.CkptBytes.{pages_body, redo_body, txn_body};
ghost use Rattle.log_records.specs.Record.{AreDirtyPages};

use crate::dirty_page::{DirtyPage, DirtyPages};
use crate::fields::{BEGIN_CHKPT, CHKPT_PAGES, CHKPT_TXNS, END_CHKPT};
use crate::limits::RECORD_BYTES;
use crate::put::{put_u32, put_u64};
use crate::txn_phase::TxnPhase;
use page_core::field::{u32_at, u64_at};

/// The number of the active state.
pub const ACTIVE: u32 = 1;

/// The number of the rolling state.
pub const ROLLING: u32 = 2;

/// What stands where a record has no dirty page.
const NO_ENTRY: DirtyPage = DirtyPage {
    page: 0,
    rec_lsn: 0,
};

/// The bytes of a BeginChkpt.
pub fn begin_bytes(lsn: u64) -> [u8; RECORD_BYTES]
    ensures { result ≡ ckpt_bytes BEGIN_CHKPT 0 no_body lsn }
{
    let mut bytes = [0; RECORD_BYTES];
    put_u32(&mut bytes, 0, BEGIN_CHKPT);
    put_u64(&mut bytes, 56, lsn);
    bytes
}

/// The bytes of a ChkptPages.
pub fn pages_bytes(begin: u64, pages: &DirtyPages, lsn: u64) -> [u8; RECORD_BYTES]
    ensures { result ≡ ckpt_bytes CHKPT_PAGES begin (pages_body pages.now) lsn }
{
    match *pages {
        DirtyPages::One(a) => counted_bytes(begin, 1, a, NO_ENTRY, NO_ENTRY, lsn),
        DirtyPages::Two(a, b) => counted_bytes(begin, 2, a, b, NO_ENTRY, lsn),
        DirtyPages::Three(a, b, c) => counted_bytes(begin, 3, a, b, c, lsn),
    }
}

/// The bytes of a ChkptPages with this count.
fn counted_bytes(
    begin: u64,
    count: u32,
    a: DirtyPage,
    b: DirtyPage,
    c: DirtyPage,
    lsn: u64,
) -> [u8; RECORD_BYTES]
    ensures { result ≡ ckpt_bytes CHKPT_PAGES begin
        (to_le_bytes w32 count ++ entry_bytes a ++ entry_bytes b ++ entry_bytes c) lsn }
{
    let mut bytes = [0; RECORD_BYTES];
    put_u32(&mut bytes, 0, CHKPT_PAGES);
    put_u64(&mut bytes, 8, begin);
    put_u32(&mut bytes, 16, count);
    put_u32(&mut bytes, 20, a.page);
    put_u64(&mut bytes, 24, a.rec_lsn);
    put_u32(&mut bytes, 32, b.page);
    put_u64(&mut bytes, 36, b.rec_lsn);
    put_u32(&mut bytes, 44, c.page);
    put_u64(&mut bytes, 48, c.rec_lsn);
    put_u64(&mut bytes, 56, lsn);
    bytes
}

/// The bytes of a ChkptTxns.
pub fn txn_bytes(
    begin: u64,
    txn: u32,
    state: u32,
    last: u64,
    undo_next: u64,
    lsn: u64,
) -> [u8; RECORD_BYTES]
    ensures { result ≡ ckpt_bytes CHKPT_TXNS begin (txn_body txn state last undo_next) lsn }
{
    let mut bytes = [0; RECORD_BYTES];
    put_u32(&mut bytes, 0, CHKPT_TXNS);
    put_u64(&mut bytes, 8, begin);
    put_u32(&mut bytes, 20, txn);
    put_u32(&mut bytes, 24, state);
    put_u64(&mut bytes, 28, last);
    put_u64(&mut bytes, 36, undo_next);
    put_u64(&mut bytes, 56, lsn);
    bytes
}

/// The bytes of an EndChkpt.
pub fn end_bytes(begin: u64, redo: u64, lsn: u64) -> [u8; RECORD_BYTES]
    ensures { result ≡ ckpt_bytes END_CHKPT begin (redo_body redo) lsn }
{
    let mut bytes = [0; RECORD_BYTES];
    put_u32(&mut bytes, 0, END_CHKPT);
    put_u64(&mut bytes, 8, begin);
    put_u64(&mut bytes, 24, redo);
    put_u64(&mut bytes, 56, lsn);
    bytes
}

/// The number of a state.
pub fn code(state: TxnPhase) -> u32
    ensures { result ≡ code_of state }
{
    match state {
        TxnPhase::Active => ACTIVE,
        TxnPhase::Rolling => ROLLING,
    }
}

/// The state with this number. Numbers of no state are those of some state here.
pub fn phase_of(number: u32) -> TxnPhase
    ensures { (state : TxnPhase) → code_of state ≡ number → result ≡ state }
{
    if number == ROLLING {
        TxnPhase::Rolling
    } else {
        TxnPhase::Active
    }
}

/// The dirty pages whose count and numbers stand in these bytes of a record. Of other bytes it
/// makes some that have other bytes.
pub fn pages_in(bytes: &[u8; RECORD_BYTES]) -> DirtyPages
    ensures { (at begin lsn : ℕ) (pages : DirtyPages) → AreDirtyPages at pages
        → bytes.now ≡ ckpt_bytes CHKPT_PAGES begin (pages_body pages) lsn → result ≡ pages }
{
    let count = u32_at(bytes, 16);
    let first = entry_at(bytes, 20);
    let second = entry_at(bytes, 32);
    let third = entry_at(bytes, 44);
    if count == 1 {
        DirtyPages::One(first)
    } else if count == 2 {
        DirtyPages::Two(first, second)
    } else {
        DirtyPages::Three(first, second, third)
    }
}

/// The dirty page at an offset.
fn entry_at(bytes: &[u8; RECORD_BYTES], at: usize) -> DirtyPage
    requires { at + 12 ≤ RECORD_BYTES }
    ensures { (e : DirtyPage) → e.page < 2 ^ 32 → e.rec_lsn < 2 ^ 64
        → to_le_bytes w32 e.page ≡ slice_range bytes.now at (at + 4)
        → to_le_bytes w64 e.rec_lsn ≡ slice_range bytes.now (at + 4) (at + 4 + 8) → result ≡ e }
{
    DirtyPage {
        page: u32_at(bytes, at),
        rec_lsn: u64_at(bytes, at + 4),
    }
}
