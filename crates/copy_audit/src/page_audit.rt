//! The audit of one page.

ghost use Rattle.std.specs.Prelude.{ℕ, ◌≡◌, ◌*◌, ◌+◌, ◌^◌, ◌≤◌, ◌<◌, ◌↔◌, IsTrue};
ghost use Rattle.std.specs.Prelude.{length, slice_index};
ghost use Rattle.page_core.specs.declared.numbers.TheConstants.{LSN_STEP};
ghost use Rattle.log_records.specs.Coverage.{Covers};
ghost use Rattle.log_records.specs.Log.{IsLog};
ghost use Rattle.page_redo.specs.PageRecords.{numbers_on};
ghost use Rattle.copy_audit.specs.Trace.{IsTraced};

use crate::reach::Reach;
use crate::trace::Trace;
use log_records::Record;
use page_core::{LSN_STEP, Lsn, Page};

/// Whether a page is as the log made it at some moment, and lacks no change below an LSN. Beside
/// the records it is given the numbers of those that change the page, counted from 0, in their
/// order.
pub fn is_sound(records: &[Record], numbers: &[u32], page: &Page, bound: Lsn) -> bool
    requires log { (pages : ℕ) × IsLog (record { pages = pages; records = records.now }) }
    requires numbers { numbers.now ≡ numbers_on records.now 0 page.now.number }
    ensures { IsTrue result ↔ Covers records.now page.now.number page.now bound }
{
    let named = (page.lsn.0 / LSN_STEP) as usize;
    let mut trace = Trace::new(page.number);
    redo_listed(&mut trace, records, numbers, named.min(records.len()));
    let is_past = trace.page == *page;
    let last = next_listed(numbers, trace.done);
    Reach { is_past, last }.covers(bound)
}

/// Redoes the changes of a page whose records are among so many, the log's first ones. These
/// numbers name the records that change the page.
fn redo_listed(trace: &mut Trace, records: &[Record], numbers: &[u32], count: usize)
    requires onwards { trace.old.reached ≤ count }
    ensures traced { (number : ℕ) → numbers.now ≡ numbers_on records.now 0 number
        → IsTraced records.now number trace.old → IsTraced records.now number trace.new }
    ensures reached { trace.new.reached ≡ count }
{
    while trace.done < numbers.len() && (numbers[trace.done] as usize) < count {
        if let Some(next) = records.get(numbers[trace.done] as usize) {
            next.redo_on(&mut trace.page);
        }
        trace.done += 1;
    }
    trace.reached = count;
}

/// The LSN of the next change behind so many, or the greatest number where there is none.
fn next_listed(numbers: &[u32], done: usize) -> Lsn
    ensures next { done < length numbers.now
        → result ≡ LSN_STEP * (slice_index numbers.now done + 1) }
    ensures none { length numbers.now ≤ done → result + 1 ≡ 2 ^ 64 }
{
    if done < numbers.len() {
        Lsn(LSN_STEP * (numbers[done] as u64 + 1))
    } else {
        Lsn(u64::MAX)
    }
}
