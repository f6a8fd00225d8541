//! Where the records of undo go, and the loop that makes them.

ghost use Rattle.std.specs.Prelude.{◌≡◌, ◌++◌, [], ◌∷◌, List, vec_capacity};
ghost use Rattle.log_records.specs.declared.record.Record.{Record};
ghost use Rattle.log_records.specs.Log.{Log};
ghost use Rattle.loser_undo.specs.Recovery.{appended};
ghost use Rattle.loser_undo.specs.UndoSink.{HasAppended, HasComeTo, HasRedone, MayBeUndone};

use crate::undo_records::UndoRecords;
use log_records::{Record, redo_on_its_page};
use page_core::Page;
use txn_table::Losers;

/// Takes the records that undo appends to a log, one after another.
pub trait UndoSink {
    /// What a sink has become by these records of undo of a log.
    ghost took: { Self → Log → List Record → Self → Type 0 };

    /// Takes the next record.
    fn take(&mut self, next: &Record)
        requires { (start : Self) × ((log : Log) × ((behind : List Record)
            × (took start log behind self.old × HasComeTo log (behind ++ next.now ∷ [])))) }
        ensures { (start : Self) (log : Log) (behind : List Record)
            → took start log behind self.old → HasComeTo log (behind ++ next.now ∷ [])
            → took start log (behind ++ next.now ∷ []) self.new };
}

/// The pages of the log's volume: what the records change is changed on them.
impl UndoSink for Vec<Page> {
    ghost took = { λ start log behind it. HasRedone log start.items behind it.items };

    fn take(&mut self, next: &Record) {
        redo_on_its_page(self, next);
    }
}

/// The log's records, with room for those that undo may append: these come behind them.
impl UndoSink for Vec<Record> {
    ghost took = { λ start log behind it. HasAppended log behind it.items (vec_capacity it) };

    fn take(&mut self, next: &Record) {
        self.push_reserved(*next);
    }
}

/// Both take each record.
impl<A: UndoSink, B: UndoSink> UndoSink for (A, B) {
    ghost took = { λ start log behind it.
        A.took start.0 log behind it.0 × B.took start.1 log behind it.1 };

    fn take(&mut self, next: &Record) {
        self.0.take(next);
        self.1.take(next);
    }
}

/// Undoes all transactions that are open at the end of a log (ARIES, section 6.3): has a sink take
/// the records that undo appends to the log, one after another. `losers` has the transactions, and
/// `count` says how many records the log has. Beside what the sink does, this takes no memory.
pub fn undo_into<S: UndoSink>(losers: Losers, count: usize, sink: &mut S)
    requires { (log : Log) × (MayBeUndone log losers count × S.took sink.old log [] sink.old) }
    ensures { (log : Log) → MayBeUndone log losers count → S.took sink.old log [] sink.old
        → S.took sink.old log (appended log) sink.new }
{
    let mut undo = UndoRecords::new(losers, count);
    while let Some(next) = undo.next_record() {
        sink.take(&next);
    }
}
