//! The checkpoints of a log that is there already.

ghost use Rattle.std.specs.Prelude.{◌≡◌};
ghost use Rattle.std.specs.Option.{option_map};
ghost use Rattle.log_records.specs.Log.{IsLog, Log, counts_of};
ghost use Rattle.log_rules.specs.Checkpoint.{completed_in, open_checkpoint};
ghost use Rattle.log_rules.specs.Transactions.{last_of};
ghost use Rattle.log_store.specs.Analysis.{IsAnalysisOf, begun_of};
ghost use Rattle.fuzzy_ckpt.specs.Ckpt.{gathered_ckpt};
ghost use Rattle.fuzzy_ckpt.specs.LogCheckpoints.{IsLastPoint, gathered_of};

use crate::ckpt::Ckpt;
use crate::phase::Gathered;
use crate::point::Point;
use log_store::{Analysis, CkptPoint, OpenCkpt};
use page_core::PageCounts;

/// What a log says of its checkpoints at its end, for an engine that goes on from there.
#[derive(Drop)]
pub struct LogCheckpoints {
    /// The last complete one.
    pub last: Option<Point>,
    /// The open one, as one whose gather has ended. It may be ended where each stored page has all
    /// of its changes, and no transaction is open: then there is nothing left to gather.
    pub open: Option<Ckpt<Gathered>>,
}

impl LogCheckpoints {
    /// Those of a log that was read, as its analysis has them. No record is looked at again.
    pub fn of(found: &Analysis) -> LogCheckpoints
        ensures last { (log : Log) → IsAnalysisOf log found.now → IsLog log
            → IsLastPoint log log.records result.last }
        ensures open { (log : Log) → IsAnalysisOf log found.now → IsLog log
            → option_map gathered_ckpt result.«open»
            ≡ option_map (gathered_of log) (open_checkpoint log.records) }
    {
        LogCheckpoints {
            last: point_of(found.complete.last().copied(), &found.counts),
            open: begun_of(found.begun, &found.counts),
        }
    }
}

/// The last complete checkpoint, with the page count at its begin.
fn point_of(last: Option<CkptPoint>, counts: &PageCounts) -> Option<Point>
    ensures { (log : Log) → last ≡ last_of (completed_in log.records)
        → counts.now ≡ counts_of log → IsLog log → IsLastPoint log log.records result }
{
    match last {
        Some(point) => Some(Point {
            begin: point.begin,
            end: point.end,
            redo: point.redo,
            pages: counts.below(point.begin),
        }),
        None => None,
    }
}

/// An open checkpoint, as one whose gather has ended.
fn begun_of(begun: Option<OpenCkpt>, counts: &PageCounts) -> Option<Ckpt<Gathered>>
    ensures { (log : Log) → begun ≡ option_map begun_of (open_checkpoint log.records)
        → counts.now ≡ counts_of log → IsLog log → option_map gathered_ckpt result
        ≡ option_map (gathered_of log) (open_checkpoint log.records) }
{
    match begun {
        Some(it) => Some(Ckpt::found(it.begin, counts.below(it.begin), it.redo)),
        None => None,
    }
}
