//! How far a page of a copy reaches in the log.

ghost use Rattle.std.specs.Prelude.{ℕ, ◌↔◌, IsTrue, List};
ghost use Rattle.page_core.specs.declared.page.Page.{Page};
ghost use Rattle.log_records.specs.declared.record.Record.{Record};
ghost use Rattle.log_records.specs.Coverage.{Covers};
ghost use Rattle.copy_audit.specs.Trace.{IsReach};

use page_core::Lsn;

/// How far a page of a copy reaches in the log.
#[derive(Clone, Copy)]
pub(crate) struct Reach {
    /// The page is as the log made it at some moment.
    pub(crate) is_past: bool,
    /// If so, it lacks no change below an LSN that is at most this one, and one below each other.
    pub(crate) last: Lsn,
}

impl Reach {
    /// Whether the page is as the log made it, and lacks no change below an LSN.
    pub(crate) fn covers(&self, bound: Lsn) -> bool
        ensures { (rs : List Record) (number : ℕ) (page : Page) → IsReach rs number page self.now
            → IsTrue result ↔ Covers rs number page bound }
    {
        self.is_past && bound.0 <= self.last.0
    }
}
