//! What is measured.

ghost use Rattle.std.specs.Prelude.{◌≤◌, IfSome};

use imgcopy_engine::{MAX_PAGES, MAX_SESSIONS, SLOTS};

/// How many workers a copy may have.
const MOST_WORKERS: u32 = 64;

/// For how many milliseconds the sessions are measured alone where the log is in memory.
const ALONE: u64 = 40;

/// Where the log of a case is.
#[derive(Clone, Copy, Drop)]
pub enum Place<'a> {
    InMemory,
    /// In the file of this name.
    OnFile(&'a str),
}

/// What each transaction of a session does, beside its begin and its commit.
#[derive(Clone, Copy, Drop)]
pub struct Shape {
    /// How many slots it changes.
    pub changes: u16,
    /// How often it reads one.
    pub reads: u16,
}

/// How many pages the volume has, how many workers the copy, and how many sessions make
/// transactions of which shape.
#[derive(Clone, Copy)]
pub struct Case {
    pub pages: u32,
    /// At 0 there is no copy, and the sessions alone are measured.
    pub workers: u32,
    pub sessions: u32,
    pub shape: Shape,
    /// For how many milliseconds sessions are measured alone.
    pub alone: u64,
}

/// What the words of the command line ask for: a case, and where its log is.
pub fn case_of<'a>(words: &'a [String]) -> Option<(Place<'a>, Case)>
    ensures some { IfSome result (λ it. 1 ≤ it.1.pages) }
    ensures pages { IfSome result (λ it. it.1.pages ≤ 65536) }
    ensures workers { IfSome result (λ it. it.1.workers ≤ 64) }
    ensures sessions { IfSome result (λ it. 1 ≤ it.1.sessions) }
{
    match words {
        [counts @ .., log, alone] if counts.len() == 5 => {
            let case = Case::of(counts, alone.as_str().parse().ok()?)?;
            Some((Place::OnFile(log.as_str()), case))
        }
        _ => Some((Place::InMemory, Case::of(words, ALONE)?)),
    }
}

impl Case {
    /// The case that these words tell.
    fn of(words: &[String], alone: u64) -> Option<Case>
        ensures some { IfSome result (λ case. 1 ≤ case.pages) }
        ensures pages { IfSome result (λ case. case.pages ≤ 65536) }
        ensures workers { IfSome result (λ case. case.workers ≤ 64) }
        ensures sessions { IfSome result (λ case. 1 ≤ case.sessions) }
    {
        let [pages, workers, sessions, changes, reads] = words else {
            return None;
        };
        let (pages, workers) = (pages.as_str().parse().ok()?, workers.as_str().parse().ok()?);
        if pages == 0 || pages > MAX_PAGES || workers > MOST_WORKERS {
            return None;
        }
        let sessions = sessions.as_str().parse().ok()?;
        let (changes, reads) = (changes.as_str().parse().ok()?, reads.as_str().parse().ok()?);
        if sessions == 0 || sessions > MAX_SESSIONS || changes as usize > SLOTS {
            return None;
        }
        let shape = Shape { changes, reads };
        Some(Case {
            pages,
            workers,
            sessions,
            shape,
            alone,
        })
    }
}
