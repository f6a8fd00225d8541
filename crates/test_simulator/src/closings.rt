//! Databases that were closed, and go on from their log as it stands: it is not stored again, and no
//! commit that was answered is lost, of this life or of the one before.

use crate::cut::Remains;
use crate::draw::Draw;
use crate::lives::{
    NUMBERS, Plan, TXNS, are_kept, life, line_count, numbers_in, plan_from, reads, told_in,
};
use crate::machine::{State, Step};
use open_database::OpenEnd;
use std::alloc::Global;
use std::io;
use std::io::ErrorKind;
use std::process::Abort;

const SEEDS: u64 = 2;

const CUTS: u64 = 5;

/// What is wrong with a life behind a closing.
#[derive(Clone, Copy)]
enum Wrong {
    /// Its log was stored again, or cut.
    Rewritten,
    /// A cut of the power at this step loses a commit.
    Lost(usize),
}

/// The number of the file of the log, if there is one.
fn log_of(state: &State) -> Option<usize> {
    let entry = state
        .entries
        .iter()
        .find(|entry| entry.name.as_str() == "log")?;
    Some(entry.file)
}

/// Whether these steps change what a log had that has this number and this length.
fn is_rewritten(steps: &[Step], log: usize, len: usize) -> bool {
    steps.iter().any(|step| match step {
        Step::Write { file, at, .. } => *file == log && *at < len,
        Step::SetLen { file, len: left } => *file == log && *left < len,
        _ => false,
    })
}

/// Whether a cut of the power at a step loses no commit.
fn is_kept_at(
    alloc: Global,
    plan: &Plan,
    lived: &Remains,
    at: usize,
    draw: &mut Draw,
) -> io::Result<bool> {
    let told = told_in(alloc, lived.now.steps.get(..at).unwrap_or(&[]))?;
    // The first line is no answer.
    let answered = line_count(&told).saturating_sub(1);
    let reads = reads(alloc)?;
    let (end, last) = life(alloc, lived.cut(at, draw)?, reads.as_str())?;
    let numbers = numbers_in(&told_in(alloc, &last.now.steps)?);
    Ok(end == OpenEnd::Well && are_kept(&plan.commits, answered, &numbers))
}

/// A database is closed, and lives once more. What is wrong then.
fn wrong_behind_closing(alloc: Global, seed: u64) -> io::Result<Option<Wrong>> {
    let mut draw = Draw::new(seed);
    let first = plan_from(alloc, &mut draw, 1, [0; NUMBERS])?;
    let (end, lived) = life(alloc, Remains::new(alloc), first.script.as_str())?;
    let closed = lived.cut(lived.now.steps.len(), &mut draw)?;
    let (Some(commit), Some(log)) = (first.commits.last(), log_of(&closed.now)) else {
        return Err(io::Error::from(ErrorKind::NotFound));
    };
    let len = closed.now.files.get(log).map_or(0, |bytes| bytes.len());
    let plan = plan_from(alloc, &mut draw, TXNS.saturating_add(1), commit.numbers)?;
    let (again, lived) = life(alloc, closed, plan.script.as_str())?;
    if len == 0 || end != OpenEnd::Well || again != OpenEnd::Well {
        return Err(io::Error::from(ErrorKind::Other));
    }
    if is_rewritten(&lived.now.steps, log, len) {
        return Ok(Some(Wrong::Rewritten));
    }
    for _ in 0..CUTS {
        let at = draw.below(lived.now.steps.len().saturating_add(1) as u64) as usize;
        if !is_kept_at(alloc, &plan, &lived, at, &mut draw)? {
            return Ok(Some(Wrong::Lost(at)));
        }
    }
    Ok(None)
}

#[test]
fn a_closed_database_goes_on_from_its_log(rt: HostRuntime) {
    for seed in 1..=SEEDS {
        match wrong_behind_closing(rt.alloc(), seed) {
            Ok(None) => {}
            Ok(Some(Wrong::Rewritten)) => panic!(rt; "seed {seed} stores the log again"),
            Ok(Some(Wrong::Lost(at))) => panic!(rt; "seed {seed} loses a commit at step {at}"),
            Err(error) => panic!(rt; "seed {seed}: {error}"),
        }
    }
}
