//! Databases that live on a machine whose power is cut: no commit that was answered is lost.

use crate::cut::Remains;
use crate::draw::Draw;
use crate::folder::{SimulatedFolder, SimulatedOutput, SimulatedReader};
use crate::machine::{Machine, Step, copied};
use open_database::{OpenCall, OpenEnd, open_in};
use std::alloc::Global;
use std::io;
use std::io::ErrorKind;
use std::process::Abort;

const SEEDS: u64 = 2;

const CUTS: u64 = 5;

const PAGES: u32 = 4;

const SLOTS: u64 = 4;

/// How many transactions a life has.
pub(crate) const TXNS: u64 = 8;

/// How many numbers are looked at.
pub(crate) const NUMBERS: usize = 16;

/// What the numbers are behind a commit, which is that of this line.
#[derive(Clone, Copy)]
pub(crate) struct Committed {
    line: usize,
    pub numbers: [u64; NUMBERS],
}

/// The lines of a life, and what its commits leave.
#[derive(Drop)]
pub(crate) struct Plan {
    pub script: String,
    pub commits: Vec<Committed>,
}

/// Transactions one after another, from this one on, and now and then a checkpoint or a copy. These
/// are the numbers before them.
pub(crate) fn plan_from(
    alloc: Global,
    draw: &mut Draw,
    first: u64,
    before: [u64; NUMBERS],
) -> io::Result<Plan> {
    let mut script = String::new(alloc);
    let mut commits = Vec::new(alloc);
    let mut numbers = before;
    commits.push(Committed { line: 0, numbers })?;
    let mut line = 0usize;
    for count in 0..TXNS {
        let txn = first.saturating_add(count);
        script.push_str("begin\n")?;
        for _ in 0..=draw.below(3) {
            let (page, slot, value) = (draw.below(PAGES as u64), draw.below(SLOTS), draw.next());
            script.push_str(format!(in alloc; "set {txn} {page} {slot} {value}\n")?.as_str())?;
            let place = page.saturating_mul(SLOTS).saturating_add(slot) as usize;
            if let Some(number) = numbers.get_mut(place) {
                *number = value;
            }
            line = line.saturating_add(1);
        }
        script.push_str(format!(in alloc; "commit {txn}\n")?.as_str())?;
        line = line.saturating_add(1);
        commits.push(Committed { line, numbers })?;
        line = line.saturating_add(1);
        match draw.below(4) {
            0 => {
                script.push_str("checkpoint\n")?;
                line = line.saturating_add(1);
            }
            1 => {
                script.push_str("copy\n")?;
                line = line.saturating_add(1);
            }
            _ => {}
        }
    }
    Ok(Plan { script, commits })
}

/// Lines that read each number.
pub(crate) fn reads(alloc: Global) -> io::Result<String> {
    let mut script = String::new(alloc);
    for page in 0..PAGES {
        for slot in 0..SLOTS {
            script.push_str(format!(in alloc; "read {page} {slot}\n")?.as_str())?;
        }
    }
    Ok(script)
}

/// A life of the database on a machine.
pub(crate) fn life(
    alloc: Global,
    remains: Remains,
    script: &str,
) -> io::Result<(OpenEnd, Remains)> {
    let Remains { first, now } = remains;
    let machine = Machine::new(now);
    let call = OpenCall {
        folder: "",
        pages: Some(PAGES),
        frames: PAGES,
        salvage: false,
        strict: false,
    };
    let folder = SimulatedFolder {
        alloc,
        machine: &machine,
    };
    let mut input = SimulatedReader::new(copied(alloc, script.as_bytes())?);
    let mut output = SimulatedOutput { machine: &machine };
    let end = open_in(alloc, folder, &call, &mut input, &mut output);
    let now = machine.into_state();
    Ok((end, Remains { first, now }))
}

/// All that was told in these steps.
pub(crate) fn told_in(alloc: Global, steps: &[Step]) -> io::Result<Vec<u8>> {
    let mut told = Vec::new(alloc);
    for step in steps {
        if let Step::Told { bytes } = step {
            told.extend_from_slice(bytes)?;
        }
    }
    Ok(told)
}

pub(crate) fn line_count(told: &[u8]) -> usize {
    told.iter().filter(|byte| **byte == b'\n').count()
}

/// The numbers that were answered to `reads`.
pub(crate) fn numbers_in(told: &[u8]) -> [u64; NUMBERS] {
    let mut numbers = [0; NUMBERS];
    let mut place = 0usize;
    for line in std::str::from_utf8(told).unwrap_or("").lines() {
        if let Some(digits) = line.strip_prefix("value ") {
            if let Some(number) = numbers.get_mut(place) {
                *number = digits.parse().unwrap_or(0);
            }
            place = place.saturating_add(1);
        }
    }
    numbers
}

/// Whether these numbers are those behind the last commit that was answered, or behind the next one.
pub(crate) fn are_kept(commits: &[Committed], answered: usize, numbers: &[u64; NUMBERS]) -> bool {
    let mut last = 0usize;
    for (place, commit) in commits.iter().enumerate() {
        if commit.line < answered {
            last = place;
        }
    }
    let behind = commits.get(last..).unwrap_or(&[]);
    behind
        .iter()
        .take(2)
        .any(|commit| commit.numbers == *numbers)
}

/// Cuts the power once in a life, and once in the opening behind it, and looks at what is left.
fn is_kept_at(alloc: Global, plan: &Plan, lived: &Remains, draw: &mut Draw) -> io::Result<bool> {
    let reads = reads(alloc)?;
    let at = draw.below(lived.now.steps.len() as u64) as usize;
    let told = told_in(alloc, lived.now.steps.get(..at).unwrap_or(&[]))?;
    if told.is_empty() {
        // Until it is opened, the header of a new log may be torn.
        return Ok(true);
    }
    // The first line is no answer.
    let answered = line_count(&told).saturating_sub(1);
    let (_, again) = life(alloc, lived.cut(at, draw)?, reads.as_str())?;
    let at = draw.below(again.now.steps.len() as u64) as usize;
    let (end, last) = life(alloc, again.cut(at, draw)?, reads.as_str())?;
    let numbers = numbers_in(&told_in(alloc, &last.now.steps)?);
    Ok(end == OpenEnd::Well && are_kept(&plan.commits, answered, &numbers))
}

/// The first cut of a seed that loses a commit.
fn lost_at(alloc: Global, seed: u64) -> io::Result<Option<u64>> {
    let mut draw = Draw::new(seed);
    let plan = plan_from(alloc, &mut draw, 1, [0; NUMBERS])?;
    let (end, lived) = life(alloc, Remains::new(alloc), plan.script.as_str())?;
    if end != OpenEnd::Well {
        return Err(io::Error::from(ErrorKind::Other));
    }
    for cut in 0..CUTS {
        if !is_kept_at(alloc, &plan, &lived, &mut draw)? {
            return Ok(Some(cut));
        }
    }
    Ok(None)
}

#[test]
fn no_commit_is_lost(rt: HostRuntime) {
    for seed in 1..=SEEDS {
        match lost_at(rt.alloc(), seed) {
            Ok(None) => {}
            Ok(Some(cut)) => panic!(rt; "seed {seed} loses a commit at cut {cut}"),
            Err(error) => panic!(rt; "seed {seed}: {error}"),
        }
    }
}
