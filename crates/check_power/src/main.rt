//! Plays lives of databases that end by cuts of the power, and compares what each one leaves with the
//! replies that were given.
#![tactic(auto)]

mod ask;
mod chance;
mod copies;
mod counts;
mod database;
mod drive;
mod expected;
mod folder_database;
mod hand;
mod heard;
mod left_log;
mod lost;
mod numbers;
mod open_txn;
mod opening;
mod platter;
mod restored;
mod spoil;
mod step;
mod trouble;
mod user;
mod wrong;

ghost use Rattle.buffer_pool.specs.Pool.{IsFrameCount};
ghost use Rattle.log_records.specs.Log.{IsPageCount};

use aries_core::Setup;
use chance::Chance;
use command_words::words_of;
use counts::Counts;
use database::Database;
use folder_database::FolderDatabase;
use std::alloc::Global;
use std::process::ExitCode;
use std::thread::Threads;
use test_simulator::Call;
use wrong::Wrong;

/// What is played: so many seeds, from the first one on. Where syncs of a kind are ignored, databases in
/// folders alone.
#[derive(Clone, Copy)]
struct Plan {
    seeds: u64,
    first: u64,
    ignored: Option<Call>,
}

fn plan_of(words: &[String]) -> Option<Plan> {
    let (seeds, first, ignored) = match words {
        [seeds] => (number_in(seeds.as_str())?, 1, None),
        [seeds, first] => (number_in(seeds.as_str())?, number_in(first.as_str())?, None),
        [seeds, first, sync] => (
            number_in(seeds.as_str())?,
            number_in(first.as_str())?,
            Some(sync_of(sync.as_str())?),
        ),
        _ => return None,
    };
    Some(Plan {
        seeds,
        first,
        ignored,
    })
}

fn number_in(word: &str) -> Option<u64> {
    word.parse().ok()
}

/// The syncs of this name.
fn sync_of(word: &str) -> Option<Call> {
    match word {
        "log" => Some(Call::SyncLog),
        "files" => Some(Call::Sync),
        "names" => Some(Call::SyncNames),
        _ => None,
    }
}

/// How large the volume is at first, and how many frames there are.
fn draw_setup(chance: &mut Chance) -> Setup
    ensures pages { IsPageCount result.pages }
    ensures frames { IsFrameCount result.frames }
{
    let pages = 1 + chance.below(6);
    let frames = 1 + chance.below(pages);
    Setup { pages, frames }
}

/// Plays the lives of the database of a seed.
fn play(
    rt: &(impl Threads + Sync),
    alloc: Global,
    seed: u64,
    counts: &mut Counts,
) -> Result<(), Wrong> {
    let mut chance = Chance::of(seed);
    let setup = draw_setup(&mut chance);
    let mut database = Database::new(alloc, setup.pages)?;
    for _ in 0..1 + chance.below(6) {
        database.live(rt, alloc, setup, &mut chance, counts)?;
    }
    let engine = database.open(rt, alloc, setup, &mut chance, counts)?;
    drop(engine);
    counts.committed(database.commits());
    Ok(())
}

/// Plays the lives of the folder of a seed.
fn play_folder(
    rt: &(impl Threads + Sync),
    alloc: Global,
    seed: u64,
    ignored: Option<Call>,
    counts: &mut Counts,
) -> Result<(), Wrong> {
    let mut chance = Chance::of(seed);
    let setup = draw_setup(&mut chance);
    let mut database = FolderDatabase::new(alloc, setup, ignored)?;
    for _ in 0..1 + chance.below(4) {
        match database.live(rt, &mut chance, counts)? {
            Some(next) => database = next,
            None => return Ok(()),
        }
    }
    counts.committed(database.commits());
    Ok(())
}

fn main(rt: HostRuntime) -> ExitCode {
    let alloc = rt.alloc();
    let Ok(words) = words_of(&rt) else {
        return ExitCode::from(2);
    };
    let Some(plan) = plan_of(words.as_slice()) else {
        let _ = rt.eprintln("usage: check_power SEEDS [FIRST [log|files|names]]");
        return ExitCode::from(2);
    };
    let mut counts = Counts::default();
    for seed in plan.first..plan.first.saturating_add(plan.seeds) {
        if plan.ignored.is_none()
            && let Err(wrong) = play(&rt, alloc, seed, &mut counts)
        {
            let _ = println!(rt; "seed {seed}: {wrong}");
            return ExitCode::from(1);
        }
        if let Err(wrong) = play_folder(&rt, alloc, seed, plan.ignored, &mut counts) {
            let _ = println!(rt; "seed {seed}: in a folder {wrong}");
            return ExitCode::from(1);
        }
    }
    let Counts {
        cuts,
        lives,
        closed,
        commits,
        copies,
        strange,
        folders,
        refused,
    } = counts;
    let _ = println!(rt;
        "cuts {cuts} lives {lives} closed {closed} commits {commits} copies {copies} strange {strange} folders {folders} refused {refused}"
    );
    ExitCode::SUCCESS
}
