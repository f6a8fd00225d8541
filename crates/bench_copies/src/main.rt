//! Measures a full copy of a shared engine beside sessions, or the sessions alone.
#![tactic(auto)]

ghost use Rattle.std.specs.Prelude.{◌≤◌};

mod case;
mod measure;
mod user;

use case::{Case, Place, case_of};
use command_words::words_of;
use imgcopy_engine::{FileLog, MemDevice, Wary};
use measure::{Measured, measure};
use std::alloc::Global;
use std::fs::File;
use std::io;
use std::marker::Brand;
use std::process::ExitCode;
use std::rt::Clock;
use std::sync::Wait;
use std::sync::ledger::Blank;
use std::thread::Threads;

/// For how many records a device in memory has room: for all that a log may have.
const RECORDS: usize = 1_048_576;

/// The log's file, made anew.
fn log_file(rt: &HostRuntime, name: &str) -> io::Result<File> {
    File::options()
        .read(true)
        .write(true)
        .create(true)
        .truncate(true)
        .open(rt, name)
}

/// The case with its log in memory.
fn in_memory<R>(rt: &R, alloc: Global, case: &Case) -> Option<Measured>
where
    R: Threads + Wait + Clock + Sync,
    requires some { 1 ≤ case.now.pages }
    requires few { case.now.pages ≤ 65536 }
    requires workers { case.now.workers ≤ 64 }
{
    let device = MemDevice::new(alloc, RECORDS).ok()?;
    measure::<MemDevice, Brand, R>(rt, alloc, Blank::new(65), device, case)
}

/// The case with its log in a file.
fn on_file<R>(rt: &R, files: &HostRuntime, name: &str, case: &Case) -> Option<Measured>
where
    R: Threads + Wait + Clock + Sync,
    requires some { 1 ≤ case.now.pages }
    requires few { case.now.pages ≤ 65536 }
    requires workers { case.now.workers ≤ 64 }
{
    let device = FileLog::new(files.alloc(), log_file(files, name).ok()?, Wary).ok()?;
    measure::<FileLog, Brand, R>(rt, files.alloc(), Blank::new(65), device, case)
}

fn main(rt: HostRuntime) -> ExitCode {
    let Ok(words) = words_of(&rt) else {
        return ExitCode::from(2);
    };
    let Some((place, case)) = case_of(words.as_slice()) else {
        let _ = rt.eprintln(
            "usage: bench_copies PAGES WORKERS SESSIONS CHANGES READS [LOG MILLISECONDS]",
        );
        return ExitCode::from(2);
    };
    let measured = match place {
        Place::InMemory => in_memory(&rt, rt.alloc(), &case),
        Place::OnFile(name) => on_file(&rt, &rt, name, &case),
    };
    match measured {
        Some(measured) => {
            let (nanoseconds, calls) = (measured.nanoseconds, measured.calls);
            let _ = eprintln!(rt; "{nanoseconds} {calls}");
            ExitCode::SUCCESS
        }
        None => {
            let _ = rt.eprintln("bench_copies: a call was refused");
            ExitCode::FAILURE
        }
    }
}
