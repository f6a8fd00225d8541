//! Sessions of a shared engine move money between accounts, beside a flusher, a checkpointer and
//! image copies. In memory a crash then takes a part of the log, and the accounts are restored from
//! the copies; on files each thing that lasts is told once it does.
#![tactic(auto)]

mod accounts;
mod acknowledged;
mod books;
mod case;
mod clerk;
mod day;
mod day_files;
mod draws;
mod fault;
mod file_day;
mod hall;
mod halt;
mod in_memory;
mod line;
mod on_files;
mod put;
mod watch;

use books::lines_of;
use case::{Call, Command};
use command_words::words_of;
use day::day;
use fault::Fault;
use file_day::{Plan, file_day};
use halt::{FileTrouble, Halt, Place};
use imgcopy_engine::{Notes, Retired, SaveFault, SystemFolder, save_files};
use std::fs::File;
use std::marker::Brand;
use std::process::ExitCode;
use std::sync::Wait;
use std::sync::ledger::Blank;
use std::thread::Threads;
use std::{fs, io};

const USAGE: &str = "usage: demo_bank [--behind] [--save FOLDER] \
    SEED TELLERS FULL_WORKERS INCREMENTAL_WORKERS\n       \
    demo_bank --files FOLDER SEED TELLERS FULL_WORKERS INCREMENTAL_WORKERS TRANSFERS";

/// Plays a case, saves its files, if they are to be saved, and tells in lines what was restored.
fn play<R: Threads + Wait + Sync>(
    rt: &R,
    files: &HostRuntime,
    call: &Call<'_>,
    notes: &Notes,
) -> Result<String, Fault> {
    let (alloc, case) = (files.alloc(), &call.case);
    let settled = day::<Brand, R>(rt, alloc, Blank::new(65), case)?;
    match save(files, call, notes, &settled.retired) {
        Ok(()) => lines_of(rt, alloc, case, settled, call.tells_behind),
        Err(fault) => Err(Fault::Save(fault)),
    }
}

/// Saves the files of a case, if they are to be saved.
fn save(
    files: &HostRuntime,
    call: &Call<'_>,
    notes: &Notes,
    retired: &Retired,
) -> Result<(), SaveFault> {
    let Some(folder) = call.save else {
        return Ok(());
    };
    let alloc = files.alloc();
    let mut made = SystemFolder::new(files, alloc, folder, notes);
    save_files(&mut made, alloc, retired)
}

/// Plays a day in memory, and prints its lines.
fn play_in_memory<R: Threads + Wait + Sync>(
    rt: &R,
    files: &HostRuntime,
    call: &Call<'_>,
) -> ExitCode {
    let notes = Notes::new();
    match play(rt, files, call, &notes) {
        Ok(text) => match files.print(&text) {
            Ok(()) => ExitCode::SUCCESS,
            Err(error) => {
                let _ = eprintln!(files; "demo_bank: standard output: {error}");
                ExitCode::FAILURE
            }
        },
        Err(fault) => {
            let _ = files.eprintln(&fault);
            if let (Fault::Save(_), Some(folder), Some(error)) = (
                &fault,
                call.save,
                notes.error(),
            ) {
                let _ = eprintln!(files; "demo_bank: {folder}: {error}");
            }
            ExitCode::FAILURE
        }
    }
}

/// Files that stand for the standard streams, where these are closed: else a file of the day would
/// get the number of one, and what is printed would go into it.
fn held(files: &HostRuntime) -> [io::Result<File>; 3] {
    [
        fs::open(files, "/dev/null"),
        fs::open(files, "/dev/null"),
        fs::open(files, "/dev/null"),
    ]
}

/// Plays a day on files.
fn play_in<R: Threads + Wait + Sync>(rt: &R, plan: &Plan<'_>) -> Result<Retired, Fault> {
    let retired = file_day::<Brand, R>(rt, Blank::new(65), plan)?;
    Ok(retired)
}

/// Plays a day on files, and prints its lines.
fn play_on_files<R: Threads + Wait + Sync>(rt: &R, plan: &Plan<'_>) -> ExitCode {
    let _held = held(plan.files);
    match play_in(rt, plan) {
        Ok(_) => ExitCode::SUCCESS,
        Err(fault) => {
            tell_fault(plan.files, plan.folder, &fault);
            ExitCode::FAILURE
        }
    }
}

/// Tells why a day on files has ended early, in one line.
fn tell_fault(files: &HostRuntime, folder: &str, fault: &Fault) {
    let _ = match fault {
        Fault::File(trouble) | Fault::Halt(Halt::Unkept(trouble)) => {
            tell_trouble(files, folder, trouble)
        }
        _ => eprintln!(files; "demo_bank: {fault}"),
    };
}

fn tell_trouble(files: &HostRuntime, folder: &str, trouble: &FileTrouble) -> io::Result<()> {
    let place = trouble.place;
    match place {
        Place::Output => eprintln!(files; "demo_bank: standard output: {trouble}"),
        _ => eprintln!(files; "demo_bank: {folder}{place}: {trouble}"),
    }
}

fn main(rt: HostRuntime) -> ExitCode {
    let words = match words_of(&rt) {
        Ok(words) => words,
        Err(fault) => {
            let _ = rt.eprintln(&fault);
            return ExitCode::from(2);
        }
    };
    match Command::of(words.as_slice()) {
        Some(Command::Memory(call)) => play_in_memory(&rt, &rt, &call),
        Some(
            Command::Files {
                folder,
                case,
                transfers,
            },
        ) => {
            let plan = Plan {
                files: &rt,
                folder,
                case: &case,
                transfers,
            };
            play_on_files(&rt, &plan)
        }
        None => {
            let _ = rt.eprintln(USAGE);
            ExitCode::from(2)
        }
    }
}
