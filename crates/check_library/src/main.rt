//! Makes calls that imgcopy does not make: those that the first word of the command line names, if
//! there is one. Then it reads a log from standard input by `read_log`, if that was no script, and
//! reports the results.
#![tactic(auto)]

mod calls;
mod lines;
mod recovery;
mod repairs;
mod shared_run;
mod workers;

ghost use Rattle.std.specs.Prelude.{IfSome};
ghost use Rattle.buffer_pool.specs.Pool.{IsFrameCount};
ghost use Rattle.log_records.specs.Log.{IsPageCount};

use aries_core::Setup;
use calls::{Told, told_of_calls};
use log_store::read_log;
use page_core::MAX_PAGES;
use recovery::put_recovery;
use repairs::told_of_repairs;
use shared_run::told_of_run;
use std::process::ExitCode;
use std::rt::Env;
use workers::told_of_workers;

/// Prints a text, if there is one.
fn print(rt: &HostRuntime, text: Option<String>) -> ExitCode {
    match text {
        Some(text) => {
            let _ = rt.print(&text);
            ExitCode::SUCCESS
        }
        None => ExitCode::from(2),
    }
}

/// The number that this word of the command line says, from 1 to as many as a volume may have
/// pages.
fn count_at(rt: &HostRuntime, place: usize) -> Option<u32>
    ensures pages { IfSome result IsPageCount }
    ensures frames { IfSome result IsFrameCount }
{
    let mut word = [0; 8];
    let length = rt.arg(place, &mut word).ok()?;
    let count = str::from_utf8(&word[..length]).ok()?.parse().ok()?;
    if count >= 1 && count <= MAX_PAGES {
        Some(count)
    } else {
        None
    }
}

/// As many pages and frames as the second word and the third one say.
fn setup_of(rt: &HostRuntime) -> Option<Setup>
    ensures pages { IfSome result (λ setup. IsPageCount setup.pages) }
    ensures frames { IfSome result (λ setup. IsFrameCount setup.frames) }
{
    Some(Setup {
        pages: count_at(rt, 2)?,
        frames: count_at(rt, 3)?,
    })
}

/// Prints the lines of a script, and reports whether a call was made again.
fn print_told(rt: &HostRuntime, told: Option<Told>) -> ExitCode {
    let Some(Told { text, again }) = told else {
        return ExitCode::from(2);
    };
    let _ = rt.eprintln(if again {
        "a call was made again"
    } else {
        "each call was made once"
    });
    print(rt, Some(text))
}

fn main(rt: HostRuntime) -> ExitCode {
    let mut word = [0; 8];
    if let Ok(length) = rt.arg(1, &mut word) {
        let told = match &word[..length] {
            b"play" => {
                let told = match setup_of(&rt) {
                    Some(setup) => told_of_calls(&rt, rt.alloc(), setup, &mut rt.stdin()),
                    None => None,
                };
                return print_told(&rt, told);
            }
            b"recover" => return print(&rt, put_recovery(&rt, rt.alloc(), &mut rt.stdin())),
            b"repair" => told_of_repairs(&rt, rt.alloc()),
            b"share" => told_of_run(&rt, rt.alloc()),
            _ => told_of_workers(&rt, rt.alloc()),
        };
        let _ = rt.eprintln(told);
    }
    match read_log(rt.alloc(), &mut rt.stdin()) {
        Ok(log) => {
            let _ = rt.eprintln(&log.records().len());
            ExitCode::SUCCESS
        }
        Err(fault) => {
            let _ = rt.eprintln(&fault);
            ExitCode::from(2)
        }
    }
}
