//! Plays a script on a store and a log device of which one call fails, or on a store of which a
//! page is damaged, and then restores each copy with each part of the log that a crash may leave.
#![tactic(auto)]

mod case;
mod lines;

use case::Case;
use command_words::words_of;
use event_script::read_script;
use lines::lines_of;
use std::process::ExitCode;

fn main(rt: HostRuntime) -> ExitCode {
    let alloc = rt.alloc();
    let Ok(words) = words_of(&rt) else {
        return ExitCode::from(2);
    };
    let Some(case) = Case::of(words.as_slice()) else {
        let _ = rt.eprintln(
            "usage: check_faults PAGES FRAMES STORE_CALL DEVICE_CALL DAMAGE < SCRIPT",
        );
        return ExitCode::from(2);
    };
    let script = match read_script(alloc, &mut rt.stdin()) {
        Ok(script) => script,
        Err(fault) => {
            let _ = rt.eprintln(&fault);
            return ExitCode::from(2);
        }
    };
    match lines_of(&rt, alloc, &case, &script.events) {
        Ok(text) => {
            let _ = rt.print(&text);
            ExitCode::SUCCESS
        }
        Err(_) => ExitCode::from(2),
    }
}
