//! What no clause says: that scripts can be read, and which bytes and texts the definitions mean.

mod rows;

use crate::asserts::{assert_texts, same_at};
use event_script::{LineFault, ScriptFault, read_script};
use std::io;
use std::io::{ErrorKind, Read};
use std::process::Abort;

/// Asserts what scripts say: their events, and their restore, as they are printed for debugging.
fn assert_said(rt: &(impl Abort + AllocGlobal), table: &[(&str, &str)]) {
    let alloc = rt.alloc();
    for (text, said) in table {
        let script = read_script(alloc, &mut text.as_bytes()).expect(rt, "a script");
        let (events, restore) = (&script.events, script.restore);
        let printed = format!(in alloc; "{events:?} {restore:?}").expect(rt, "memory for a text");
        same_at(rt, &printed.as_str(), said, text);
    }
}

#[test]
fn each_call_has_a_line(rt: HostRuntime) {
    assert_said(&rt, &rows::CALLS);
}

#[test]
fn a_restore_is_last(rt: HostRuntime) {
    assert_said(&rt, &rows::RESTORES);
}

/// The fault of a script that a reader gives.
fn fault_of<R: Read>(rt: &impl AllocGlobal, reader: &mut R) -> Option<ScriptFault> {
    read_script(rt.alloc(), reader).err()
}

/// Asserts what the numbers of the first bad lines are, and why they are bad.
fn assert_bad(rt: &(impl Abort + AllocGlobal), table: &[(&str, u64, LineFault)]) {
    for (text, number, why) in table {
        let fault = fault_of(rt, &mut text.as_bytes());
        same_at(rt, &fault, &Some(ScriptFault::BadLine(*number, *why)), text);
    }
}

#[test]
fn other_lines_are_bad(rt: HostRuntime) {
    assert_bad(&rt, &rows::BAD_LINES);
}

/// The first bad line counts, and skipped lines count as lines.
#[test]
fn the_first_bad_line_is_named(rt: HostRuntime) {
    assert_bad(&rt, &rows::BAD_SCRIPTS);
    let fault = fault_of(&rt, &mut b"no\n# \xc3".as_slice());
    same_at(&rt, &fault, &Some(ScriptFault::Input), &"no text");
}

/// Gives line feeds, so many, and then ends, or fails.
#[derive(Drop)]
struct Feeds {
    left: usize,
    fails: bool,
}

impl Read for Feeds {
    fn read(&mut self, buf: &mut [u8]) -> io::Result<usize> {
        let count = self.left.min(buf.len());
        if count == 0 && self.fails {
            return Err(ErrorKind::Other.into());
        }
        buf[..count].fill(b'\n');
        self.left -= count;
        Ok(count)
    }
}

/// So many line feeds, whether the reader then fails, and what comes of it.
static FEEDS: [(usize, bool, Option<ScriptFault>); 3] = [
    (16_777_216, false, None),
    (16_777_217, false, Some(ScriptFault::Input)),
    (3, true, Some(ScriptFault::ReadFault)),
];

#[test]
fn an_input_may_be_refused(rt: HostRuntime) {
    for (left, fails, fault) in &FEEDS {
        let mut reader = Feeds {
            left: *left,
            fails: *fails,
        };
        same_at(&rt, &fault_of(&rt, &mut reader), fault, left);
    }
}

#[test]
fn a_reply_has_a_line(rt: HostRuntime) {
    assert_texts(&rt, &rows::REPLIES);
}

#[test]
fn a_fault_has_a_line(rt: HostRuntime) {
    assert_texts(&rt, &rows::FAULTS);
    assert_texts(&rt, &rows::REASONS);
}
