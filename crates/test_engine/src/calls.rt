//! Series of calls with their replies, as tests write them: as text, since text is cheap to prove.
//! Each line has an event as a script writes it, an arrow, and the line of its reply.

ghost use Rattle.log_records.specs.Log.{IsPageCount};

use crate::asserts::same;
use aries_core::{Engine, Event, Reply};
use event_script::{ReplyLine, read_script};
use log_store::LogDevice;
use page_core::MAX_PAGES;
use page_store::PageStore;
use std::process::Abort;

/// Calls with their replies, in parts, on a volume of so many pages.
#[derive(Clone, Copy)]
pub(crate) struct Row {
    pub(crate) pages: u32,
    pub(crate) parts: &'static [&'static str],
}

impl Row {
    /// How many pages the volume has.
    pub(crate) fn pages(self, rt: &impl Abort) -> u32
        ensures { IsPageCount result }
    {
        assert!(rt; self.pages >= 1 && self.pages <= MAX_PAGES);
        self.pages
    }
}

/// The events of a row, and the lines of their replies.
#[derive(Drop)]
pub(crate) struct Calls {
    pub(crate) events: Vec<Event>,
    replies: String,
}

/// Puts the events of a part behind a script, and its replies behind an output. A line without an
/// arrow is a further line of the output.
pub(crate) fn put_part(rt: &impl Abort, script: &mut String, output: &mut String, part: &str) {
    for line in part.trim().lines() {
        let (event, reply) = line.split_once(" -> ").unwrap_or(("", line));
        writeln!(script, "{}", event.trim()).expect(rt, "memory for a script");
        writeln!(output, "{}", reply.trim()).expect(rt, "memory for an output");
    }
}

/// The script of these parts, and the output of its calls.
pub(crate) fn script_of(rt: &(impl Abort + AllocGlobal), parts: &[&str]) -> (String, String) {
    let alloc = rt.alloc();
    let mut script = String::new(alloc);
    let mut output = String::new(alloc);
    for part in parts {
        put_part(rt, &mut script, &mut output, part);
    }
    (script, output)
}

/// The calls of these parts.
pub(crate) fn calls_of(rt: &(impl Abort + AllocGlobal), parts: &[&str]) -> Calls {
    let (script, replies) = script_of(rt, parts);
    let read = read_script(rt.alloc(), &mut script.as_bytes()).expect(rt, "a script");
    Calls {
        events: read.events,
        replies,
    }
}

/// The lines of replies.
fn lines_of(rt: &(impl Abort + AllocGlobal), replies: &[Reply]) -> String {
    let mut lines = String::new(rt.alloc());
    for reply in replies {
        let line = ReplyLine(*reply);
        writeln!(lines, "{line}").expect(rt, "memory for an output");
    }
    lines
}

/// Asserts that these are the replies of the calls.
pub(crate) fn assert_replies(rt: &(impl Abort + AllocGlobal), replies: &[Reply], calls: &Calls) {
    same(rt, &lines_of(rt, replies), &calls.replies);
}

/// Makes the calls, one by one.
fn replies_to<S: PageStore, D: LogDevice>(
    rt: &(impl Abort + AllocGlobal),
    engine: &mut Engine<S, D>,
    calls: &Calls,
) -> Vec<Reply> {
    let mut replies = Vec::new(rt.alloc());
    for event in &calls.events {
        replies
            .push(engine.apply(*event))
            .expect(rt, "memory for replies");
    }
    replies
}

/// Makes the calls, one by one, and asserts their replies.
pub(crate) fn call<S: PageStore, D: LogDevice>(
    rt: &(impl Abort + AllocGlobal),
    engine: &mut Engine<S, D>,
    calls: &Calls,
) {
    assert_replies(rt, &replies_to(rt, engine, calls), calls);
}

/// Makes the calls, one by one, and tells whether these are their replies.
pub(crate) fn answers<S: PageStore, D: LogDevice>(
    rt: &(impl Abort + AllocGlobal),
    engine: &mut Engine<S, D>,
    calls: &Calls,
) -> bool {
    lines_of(rt, &replies_to(rt, engine, calls)) == calls.replies
}
