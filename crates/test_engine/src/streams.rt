//! What no clause says of redo: that it writes the volume of a log, with known bytes, and how it
//! answers a reader or a writer that fails.

use crate::asserts::{assert_fault, assert_texts, same_at};
use crate::groups::{Groups, assert_bytes, bytes_of};
use page_core::Lsn;
use page_redo::{StreamFault, redo_stream};
use std::io;
use std::io::{ErrorKind, Read, Write};
use std::process::Abort;

const ONE_PAGE: &str = "41494d474c4f4732 0100000000000000 0 0 0 0 0 0";

/// The header of a log of one page in the first format, and in two that there are not.
const FIRST_FORMAT: &str = "41494d474c4f4731 0100000000000000 0 0 0 0 0 0";

const NO_FORMAT: &str = "41494d474c4f4730 0100000000000000 0 0 0 0 0 0";

const LATER_FORMAT: &str = "41494d474c4f4733 0100000000000000 0 0 0 0 0 0";

const BEGIN: &str = "0100000001000000 0 0 0 0 0 0 4000000000000000";

const SET_SEVEN: &str =
    "0200000001000000 4000000000000000 0 0000000003000100 0 0700000000000000 0 8000000000000000";

const ADD_FIVE: &str =
    "0200000001000000 8000000000000000 0 0000000003000200 0 0500000000000000 0 c000000000000000";

const COMMIT: &str = "0400000001000000 c000000000000000 0 0 0 0 0 0001000000000000";

const SECOND_COMMIT: &str = "0400000001000000 c000000000000000 0 0 0 0 0 4001000000000000";

const SET_ONE: &str =
    "0200000001000000 4000000000000000 0 0000000000000100 0 0100000000000000 0 8000000000000000";

const ADD_THE_MOST: &str =
    "0200000001000000 8000000000000000 0 0000000000000200 0 ffffffffffffffff 0 c000000000000000";

const SET_SEVEN_SPOILED: &str =
    "0201000001000000 4000000000000000 0 0000000003000100 0 0700000000000000 0 8000000000000000";

const SET_IN_PAGE_ONE: &str =
    "0200000001000000 4000000000000000 0 0100000003000100 0 0700000000000000 0 8000000000000000";

const TWO_PAGES: Groups = Groups(&["41494d474c4f4732 0200000000000000"], 64);

const FOUR_PARTS: &[&str] = &[ONE_PAGE, BEGIN, SET_SEVEN, ADD_FIVE, COMMIT];

const FOUR_RECORDS: Groups = Groups(FOUR_PARTS, 320);

const FOUR_OF_THE_FIRST_FORMAT: Groups = Groups(
    &[FIRST_FORMAT, BEGIN, SET_SEVEN, ADD_FIVE, COMMIT],
    320,
);

const FOUR_OF_NO_FORMAT: Groups = Groups(&[NO_FORMAT, BEGIN, SET_SEVEN, ADD_FIVE, COMMIT], 320);

const FOUR_OF_A_LATER_FORMAT: Groups = Groups(
    &[LATER_FORMAT, BEGIN, SET_SEVEN, ADD_FIVE, COMMIT],
    320,
);

/// What the four records make.
const VOLUME: Groups = Groups(
    &["0000000001000000 c000000000000000 0 0 0 0c00000000000000"],
    512,
);

const CUT: Groups = Groups(FOUR_PARTS, 266);

const NO_BYTES: Groups = Groups(&[], 0);

const OUTSIDE: Groups = Groups(&[ONE_PAGE, BEGIN, SET_IN_PAGE_ONE], 192);

const REPEATED: Groups = Groups(&[ONE_PAGE, BEGIN, SET_SEVEN, ADD_FIVE, COMMIT, COMMIT], 384);

/// The last record again, with an LSN of its own.
const COMMITTED_TWICE: Groups = Groups(
    &[ONE_PAGE, BEGIN, SET_SEVEN, ADD_FIVE, COMMIT, SECOND_COMMIT],
    384,
);

const SPOILED: Groups = Groups(&[ONE_PAGE, BEGIN, SET_SEVEN_SPOILED, ADD_FIVE, COMMIT], 320);

/// The numbers of a page's slots, and its LSN.
const NOTHING: &str = "0 0 0 0 0 0 0 0 0 0 0 0 0 0 0 0 0 0 0 0 0 0 0 0 0 0 0 0 0 0 0 \
                       0 0 0 0 0 0 0 0 0 0 0 0 0 0 0 0 0 0 0 0 0 0 0 0 0 0 0 0 0 0 0 0";

/// What no record makes of two pages.
const FORMATTED: Groups = Groups(&["0000000001000000", NOTHING, "0100000001000000"], 1024);

const SUM_WRAPS: Groups = Groups(&[ONE_PAGE, BEGIN, SET_ONE, ADD_THE_MOST], 256);

const VOLUME_OF_A_SUM: Groups = Groups(&["0000000001000000 c000000000000000"], 512);

/// Asserts that a log gives a volume.
pub(crate) fn assert_volume(rt: &(impl Abort + AllocGlobal), log: Groups, volume: Groups) {
    let alloc = rt.alloc();
    let log = bytes_of(rt, log);
    let mut written = Vec::new(alloc);
    let fault = redo_stream(alloc, &mut log.as_slice(), &mut written).err();
    assert_fault(rt, &fault, "");
    assert_bytes(rt, &written, volume);
}

#[test]
fn writes_the_volume_of_no_records(rt: HostRuntime) {
    assert_volume(&rt, TWO_PAGES, FORMATTED);
}

#[test]
fn writes_the_volume_of_four_records(rt: HostRuntime) {
    assert_volume(&rt, FOUR_RECORDS, VOLUME);
}

#[test]
fn writes_the_volume_of_a_log_of_the_first_format(rt: HostRuntime) {
    assert_volume(&rt, FOUR_OF_THE_FIRST_FORMAT, VOLUME);
}

#[test]
fn writes_the_volume_of_a_sum_that_wraps(rt: HostRuntime) {
    assert_volume(&rt, SUM_WRAPS, VOLUME_OF_A_SUM);
}

/// Asserts that a reader gives no log, by the line of its fault, and that nothing is written.
fn assert_refused<R: Read>(rt: &(impl Abort + AllocGlobal), reader: &mut R, line: &str) {
    let mut volume = Vec::new(rt.alloc());
    let fault = redo_stream(rt.alloc(), reader, &mut volume).err();
    assert_fault(rt, &fault, line);
    same_at(rt, &volume.len(), &0, &line);
}

/// Asserts that some bytes are no log.
pub(crate) fn assert_no_log(rt: &(impl Abort + AllocGlobal), log: Groups, line: &str) {
    assert_refused(rt, &mut bytes_of(rt, log).as_slice(), line);
}

#[test]
fn writes_nothing_of_a_cut_log(rt: HostRuntime) {
    assert_no_log(&rt, CUT, "E32 Torn 256");
}

#[test]
fn writes_nothing_of_no_bytes(rt: HostRuntime) {
    assert_no_log(&rt, NO_BYTES, "E30 BadHeader");
}

#[test]
fn writes_nothing_of_a_format_that_there_is_not(rt: HostRuntime) {
    assert_no_log(&rt, FOUR_OF_NO_FORMAT, "E30 BadHeader");
    assert_no_log(&rt, FOUR_OF_A_LATER_FORMAT, "E30 BadHeader");
}

#[test]
fn writes_nothing_of_a_spoiled_record(rt: HostRuntime) {
    assert_no_log(&rt, SPOILED, "E31 BadRecord 128");
}

#[test]
fn writes_nothing_of_a_page_outside(rt: HostRuntime) {
    assert_no_log(&rt, OUTSIDE, "E31 BadRecord 128");
}

#[test]
fn writes_nothing_of_a_repeated_record(rt: HostRuntime) {
    assert_no_log(&rt, REPEATED, "E31 BadRecord 320");
    assert_no_log(&rt, COMMITTED_TWICE, "E35 BadChain 320");
}

/// Gives at most `step` bytes at a read. Each read is interrupted so often before. The read after
/// `good_reads` others fails, and those after it go on.
#[derive(Drop)]
struct Hesitant<'a> {
    rest: &'a [u8],
    step: usize,
    interruptions: u32,
    interrupted: u32,
    good_reads: Option<usize>,
}

impl<'a> Read for Hesitant<'a> {
    fn read(&mut self, buf: &mut [u8]) -> io::Result<usize> {
        if self.interrupted < self.interruptions {
            self.interrupted += 1;
            return Err(io::Error::from(ErrorKind::Interrupted));
        }
        self.interrupted = 0;
        if let Some(left) = self.good_reads {
            self.good_reads = left.checked_sub(1);
            if left == 0 {
                return Err(io::Error::from(ErrorKind::ConnectionReset));
            }
        }
        let count = buf.len().min(self.rest.len()).min(self.step);
        buf[..count].copy_from_slice(&self.rest[..count]);
        self.rest = &self.rest[count..];
        Ok(count)
    }
}

/// How many bytes come at a read of the four records, and how often it is interrupted before.
static HESITATIONS: [(usize, u32); 5] = [(1, 0), (1, 3), (7, 3), (64, 1), (512, 3)];

#[test]
fn reads_a_hesitant_reader_to_its_end(rt: HostRuntime) {
    let log = bytes_of(&rt, FOUR_RECORDS);
    for (step, interruptions) in &HESITATIONS {
        let mut reader = Hesitant {
            rest: &log,
            step: *step,
            interruptions: *interruptions,
            interrupted: 0,
            good_reads: None,
        };
        let mut volume = Vec::new(rt.alloc());
        let fault = redo_stream(rt.alloc(), &mut reader, &mut volume).err();
        assert_fault(&rt, &fault, "");
        assert_bytes(&rt, &volume, VOLUME);
    }
}

/// Asserts what comes of a log of which so many bytes are read, one at a read, before a read fails.
fn assert_failing(rt: &(impl Abort + AllocGlobal), log: &[u8], good_reads: usize, line: &str) {
    let mut reader = Hesitant {
        rest: log,
        step: 1,
        interruptions: 0,
        interrupted: 0,
        good_reads: Some(good_reads),
    };
    assert_refused(rt, &mut reader, line);
}

#[test]
fn writes_nothing_where_a_read_fails(rt: HostRuntime) {
    let log = bytes_of(&rt, FOUR_RECORDS);
    for good_reads in 0..321 {
        assert_failing(&rt, &log, good_reads, "E33 ReadFault");
    }
}

#[test]
fn a_bad_record_goes_before_a_later_failure(rt: HostRuntime) {
    let log = bytes_of(&rt, SPOILED);
    assert_failing(&rt, &log, 191, "E33 ReadFault");
    assert_failing(&rt, &log, 192, "E31 BadRecord 128");
    assert_failing(&rt, &log, 319, "E31 BadRecord 128");
}

/// How a writer takes bytes: at most `step` at a write, and `room` in all. When full it fails so,
/// or takes nothing. From the byte `first` on, each write is interrupted so often before.
#[derive(Clone, Copy)]
struct Limits {
    step: usize,
    room: usize,
    when_full: Option<ErrorKind>,
    first: usize,
    interruptions: u32,
}

/// A writer that takes bytes so.
#[derive(Drop)]
struct Narrow {
    held: Vec<u8>,
    limits: Limits,
    interrupted: u32,
}

impl Write for Narrow {
    fn write(&mut self, buf: &[u8]) -> io::Result<usize> {
        let Limits {
            step,
            room,
            when_full,
            first,
            interruptions,
        } = self.limits;
        if self.held.len() >= first && self.interrupted < interruptions {
            self.interrupted += 1;
            return Err(io::Error::from(ErrorKind::Interrupted));
        }
        self.interrupted = 0;
        let left = room.saturating_sub(self.held.len());
        if let (0, Some(kind)) = (left, when_full) {
            return Err(io::Error::from(kind));
        }
        let count = buf.len().min(step).min(left);
        self.held.extend_from_slice(&buf[..count])?;
        Ok(count)
    }

    fn flush(&mut self) -> io::Result<()> {
        Ok(())
    }
}

/// A writer that takes all bytes of a page at once, and breaks then.
const BROKEN: Limits = Limits {
    step: 512,
    room: 512,
    when_full: Some(ErrorKind::BrokenPipe),
    first: 0,
    interruptions: 0,
};

/// A writer that takes them one by one.
const INTERRUPTED: Limits = Limits { step: 1, ..BROKEN };

/// A writer, how many bytes of the volume it takes, and the line of the fault, or no text.
type Written = (Limits, usize, &'static str);

/// Asserts what comes of a log that is written to such writers, which then hold the first bytes of
/// the volume.
fn assert_written(rt: &(impl Abort + AllocGlobal), log: Groups, volume: &[u8], table: &[Written]) {
    let alloc = rt.alloc();
    let log = bytes_of(rt, log);
    for (limits, taken, line) in table {
        let mut writer = Narrow {
            held: Vec::new(alloc),
            limits: *limits,
            interrupted: 0,
        };
        let fault = redo_stream(alloc, &mut log.as_slice(), &mut writer).err();
        assert_fault(rt, &fault, line);
        let is_front = Some(writer.held.as_slice()) == volume.get(..*taken);
        same_at(rt, &is_front, &true, taken);
    }
}

static NARROW: [Written; 9] = [
    (Limits { step: 1, ..BROKEN }, 512, ""),
    (
        Limits {
            step: 100,
            ..BROKEN
        },
        512,
        "",
    ),
    (Limits { room: 0, ..BROKEN }, 0, "E29 WriteFault 0"),
    (
        Limits {
            room: 0,
            when_full: None,
            ..BROKEN
        },
        0,
        "E29 WriteFault 0",
    ),
    (Limits { room: 1, ..BROKEN }, 1, "E29 WriteFault 1"),
    (
        Limits {
            step: 1,
            room: 7,
            ..BROKEN
        },
        7,
        "E29 WriteFault 7",
    ),
    (
        Limits {
            step: 1,
            room: 7,
            when_full: None,
            ..BROKEN
        },
        7,
        "E29 WriteFault 7",
    ),
    (
        Limits {
            step: 7,
            room: 100,
            ..BROKEN
        },
        100,
        "E29 WriteFault 100",
    ),
    (
        Limits {
            room: 511,
            ..BROKEN
        },
        511,
        "E29 WriteFault 511",
    ),
];

#[test]
fn counts_what_a_narrow_writer_took(rt: HostRuntime) {
    let volume = bytes_of(&rt, VOLUME);
    assert_written(&rt, FOUR_RECORDS, &volume, &NARROW);
}

/// The bytes of 513 formatted pages, which are more than go out at once.
fn formatted_volume(rt: &(impl Abort + AllocGlobal)) -> Vec<u8> {
    let mut bytes = Vec::new(rt.alloc());
    for number in 0..513u32 {
        let front = (u64::from(number) | 1 << 32).to_le_bytes();
        bytes
            .extend_from_slice(&front)
            .expect(rt, "memory for bytes");
        bytes
            .extend_from_slice(&[0; 504])
            .expect(rt, "memory for bytes");
    }
    bytes
}

static WIDE: [Written; 3] = [
    (
        Limits {
            step: 4096,
            room: 262_656,
            ..BROKEN
        },
        262_656,
        "",
    ),
    (
        Limits {
            step: 4096,
            room: 262_151,
            ..BROKEN
        },
        262_151,
        "E29 WriteFault 262151",
    ),
    (
        Limits {
            step: 4096,
            room: 262_144,
            ..BROKEN
        },
        262_144,
        "E29 WriteFault 262144",
    ),
];

/// To a writer that takes all of them or fails within the last one.
#[test]
fn writes_many_pages(rt: HostRuntime) {
    let log = Groups(&["41494d474c4f4732 0102000000000000"], 64);
    let volume = formatted_volume(&rt);
    assert_written(&rt, log, &volume, &WIDE);
}

static OFTEN_INTERRUPTED: [Written; 4] = [
    (
        Limits {
            interruptions: 16,
            ..INTERRUPTED
        },
        512,
        "",
    ),
    (
        Limits {
            interruptions: 17,
            ..INTERRUPTED
        },
        0,
        "E29 WriteFault 0",
    ),
    (
        Limits {
            first: 9,
            interruptions: 17,
            ..INTERRUPTED
        },
        9,
        "E29 WriteFault 9",
    ),
    (
        Limits {
            first: 511,
            interruptions: 17,
            ..INTERRUPTED
        },
        511,
        "E29 WriteFault 511",
    ),
];

#[test]
fn tries_an_interrupted_write_again(rt: HostRuntime) {
    let volume = bytes_of(&rt, VOLUME);
    assert_written(&rt, FOUR_RECORDS, &volume, &OFTEN_INTERRUPTED);
}

const FAULTS: [(StreamFault, &str); 8] = [
    (StreamFault::OutOfMemory, "E1 OutOfMemory"),
    (StreamFault::WriteFault(7), "E29 WriteFault 7"),
    (StreamFault::BadHeader, "E30 BadHeader"),
    (StreamFault::BadRecord(Lsn(128)), "E31 BadRecord 128"),
    (StreamFault::Torn(Lsn(256)), "E32 Torn 256"),
    (StreamFault::ReadFault, "E33 ReadFault"),
    (StreamFault::TooLong, "E34 TooLong"),
    (StreamFault::BadChain(Lsn(256)), "E35 BadChain 256"),
];

#[test]
fn has_its_line(rt: HostRuntime) {
    assert_texts(&rt, &FAULTS);
}
