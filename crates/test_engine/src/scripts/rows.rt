//! Lines of scripts, and what each of them says.

use aries_core::{Answer, Refusal};
use copy_vault::CopyId;
use event_script::{LineFault, ReplyLine, ScriptFault};
use page_core::{Lsn, TxnNo};

/// Scripts of one event, and what they say.
pub(super) static CALLS: [(&str, &str); 22] = [
    ("begin", "[Begin] None"),
    (
        "set 4294967295 65536 65535 18446744073709551615",
        "[Set { txn: TxnNo(4294967295), page: PageNo(65536), slot: SlotNo(65535), \
         number: 18446744073709551615 }] None",
    ),
    (
        "add 04294967295  65536 65535 18446744073709551615\r\n",
        "[Add { txn: TxnNo(4294967295), page: PageNo(65536), slot: SlotNo(65535), \
         amount: 18446744073709551615 }] None",
    ),
    (
        "read 65536 65535",
        "[Read { page: PageNo(65536), slot: SlotNo(65535) }] None",
    ),
    (
        "commit 00000000004294967295",
        "[Commit(TxnNo(4294967295))] None",
    ),
    ("abort 4294967295\n", "[Abort(TxnNo(4294967295))] None"),
    ("undo 4294967295", "[UndoStep(TxnNo(4294967295))] None"),
    ("save 4294967295", "[Savepoint(TxnNo(4294967295))] None"),
    (
        "undoto 4294967295 18446744073709551615",
        "[UndoTo { txn: TxnNo(4294967295), savepoint: Lsn(18446744073709551615) }] None",
    ),
    ("force", "[Force] None"),
    ("ckpt", "[CkptBegin] None"),
    ("gather", "[CkptGather] None"),
    ("endckpt\r", "[CkptEnd] None"),
    ("wbegin 65536", "[WriteBegin(PageNo(65536))] None"),
    ("wend 65536", "[WriteEnd(PageNo(65536))] None"),
    ("full", "[CopyFull] None"),
    ("inc 7", "[CopyInc(CopyId(7))] None"),
    (
        "take 7 65536",
        "[Take { copy: CopyId(7), page: PageNo(65536) }] None",
    ),
    ("  seal   7 ", "[Seal(CopyId(7))] None"),
    ("drop 7", "[DropCopy(CopyId(7))] None"),
    (
        "repair 7 65536",
        "[Repair { copy: CopyId(7), page: PageNo(65536) }] None",
    ),
    ("extend 4294967295", "[Extend(4294967295)] None"),
];

/// Scripts with a restore, and without one.
pub(super) static RESTORES: [(&str, &str); 5] = [
    (
        "begin\nrestore 3 all\n# done\n\n",
        "[Begin] Some(LastRestore { copy: CopyId(3), cut: None })",
    ),
    (
        "restore 3 18446744073709551615",
        "[] Some(LastRestore { copy: CopyId(3), cut: Some(18446744073709551615) })",
    ),
    ("", "[] None"),
    ("# none\n\r\n", "[] None"),
    ("begin\nforce\n", "[Begin, Force] None"),
];

/// Scripts of one line, each with the number of its first bad line, and what is wrong with it.
pub(super) static BAD_LINES: [(&str, u64, LineFault); 31] = [
    (" ", 1, LineFault::NoCall),
    ("start", 1, LineFault::UnknownCall),
    ("Begin", 1, LineFault::UnknownCall),
    (" # no comment", 1, LineFault::UnknownCall),
    ("begin 1", 1, LineFault::WordCount(0)),
    ("begin\r\r", 1, LineFault::UnknownCall),
    ("commit", 1, LineFault::WordCount(1)),
    ("commit 1 2", 1, LineFault::WordCount(1)),
    ("commit 4294967296", 1, LineFault::BadNumber),
    ("save", 1, LineFault::WordCount(1)),
    ("undoto 1", 1, LineFault::WordCount(2)),
    ("undoto 4294967296 64", 1, LineFault::BadNumber),
    ("commit 000000000000000000001", 1, LineFault::BadNumber),
    ("commit +5", 1, LineFault::BadNumber),
    ("commit -1", 1, LineFault::BadNumber),
    ("commit\t1", 1, LineFault::UnknownCall),
    ("set 1 0 65536 7", 1, LineFault::BadNumber),
    ("set 1 0 0 18446744073709551616", 1, LineFault::BadNumber),
    ("set 1 0 0 99999999999999999999", 1, LineFault::BadNumber),
    ("set 1 0 0", 1, LineFault::WordCount(4)),
    ("set 1 0 0 7 7", 1, LineFault::WordCount(4)),
    ("take 1", 1, LineFault::WordCount(2)),
    ("repair 1", 1, LineFault::WordCount(2)),
    ("repair 1 4294967296", 1, LineFault::BadNumber),
    ("mend 1 0", 1, LineFault::UnknownCall),
    ("extend", 1, LineFault::WordCount(1)),
    ("extend 1 2", 1, LineFault::WordCount(1)),
    ("extend 4294967296", 1, LineFault::BadNumber),
    ("restore 1", 1, LineFault::WordCount(2)),
    ("restore 1 some", 1, LineFault::BadNumber),
    ("restore 4294967296 all", 1, LineFault::BadNumber),
];

/// What is wrong with a line, and how that is told.
pub(super) const REASONS: [(LineFault, &str); 5] = [
    (LineFault::NoCall, "it has spaces alone"),
    (LineFault::UnknownCall, "unknown call"),
    (
        LineFault::WordCount(4),
        "after this call's name stand 4 words",
    ),
    (LineFault::BadNumber, "a number is misspelled or too large"),
    (LineFault::BehindRestore, "nothing may follow a restore"),
];

/// What is wrong with a line of several, and its number.
pub(super) static BAD_SCRIPTS: [(&str, u64, LineFault); 5] = [
    (
        "begin\n\n# \u{e4}\r\ncommit x\nbegin y\n",
        4,
        LineFault::BadNumber,
    ),
    ("restore 1 all\n\nbegin\n", 3, LineFault::BehindRestore),
    ("restore 1 all\nrestore 1 all", 2, LineFault::BehindRestore),
    ("restore 1 all\nno\n", 2, LineFault::UnknownCall),
    ("begin\n \n", 2, LineFault::NoCall),
];

const LSN: Lsn = Lsn(640);

pub(super) const REPLIES: [(ReplyLine, &str); 22] = [
    (
        ReplyLine(Ok(Answer::Began {
            txn: TxnNo(2),
            lsn: LSN,
        })),
        "began 2 at 640",
    ),
    (ReplyLine(Ok(Answer::Logged(LSN))), "lsn 640"),
    (ReplyLine(Ok(Answer::Number(12))), "value 12"),
    (ReplyLine(Ok(Answer::Undid(LSN))), "undid 640"),
    (ReplyLine(Ok(Answer::Ended(LSN))), "ended 640"),
    (ReplyLine(Ok(Answer::Saved(LSN))), "saved 640"),
    (ReplyLine(Ok(Answer::Reached)), "reached"),
    (ReplyLine(Ok(Answer::Forced(LSN))), "forced 640"),
    (ReplyLine(Ok(Answer::Writing(LSN))), "writing 640"),
    (ReplyLine(Ok(Answer::Written(LSN))), "written 640"),
    (ReplyLine(Ok(Answer::More)), "more"),
    (ReplyLine(Ok(Answer::Done)), "done"),
    (
        ReplyLine(Ok(Answer::Point {
            begin: Lsn(192),
            end: Lsn(384),
            redo: Lsn(128),
        })),
        "point 192 384 128",
    ),
    (ReplyLine(Ok(Answer::Copied(CopyId(1)))), "copy 1"),
    (ReplyLine(Ok(Answer::Taken(LSN))), "taken 640"),
    (ReplyLine(Ok(Answer::Kept)), "kept"),
    (ReplyLine(Ok(Answer::Sealed(2))), "sealed 2"),
    (ReplyLine(Ok(Answer::Dropped)), "dropped"),
    (ReplyLine(Ok(Answer::Repaired(LSN))), "repaired 640"),
    (ReplyLine(Err(Refusal::SlotBusy(TxnNo(1)))), "E5 SlotBusy 1"),
    (ReplyLine(Err(Refusal::NoSavepoint)), "E42 NoSavepoint"),
    (ReplyLine(Err(Refusal::NotLarger(3))), "E43 NotLarger 3"),
];

pub(super) static FAULTS: [(ScriptFault, &str); 4] = [
    (ScriptFault::OutOfMemory, "E1 OutOfMemory"),
    (ScriptFault::Input, "imgcopy: input"),
    (ScriptFault::ReadFault, "imgcopy: input"),
    (
        ScriptFault::BadLine(12, LineFault::NoCall),
        "imgcopy: line 12",
    ),
];
