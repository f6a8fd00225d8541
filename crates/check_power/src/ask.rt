//! Lines that are typed to an open database, and what they are answered.

use aries_core::{Answer, Event, Refusal, Reply};
use copy_vault::CopyId;
use page_core::{Lsn, PageNo, TxnNo};
use std::alloc::{AllocError, Global};

/// A word of an operator, or a line that is none.
#[derive(Clone, Copy)]
pub enum Word {
    Checkpoint,
    Flush,
    Copy,
    CopyOn(u32),
    Status,
    Bad,
}

/// What a line asks.
#[derive(Clone, Copy)]
pub enum Ask {
    Call(Event),
    Word(Word),
}

/// What a line is answered.
#[derive(Clone, Copy)]
pub enum Told {
    Reply(Reply),
    /// A whole copy of this id is in place.
    Copied(u32),
    Other,
}

impl Ask {
    /// Its line.
    pub fn line(&self, alloc: Global) -> Result<String, AllocError> {
        match self {
            Ask::Call(event) => line_of(alloc, event),
            Ask::Word(word) => match word {
                Word::Checkpoint => String::from_str(alloc, "checkpoint\n"),
                Word::Flush => String::from_str(alloc, "flush\n"),
                Word::Copy => String::from_str(alloc, "copy\n"),
                Word::CopyOn(id) => format!(in alloc; "copy on {id}\n"),
                Word::Status => String::from_str(alloc, "status\n"),
                Word::Bad => String::from_str(alloc, "commit\n"),
            },
        }
    }
}

fn line_of(alloc: Global, event: &Event) -> Result<String, AllocError> {
    match event {
        Event::Begin => String::from_str(alloc, "begin\n"),
        Event::Force => String::from_str(alloc, "force\n"),
        Event::CkptBegin => String::from_str(alloc, "ckpt\n"),
        Event::CkptGather => String::from_str(alloc, "gather\n"),
        Event::CkptEnd => String::from_str(alloc, "endckpt\n"),
        Event::CopyFull => String::from_str(alloc, "full\n"),
        Event::Read { page, slot } => {
            let (page, slot) = (page.0, slot.0);
            format!(in alloc; "read {page} {slot}\n")
        }
        Event::WriteBegin(page) => number_line(alloc, "wbegin", page.0),
        Event::WriteEnd(page) => number_line(alloc, "wend", page.0),
        Event::CopyInc(copy) => number_line(alloc, "inc", copy.0),
        Event::Seal(copy) => number_line(alloc, "seal", copy.0),
        Event::DropCopy(copy) => number_line(alloc, "drop", copy.0),
        Event::Extend(pages) => number_line(alloc, "extend", *pages),
        Event::Take { copy, page } => {
            let (copy, page) = (copy.0, page.0);
            format!(in alloc; "take {copy} {page}\n")
        }
        Event::Repair { copy, page } => {
            let (copy, page) = (copy.0, page.0);
            format!(in alloc; "repair {copy} {page}\n")
        }
        _ => line_of_txn(alloc, event),
    }
}

fn line_of_txn(alloc: Global, event: &Event) -> Result<String, AllocError> {
    match event {
        Event::Set {
            txn,
            page,
            slot,
            number,
        } => {
            let (txn, page, slot) = (txn.0, page.0, slot.0);
            format!(in alloc; "set {txn} {page} {slot} {number}\n")
        }
        Event::Add {
            txn,
            page,
            slot,
            amount,
        } => {
            let (txn, page, slot) = (txn.0, page.0, slot.0);
            format!(in alloc; "add {txn} {page} {slot} {amount}\n")
        }
        Event::UndoTo { txn, savepoint } => {
            let (txn, savepoint) = (txn.0, savepoint.0);
            format!(in alloc; "undoto {txn} {savepoint}\n")
        }
        Event::Commit(txn) => number_line(alloc, "commit", txn.0),
        Event::Abort(txn) => number_line(alloc, "abort", txn.0),
        Event::UndoStep(txn) => number_line(alloc, "undo", txn.0),
        Event::Savepoint(txn) => number_line(alloc, "save", txn.0),
        _ => Ok(String::new(alloc)),
    }
}

fn number_line(alloc: Global, word: &str, number: u32) -> Result<String, AllocError> {
    format!(in alloc; "{word} {number}\n")
}

/// The words of a line, as far as they tell anything.
#[derive(Clone, Copy)]
struct Words<'a> {
    first: &'a str,
    second: &'a str,
    third: &'a str,
    fourth: &'a str,
}

fn words_of_line(line: &str) -> Words<'_> {
    let mut words = line.split(' ');
    Words {
        first: words.next().unwrap_or(""),
        second: words.next().unwrap_or(""),
        third: words.next().unwrap_or(""),
        fourth: words.next().unwrap_or(""),
    }
}

/// What a line tells that answers one.
pub fn told_by(line: &str) -> Told {
    let words = words_of_line(line);
    let number: u64 = words.second.parse().unwrap_or(0);
    let small: u32 = words.second.parse().unwrap_or(0);
    let lsn = Lsn(number);
    let answer = match words.first {
        "began" => Answer::Began {
            txn: TxnNo(small),
            lsn: Lsn(words.fourth.parse().unwrap_or(0)),
        },
        "point" => Answer::Point {
            begin: lsn,
            end: Lsn(words.third.parse().unwrap_or(0)),
            redo: Lsn(words.fourth.parse().unwrap_or(0)),
        },
        "copy" if words.third == "pages" => return Told::Copied(small),
        "copy" => Answer::Copied(CopyId(small)),
        "value" => Answer::Number(number),
        "sealed" => Answer::Sealed(small),
        "reached" => Answer::Reached,
        "more" => Answer::More,
        "done" => Answer::Done,
        "kept" => Answer::Kept,
        "dropped" => Answer::Dropped,
        first => match lsn_answer(first, lsn) {
            Some(answer) => answer,
            None => return refusal_in(&words),
        },
    };
    Told::Reply(Ok(answer))
}

/// The answer of this name that tells an LSN.
fn lsn_answer(name: &str, lsn: Lsn) -> Option<Answer> {
    Some(match name {
        "lsn" => Answer::Logged(lsn),
        "undid" => Answer::Undid(lsn),
        "ended" => Answer::Ended(lsn),
        "saved" => Answer::Saved(lsn),
        "forced" => Answer::Forced(lsn),
        "writing" => Answer::Writing(lsn),
        "written" => Answer::Written(lsn),
        "taken" => Answer::Taken(lsn),
        "repaired" => Answer::Repaired(lsn),
        _ => return None,
    })
}

/// What a line tells that refuses a call. Of most it matters only that it does.
fn refusal_in(words: &Words<'_>) -> Told {
    let number: u64 = words.third.parse().unwrap_or(0);
    let refusal = match words.second {
        "CommitUnsure" => Refusal::CommitUnsure(Lsn(number)),
        "LogFault" => Refusal::LogFault,
        "GatherLeft" => Refusal::GatherLeft,
        "CkptOpen" => Refusal::CkptOpen,
        "PagesLeft" => Refusal::PagesLeft(PageNo(words.third.parse().unwrap_or(0))),
        "" => return Told::Other,
        _ => Refusal::NoTxn,
    };
    Told::Reply(Err(refusal))
}
