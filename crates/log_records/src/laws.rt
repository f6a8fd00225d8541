//! Laws of spellings, for readers of the contracts.

ghost use Rattle.std.specs.Prelude.{ℕ, ◌≡◌, ◌++◌, List};
ghost use Rattle.log_records.specs.declared.record.Record.{Record};
ghost use Rattle.log_records.specs.Record.{IsRecord, record_bytes};
ghost use Rattle.log_records.specs.Log.{Log, SpellsLog};

use crate::ckpt_codec::{ACTIVE, ROLLING};
use crate::fields::{
    ABORT, ADD, BEGIN, BEGIN_CHKPT, CHKPT_PAGES, CHKPT_TXNS, COMMIT, COMP, END, END_CHKPT, EXTEND,
    SET, UPDATE,
};
use crate::limits::{HEADER_BYTES, MAX_LOG_BYTES, MAX_OPEN, MAX_RECORDS, RECORD_BYTES};

/// What spells a record begins the spelling of no other one. So some bytes spell one record at
/// most.
pub fn records_are_spelled_apart()
    ensures { (a b : Record) (x y : List ℕ) → IsRecord a → IsRecord b
        → record_bytes a ++ x ≡ record_bytes b ++ y → a ≡ b }
{}

/// Two different logs have different spellings.
pub fn logs_are_spelled_apart()
    ensures { (a b : Log) (bytes : List ℕ) → SpellsLog a bytes → SpellsLog b bytes → a ≡ b }
{}

/// The numbers of a log: the bytes of its header and of a record, how many records it may have and
/// how many bytes then, and how many transactions may be open.
pub fn logs_have_these_numbers()
    ensures header { HEADER_BYTES ≡ 64 }
    ensures each { RECORD_BYTES ≡ 64 }
    ensures records { MAX_RECORDS ≡ 1048576 }
    ensures bytes { MAX_LOG_BYTES ≡ 67108928 }
    ensures open { MAX_OPEN ≡ 64 }
{}

/// The numbers by which bytes tell what kind a record and a change is of, and in which phase a
/// checkpoint found a transaction.
pub fn kinds_have_these_numbers()
    ensures begin { BEGIN ≡ 1 }
    ensures update { UPDATE ≡ 2 }
    ensures comp { COMP ≡ 3 }
    ensures commit { COMMIT ≡ 4 }
    ensures abort { ABORT ≡ 5 }
    ensures end { END ≡ 6 }
    ensures begin_chkpt { BEGIN_CHKPT ≡ 7 }
    ensures chkpt_pages { CHKPT_PAGES ≡ 8 }
    ensures chkpt_txns { CHKPT_TXNS ≡ 9 }
    ensures end_chkpt { END_CHKPT ≡ 10 }
    ensures extend { EXTEND ≡ 11 }
    ensures set { SET ≡ 1 }
    ensures add { ADD ≡ 2 }
    ensures active { ACTIVE ≡ 1 }
    ensures rolling { ROLLING ≡ 2 }
{}
