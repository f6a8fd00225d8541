//! Reads the master record of a log, and checks that it names a complete checkpoint.

ghost use Rattle.std.specs.Prelude.{◌≡◌, ◌↔◌, ◌≤◌, IfOk, IfErr, IfSome, IsTrue, None, OnOk, Some};
ghost use Rattle.page_core.specs.Input.{HasGivenAll};
ghost use Rattle.log_records.specs.Log.{Log};
ghost use Rattle.log_rules.specs.Linked.{IsLinked};
ghost use Rattle.loser_undo.specs.Kept.{kept_of};
ghost use Rattle.log_store.specs.Master.{SpellsMaster};
ghost use Rattle.media_restore.specs.Files.{IsOfMaster, MasterRefused, NotSpelled};
ghost use Rattle.media_restore.specs.FilesStop.{FailsInMaster};
ghost use Rattle.media_restore.specs.declared.files_fault.RestoreFault.TheVariants.{BadHeader};

use crate::files_fault::RestoreFault;
use log_store::{MASTER_BYTES, Master, decode_master};
use loser_undo::LogChanges;
use page_core::{MAX_TURNS, Turn, read_more};
use std::io::Read;

/// Reads a master record to the input's end, and sees that it names a complete checkpoint of the
/// log of which this was kept.
pub(crate) fn read_master<M: Read>(
    reader: &mut M,
    kept: &LogChanges,
) -> Result<Master, RestoreFault>
    ensures ok { IfOk result (λ master. (log : Log) → kept.now ≡ kept_of log
        → IsLinked log.records → IsOfMaster (M.remaining reader.old) log.records master) }
    ensures err { IfErr result (λ fault. (log : Log) → kept.now ≡ kept_of log
        → IsLinked log.records → MasterRefused (M.remaining reader.old) log.records fault) }
    ensures stops { IfErr result (FailsInMaster (M.remaining reader.old) (M.remaining reader.new)) }
    ensures end { OnOk result (HasGivenAll (M.remaining reader.old) (M.remaining reader.new)) }
{
    let master = spelled_master(reader)?;
    if !kept.has_completed(&master) {
        return Err(RestoreFault::BadChain(master.begin));
    }
    Ok(master)
}

/// Reads the bytes of a master record, and nothing behind them.
fn spelled_master<M: Read>(reader: &mut M) -> Result<Master, RestoreFault>
    ensures ok { IfOk result (λ master. IfSome (M.remaining reader.old) (SpellsMaster master)) }
    ensures err { IfErr result (NotSpelled (M.remaining reader.old)) }
    ensures stops { IfErr result (FailsInMaster (M.remaining reader.old) (M.remaining reader.new)) }
    ensures end { OnOk result (HasGivenAll (M.remaining reader.old) (M.remaining reader.new)) }
{
    let mut bytes = [0; MASTER_BYTES + 1];
    let mut filled = 0;
    let mut found = None;
    for _ in 0..MAX_TURNS {
        match read_more(reader, &mut bytes, filled) {
            Turn::More(count) => filled += count,
            Turn::End => return whole_master(found),
            Turn::Failed => return Err(RestoreFault::ReadFault),
        }
        let next = decode_master(&bytes[..filled]);
        if is_misspelt(filled, &next) {
            return Err(RestoreFault::BadHeader);
        }
        found = next;
    }
    Err(RestoreFault::ReadFault)
}

/// What is answered where the input ends, and its bytes spell this master record, or none.
fn whole_master(found: Option<Master>) -> Result<Master, RestoreFault>
    ensures ok { IfOk result (λ master. found ≡ Some master) }
    ensures err { IfErr result (λ fault. (fault ≡ BadHeader) × (found ≡ None)) }
{
    match found {
        Some(master) => Ok(master),
        None => Err(RestoreFault::BadHeader),
    }
}

/// However the input goes on, it spells no master record: as many bytes or more were given, and
/// they spell this one, or none.
fn is_misspelt(filled: usize, found: &Option<Master>) -> bool
    ensures { IsTrue result ↔ ((MASTER_BYTES ≤ filled) × (found.now ≡ None)) }
{
    filled >= MASTER_BYTES && found.is_none()
}
