//! The file of the master record, as it is found in a folder.

ghost use Rattle.std.specs.Prelude.{◌≡◌, ◌↔◌, IfOk, IsTrue, false, not};
ghost use Rattle.log_store.specs.Master.{SpellsMaster};
ghost use Rattle.database_files.specs.DatabaseFolder.{Tells};
ghost use Rattle.database_files.specs.Found.{IsFoundIn, IsReadOf};
ghost use Rattle.database_files.specs.Master.{HasCheckpointOf, is_absent, spelled};

use crate::database_folder::{DatabaseFolder, Standing};
use crate::fault::OpenFault;
use crate::names::MASTER;
use crate::place::Place;
use crate::whole_file::{first_of, read_first};
use fuzzy_ckpt::Point;
use log_records::Record;
use log_store::{MASTER_BYTES, Master, decode_master};
use page_core::LSN_STEP;

/// What stands as the master record.
#[derive(Clone, Copy, Debug, Drop)]
pub enum FoundMaster {
    Absent,
    /// It spells this one.
    Spelled(Master),
    /// It was read, and spells none; or it is no file.
    Wrong,
}

impl FoundMaster {
    ghost use Rattle.std.specs.Prelude.{◌≡◌, ◌↔◌, IsTrue};
    ghost use Rattle.database_files.specs.Master.{IsOfRecords, NamesPoint, spelled};

    /// The master record that is spelled, if one is.
    pub fn spelled(&self) -> Option<Master>
        ensures { result ≡ spelled self.now }
    {
        match self {
            FoundMaster::Spelled(master) => Some(*master),
            FoundMaster::Absent | FoundMaster::Wrong => None,
        }
    }

    /// Whether nothing stands there, or the record of a complete checkpoint of the log that has
    /// these records.
    pub fn is_of(&self, records: &[Record]) -> bool
        ensures { IsTrue result ↔ IsOfRecords records.now self.now }
    {
        match self {
            FoundMaster::Absent => true,
            FoundMaster::Spelled(master) => has_checkpoint(records, master),
            FoundMaster::Wrong => false,
        }
    }

    /// Whether it is the record of this checkpoint, or of none where there is none.
    pub fn names(&self, point: Option<Point>) -> bool
        ensures { IsTrue result ↔ NamesPoint (spelled self.now) point }
    {
        match (self.spelled(), point) {
            (Some(master), Some(point)) => master.begin == point.begin && master.end == point.end,
            (None, None) => true,
            _ => false,
        }
    }
}

/// Whether the master record names a checkpoint that is complete in the log that has these records.
fn has_checkpoint(records: &[Record], master: &Master) -> bool
    ensures { IsTrue result ↔ HasCheckpointOf records.now master.now }
{
    if master.end.0 < LSN_STEP {
        return false;
    }
    let place = master.end.0 / LSN_STEP - 1;
    match records.get(place as usize) {
        Some(Record::EndChkpt { begin, .. }) => *begin == master.begin,
        _ => false,
    }
}

/// Reads the file of the master record, if it is there.
pub fn read_master<F: DatabaseFolder>(folder: &F, is_there: bool) -> Result<FoundMaster, OpenFault>
    ensures found { IfOk result (λ it. Tells (F.entries folder.now) MASTER.now is_there
        → IsFoundIn SpellsMaster (F.entries folder.now) MASTER.now (spelled it)) }
    ensures absent { IfOk result (λ it. is_absent it ≡ not is_there) }
{
    if !is_there {
        return Ok(FoundMaster::Absent);
    }
    // One byte more shows that there are more.
    let mut bytes = [0; MASTER_BYTES + 1];
    match read_first(folder, MASTER, &mut bytes) {
        Ok(Standing::File(len)) => Ok(master_in(first_of(&bytes, len))),
        Ok(Standing::NotAFile) => Ok(FoundMaster::Wrong),
        Ok(Standing::Absent) => Err(OpenFault::absent(Place::Master)),
        Err(error) => Err(OpenFault::of(Place::Master, &error)),
    }
}

/// The master record that these bytes spell, if they spell one.
fn master_in(bytes: &[u8]) -> FoundMaster
    ensures read { IsReadOf SpellsMaster bytes.now (spelled result) }
    ensures there { is_absent result ≡ false }
{
    match decode_master(bytes) {
        Some(master) => FoundMaster::Spelled(master),
        None => FoundMaster::Wrong,
    }
}
