//! The master record, which says where the last complete checkpoint stands.

ghost use Rattle.std.specs.Prelude.{ℕ, ◌≡◌, ◌↔◌, List, IfSome, Some, IsTrue};
ghost use Rattle.log_records.specs.Record.{IsLsn};
ghost use Rattle.log_store.specs.declared.master.Master.{Master};
ghost use Rattle.log_store.specs.Master.{IsMaster, SpellsMaster, master_bytes};

use log_records::HEADER_BYTES;
use page_core::field::u64_at;
use page_core::{LSN_STEP, Lsn};

/// How many bytes the master record has.
pub const MASTER_BYTES: usize = 64;

/// The text in front of it.
const MAGIC: [u8; 8] = *b"AIMGMST1";

/// The LSNs of the BeginChkpt and of the EndChkpt of the last complete checkpoint (ARIES, section
/// 5.4). Whether a log has this checkpoint, it does not say.
#[derive(Clone, Copy, Debug, PartialEq, Eq)]
pub struct Master {
    pub begin: Lsn,
    pub end: Lsn,
}

/// The bytes of a master record. Where an LSN is none, or they do not rise, no reader takes them
/// for one.
pub fn encode_master(master: &Master) -> [u8; MASTER_BYTES]
    ensures { result ≡ master_bytes master.now }
{
    written(master.begin.0, master.end.0)
}

/// The master record that these bytes spell, if they do.
pub fn decode_master(bytes: &[u8]) -> Option<Master>
    ensures found { IfSome result (λ m. SpellsMaster m bytes.now) }
    ensures only { (m : Master) → SpellsMaster m bytes.now → result ≡ Some m }
{
    if bytes.len() != MASTER_BYTES {
        return None;
    }
    let master = Master {
        begin: Lsn(u64_at(bytes, 8)),
        end: Lsn(u64_at(bytes, 16)),
    };
    if is_master(&master) && is_same(bytes, &encode_master(&master)) {
        Some(master)
    } else {
        None
    }
}

/// No two master records have one spelling.
pub fn masters_are_spelled_apart()
    ensures { (a b : Master) (bytes : List ℕ) → SpellsMaster a bytes → SpellsMaster b bytes
        → a ≡ b }
{}

fn written(begin: u64, end: u64) -> [u8; MASTER_BYTES]
    ensures { result ≡ master_bytes (record { begin = begin; end = end }) }
{
    let mut bytes = [0; MASTER_BYTES];
    bytes[..8].copy_from_slice(&MAGIC);
    bytes[8..16].copy_from_slice(&begin.to_le_bytes());
    bytes[16..24].copy_from_slice(&end.to_le_bytes());
    bytes
}

fn is_master(master: &Master) -> bool
    ensures { IsTrue result ↔ IsMaster master.now }
{
    is_lsn(master.begin) && is_lsn(master.end) && master.begin < master.end
}

fn is_lsn(lsn: Lsn) -> bool
    ensures { IsTrue result ↔ IsLsn lsn }
{
    lsn.0 >= HEADER_BYTES as u64 && lsn.0 % LSN_STEP == 0
}

fn is_same(a: &[u8], b: &[u8]) -> bool
    ensures { IsTrue result ↔ (a.now ≡ b.now) }
{
    a == b
}
