//! Image copies of a volume: copies and their chains, the vault that has each by its id, and their archives.
#![tactic(auto)]

mod add_fault;
mod archive_cursor;
mod archive_fault;
mod archive_laws;
mod chain;
mod chain_fault;
mod chain_laws;
mod chain_pages;
mod chain_read_fault;
mod chain_reader;
mod complete;
mod copy_id;
mod copy_write_fault;
mod cursors;
mod fault;
mod header;
mod header_codec;
mod lent_copy;
mod read;
mod reading;
mod vault;
mod write;

pub use add_fault::AddFault;
pub use archive_fault::{ArchiveFault, ArchiveWriteFault};
pub use archive_laws::{
    an_archive_has_no_fault, archives_have_these_numbers, bytes_have_one_fault,
    copies_are_spelled_apart,
};
pub use chain::Chain;
pub use chain_fault::ChainFault;
pub use chain_laws::a_chain_is_not_refused;
pub use chain_pages::{read_chain_pages, read_chain_pages_into};
pub use chain_read_fault::ChainReadFault;
pub use chain_reader::ChainReader;
pub use complete::CompleteCopy;
pub use copy_id::{CopyId, CopyKind, Decision, MAX_COPIES};
pub use copy_write_fault::CopyWriteFault;
pub use fault::CopyFault;
pub use lent_copy::LentCopy;
pub use read::read_archive;
pub use reading::ReadingCopy;
pub use vault::Vault;
pub use write::write_archive;
