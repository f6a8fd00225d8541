//! Image copies, their chains and their archives.

pub use copy_vault::{
    AddFault, ArchiveFault, ArchiveWriteFault, Chain, ChainFault, ChainReadFault, ChainReader,
    CompleteCopy, CopyFault, CopyId, CopyKind, CopyWriteFault, Decision, LentCopy, MAX_COPIES,
    ReadingCopy, Vault, a_chain_is_not_refused, an_archive_has_no_fault,
    archives_have_these_numbers, bytes_have_one_fault, copies_are_spelled_apart, read_archive,
    read_chain_pages, read_chain_pages_into, write_archive,
};
