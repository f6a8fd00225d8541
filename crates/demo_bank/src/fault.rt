//! Why a case comes to no end.

use crate::halt::{FileTrouble, Halt};
use imgcopy_engine::{
    CopyFault, LoadFault, PlayFault, RedoFault, Refusal, SaveFault, SettleFault, UndoFault,
};
use std::alloc::AllocError;
use thiserror::Error;

/// Why a case comes to no end. Its text is the line of what was refused.
#[derive(Debug, Drop, Error)]
pub enum Fault {
    #[error("E1 OutOfMemory")]
    Memory(#[from(alloc)] AllocError),
    #[error(transparent)]
    Play(#[from] PlayFault),
    #[error(transparent)]
    Call(#[from] Refusal),
    #[error(transparent)]
    Halt(#[from] Halt),
    #[error(transparent)]
    File(#[from] FileTrouble),
    #[error(transparent)]
    Copy(#[from] CopyFault),
    #[error("{0}")]
    Settle(SettleFault),
    #[error(transparent)]
    Save(#[from] SaveFault),
    #[error(transparent)]
    Load(#[from] LoadFault),
    #[error(transparent)]
    Redo(#[from] RedoFault),
    #[error(transparent)]
    Undo(#[from] UndoFault),
    #[error("copy {0}: the restored pages are not those that plain redo of the log makes")]
    Differs(u32),
}
