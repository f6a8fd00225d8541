//! A checkpoint and a copy of a closed database.

ghost use Rattle.std.specs.Prelude.{◌≡◌, IfOk, OnOk};
ghost use Rattle.copy_vault.specs.Vault.{complete_of, state_of};
ghost use Rattle.saved_files.specs.Folder.{Changes};
ghost use Rattle.database_backup.specs.Backups.{BacksUp, IsAskedFor, IsBackup, KeepsTheRest};
ghost use Rattle.database_backup.specs.Backups.{WasBackedUp, chain_from, parent_of_copy};
ghost use Rattle.open_database.specs.declared.open.OpenEnd.TheVariants.{Well};

use crate::checkpoint_and_copy::checkpoint_and_copy;
use crate::second_folder::put_beside;
use copy_vault::{CopyId, CopyKind, MAX_COPIES, Vault};
use database_files::{DatabaseFolder, Diagnostics, KeptManifest, OpenFault};
use database_opening::OpenCall;
use database_session::{OpenDatabase, TellsWhy, newest};
use log_store::LogDevice;
use open_database::{OpenEnd, OpenedSession, put_point, reserve_standard_streams, session_in};
use page_core::MAX_PAGES;
use page_store::PageStore;
use sqlite_disk::{Start, Wary};
use std::alloc::{AllocError, Global};
use system_database::{SystemDatabase, output};
use system_files::Notes;

/// What is to be backed up, and how.
#[derive(Clone, Copy)]
pub struct BackupCall<'a> {
    /// The folder of a closed database.
    pub folder: &'a str,
    /// The copy that the new one stands on. Without it that is the newest one.
    pub on: Option<u32>,
    /// The copy is a full one.
    pub full: bool,
    /// Another folder that gets the log, the master record and the copy too.
    pub into: Option<&'a str>,
}

/// Opens the database in a folder, makes a checkpoint and a copy, and closes it. The copy stands on
/// the newest one, if there is one and the call does not say otherwise. Of a second folder, the log
/// there is replaced only by one that begins with it. What the log's file had is supposed by `start`.
pub fn backup_folder<S: Start>(rt: &HostRuntime, call: &BackupCall<'_>, start: S) -> OpenEnd
    ensures { result ≡ Well → WasBackedUp call.now.full call.now.on }
{
    // Where a standard stream is closed, a file of the database must not get its number.
    let _reserved = reserve_standard_streams(rt);
    let (notes, store_notes) = (Notes::new(), Notes::new());
    let diagnostics = Diagnostics::new(rt, call.folder);
    let open = OpenCall {
        folder: call.folder,
        pages: None,
        frames: MAX_PAGES,
        salvage: false,
        strict: true,
    };
    let folder = SystemDatabase::new(rt, call.folder, (&notes, &store_notes), Some(start));
    match session_in(&diagnostics, folder, (&notes, &store_notes), &open) {
        Ok(
            OpenedSession {
                mut session,
                mut kept,
                point,
                ..
            },
        ) => {
            put_point(&mut session, point);
            backed_up(rt, &mut session, &mut kept, call)
        }
        Err(fault) => {
            diagnostics.tell_fault(&fault, &notes);
            OpenEnd::Failed
        }
    }
}

/// Makes the checkpoint and the copy, closes the database, and fills the second folder.
fn backed_up<F: DatabaseFolder, S: PageStore, D: LogDevice + TellsWhy>(
    rt: &HostRuntime,
    session: &mut OpenDatabase<'_, F, S, D>,
    kept: &mut KeptManifest,
    call: &BackupCall<'_>,
) -> OpenEnd
    requires { F.is_claimed session.old.folder }
    ensures { result ≡ Well → BacksUp call.now.full call.now.on session.old.engine.state
        session.new.engine.state }
{
    let on = parent_for(call, session.engine.copies());
    let notes = Notes::new();
    let copied = checkpoint_and_copy(session, on, &mut output(rt, &notes), &notes);
    session.close(kept);
    match copied {
        Some(id) if !session.has_failed => put_into(rt, session, kept, id, call),
        _ => OpenEnd::Failed,
    }
}

/// The copy that the new one is to stand on.
fn parent_for(call: &BackupCall<'_>, copies: &Vault) -> Option<u32>
    ensures { IsAskedFor call.now.full call.now.on result }
{
    match (call.full, call.on) {
        (true, _) => None,
        (false, Some(id)) => Some(id),
        (false, None) => newest(copies).map(|id| id.0),
    }
}

/// Puts the log, the master record and the chain of a copy into the second folder, if there is one.
fn put_into<F: DatabaseFolder, S: PageStore, D: LogDevice>(
    rt: &HostRuntime,
    session: &OpenDatabase<'_, F, S, D>,
    kept: &KeptManifest,
    id: u32,
    call: &BackupCall<'_>,
) -> OpenEnd {
    let Some(into) = call.into else {
        return OpenEnd::Well;
    };
    let notes = Notes::new();
    let diagnostics = Diagnostics::new(rt, into);
    let mut folder = SystemDatabase::<Wary>::new(rt, into, (&notes, &notes), None);
    match put_locked(&diagnostics, session, kept, id, &mut folder) {
        Ok(()) => OpenEnd::Well,
        Err(fault) => {
            diagnostics.tell_fault(&fault, &notes);
            OpenEnd::Failed
        }
    }
}

/// Puts them into a second folder that no one has open. Its log may be open by another name, of
/// another folder: so that is locked as well, before anything there is replaced.
fn put_locked<F: DatabaseFolder, G: DatabaseFolder, S: PageStore, D: LogDevice>(
    diagnostics: &Diagnostics<'_>,
    session: &OpenDatabase<'_, F, S, D>,
    kept: &KeptManifest,
    id: u32,
    folder: &mut G,
) -> Result<(), OpenFault> {
    folder.claim_or_wait()?;
    let _log = folder.open_log(false)?;
    put_chain(diagnostics, session, kept, id, folder)
}

/// Puts the log, the master record and the chain of a copy into a second folder.
fn put_chain<F: DatabaseFolder, G: DatabaseFolder, S: PageStore, D: LogDevice>(
    diagnostics: &Diagnostics<'_>,
    session: &OpenDatabase<'_, F, S, D>,
    kept: &KeptManifest,
    id: u32,
    folder: &mut G,
) -> Result<(), OpenFault>
    ensures put { OnOk result (Changes (IsBackup (F.entries session.now.folder)
        (chain_from session.now.engine.state.copies id) kept.now.manifest.database)
        (G.entries folder.old) (G.entries folder.new)) }
    ensures stored { OnOk result (G.is_stored folder.new) }
    ensures rest { Changes (KeepsTheRest (F.entries session.now.folder)
        (chain_from session.now.engine.state.copies id) kept.now.manifest.database)
        (G.entries folder.old) (G.entries folder.new) }
{
    let chain = chain_of(session.alloc, session.engine.copies(), CopyId(id))?;
    let database = kept.manifest.database();
    put_beside(diagnostics, &session.folder, folder, &chain, database)
}

/// The copies of this one's chain, that one first.
fn chain_of(alloc: Global, vault: &Vault, id: CopyId) -> Result<Vec<CopyId>, AllocError>
    ensures { IfOk result (λ it. it.items ≡ chain_from vault.now.copies id) }
{
    let mut chain = Vec::new(alloc);
    let mut next = Some(id);
    for _ in 0..MAX_COPIES {
        let Some(id) = next else {
            return Ok(chain);
        };
        chain.push(id)?;
        next = parent_of(vault, id);
    }
    Ok(chain)
}

/// The copy that a complete one stands on.
fn parent_of(vault: &Vault, id: CopyId) -> Option<CopyId>
    ensures { result ≡ parent_of_copy (complete_of (state_of vault.now.copies id)) }
{
    match vault.complete(id)?.kind() {
        CopyKind::Full => None,
        CopyKind::Inc(parent) => Some(parent),
    }
}
