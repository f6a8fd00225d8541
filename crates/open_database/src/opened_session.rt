//! A database that was just opened, as a session.

ghost use Rattle.std.specs.Prelude.{ℕ, ◌≡◌, IfOk, IfSome, List, Option};
ghost use Rattle.buffer_pool.specs.Pool.{IsFrameCount};
ghost use Rattle.log_records.specs.Log.{IsPageCount};
ghost use Rattle.database_opening.specs.Opened.{Begins, HandsOn};

use aries_core::Engine;
use database_files::{DatabaseFolder, Diagnostics, KeptManifest, OpenFault};
use database_opening::{FirstLine, OpenCall, ResumedDatabase, opened};
use database_session::{OpenDatabase, Placed, UnplacedCopies};
use file_devices::FileLog;
use fuzzy_ckpt::Point;
use log_store::LogDevice;
use page_store::PageStore;
use saved_files::Folder;
use session_lines::Tally;
use system_files::Notes;

/// A database that was just opened.
#[derive(Drop)]
pub struct OpenedSession<'a, F: Folder, S: PageStore, D: LogDevice> {
    pub session: OpenDatabase<'a, F, S, D>,
    pub kept: KeptManifest,
    pub first: FirstLine,
    /// The last checkpoint of the log, if its master record is not in place.
    pub point: Option<Point>,
}

/// Claims a folder and opens the database in it, with the manifest that it keeps.
pub fn session_in<'a, F: DatabaseFolder + Drop>(
    diagnostics: &Diagnostics<'a>,
    mut folder: F,
    notes: (&'a Notes, &'a Notes),
    call: &OpenCall<'_>,
) -> Result<OpenedSession<'a, F, F::Volume, FileLog<F::LogDisk>>, OpenFault>
    requires pages { IfSome call.now.pages IsPageCount }
    requires frames { IsFrameCount call.now.frames }
    ensures begins { IfOk result (λ it. (log : Option ℕ) × (ids : List ℕ)
        × Begins (F.entries folder) call.now.salvage log ids call.now.pages call.now.frames
        it.first it.session.engine.state) }
    // These ids are not given, and the master record of this checkpoint is to be put.
    ensures handed { IfOk result (λ it. HandsOn (F.entries folder) call.now.salvage it.first
        it.session.engine.state it.session.unread.items it.point it.session.is_master_wrong) }
    ensures claimed { IfOk result (λ it. F.is_claimed it.session.folder) }
{
    let unplaced = UnplacedCopies::new(diagnostics.alloc)?;
    let ResumedDatabase {
        engine,
        first,
        point,
        is_master_wrong,
        unread,
        database,
        manifest,
        sums,
    } = opened(diagnostics, &mut folder, call)?;
    let pages = engine.log().header_pages();
    let kept = KeptManifest::begin(diagnostics, &folder, database, (manifest, sums), pages)?;
    let mut session = session_on(diagnostics, folder, notes, engine, unplaced);
    session.is_master_wrong = is_master_wrong;
    session.unread = unread;
    Ok(OpenedSession {
        session,
        kept,
        first,
        point,
    })
}

/// An open database in whose folder all that was made is in place.
pub fn session_on<'a, F: Folder, S: PageStore, D: LogDevice>(
    diagnostics: &Diagnostics<'a>,
    folder: F,
    notes: (&'a Notes, &'a Notes),
    engine: Engine<S, D>,
    unplaced: UnplacedCopies,
) -> OpenDatabase<'a, F, S, D>
    ensures engine { result.engine ≡ engine }
    ensures folder { result.folder ≡ folder }
{
    let alloc = diagnostics.alloc;
    OpenDatabase {
        alloc,
        engine,
        folder,
        diagnostics: *diagnostics,
        notes: notes.0,
        store_notes: notes.1,
        unplaced,
        point: None,
        placed: Placed::nothing(),
        is_master_wrong: false,
        unread: Vec::new(alloc),
        tally: Tally::new(),
        has_failed: false,
    }
}
