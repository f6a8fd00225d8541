//! Laws of what a retired engine saves to files.

ghost use Rattle.std.specs.Prelude.{◌≡◌, ◌⊎◌, List};
ghost use Rattle.page_core.specs.declared.page.Page.{Page};
ghost use Rattle.log_records.specs.Log.{Log};
ghost use Rattle.log_store.specs.declared.master.Master.{Master};
ghost use Rattle.copy_vault.specs.Copy.{CopyView};
ghost use Rattle.media_restore.specs.declared.files_fault.RestoreFault.{RestoreFault};
ghost use Rattle.media_restore.specs.declared.files_fault.RestoreFault.TheVariants as restore_fault;
ghost use Rattle.media_restore.specs.Files.{AreCovering, AreSound, HasParts, IsRestoredFrom};
ghost use Rattle.media_restore.specs.Files.{Refused};
ghost use Rattle.media_restore.specs.Saved.{AreLeft, files_of};

/// What an engine leaves has a spelling, each copy of a chain too, and no page of the chain lacks a
/// change below the redo point of its last copy.
pub fn what_is_left_can_be_saved()
    ensures parts { (log : Log) (master : Master) (copies : List CopyView)
        → AreLeft log master copies
        → HasParts (files_of log master copies) log master copies }
    ensures covering { (log : Log) (master : Master) (copies : List CopyView)
        → AreLeft log master copies → AreCovering log copies }
{}

/// A restore from the files that this was saved to is refused only for lack of memory or a failing
/// reader, and never for what is in them.
pub fn saved_files_are_right()
    ensures { (log : Log) (master : Master) (copies : List CopyView) (fault : RestoreFault)
        → AreLeft log master copies → Refused (files_of log master copies) fault
        → (fault ≡ restore_fault.OutOfMemory) ⊎ (fault ≡ restore_fault.ReadFault) }
{}

/// A restore from such files gives the pages that the saved log makes once its open transactions
/// are undone, with what was committed.
pub fn saved_files_restore_what_was_committed()
    ensures { (log : Log) (master : Master) (copies : List CopyView) (pages : List Page)
        → AreLeft log master copies → IsRestoredFrom (files_of log master copies) pages
        → AreSound log pages }
{}
