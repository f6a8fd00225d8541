//! What holds of all files that are checked.

ghost use Rattle.std.specs.Prelude.{ℕ, ◌≡◌, ◌≢◌, ◌<◌, ◌⊎◌, ◌^◌, List, Option, Some, length, map, true};
ghost use Rattle.std.specs.List.{AllByRecursion};
ghost use Rattle.manifest.specs.Checking.{IsNamed, part_of};
ghost use Rattle.manifest.specs.Sums.{Collide};
ghost use Rattle.manifest.specs.declared.entry.FileSum.{FileSum as TheSum};
ghost use Rattle.copy_audit.specs.Audited.{AreAudited};
ghost use Rattle.media_restore.specs.Files.{WritesPart, WritesVolume};
ghost use Rattle.media_restore.specs.FilesLog.{WritesBoth};
ghost use Rattle.saved_files.specs.Restored.{files_by};
ghost use Rattle.saved_files.specs.declared.restore_names.RestoreNames.{RestoreNames};
ghost use Rattle.checked_files.specs.Checked.{AreRight, IsRightIn, bytes_by};
ghost use Rattle.checked_files.specs.declared.expected.Expected.{Expected};
ghost use Rattle.manifest.specs.Entries.{Listed, file_of};
ghost use Rattle.checked_files.specs.Known.{FitsLength, is_behind, known_of};
ghost use Rattle.checked_files.specs.declared.known.Known.TheVariants.{Named};
ghost use Rattle.checked_files.specs.declared.known.ManifestUse.{ManifestUse};
ghost use Rattle.checked_files.specs.declared.known.ManifestUse.TheVariants.{Aside};
ghost use Rattle.checked_files.specs.declared.known.ReadFile.{ReadFile};

/// A restore of checked files writes a volume, or a part of one, only where each file that it reads
/// is the one that a manifest names.
pub fn restored_files_are_named()
    ensures volume { (bytes : List ℕ → Option (List ℕ)) (expected : List Expected)
        (names : RestoreNames) (old new : Option (List ℕ))
        → WritesVolume (files_by (bytes_by bytes expected) names) old new
        → AreRight bytes expected names }
    ensures part { (bytes : List ℕ → Option (List ℕ)) (expected : List Expected)
        (names : RestoreNames) (old new : Option (List ℕ)) (done : ℕ)
        → WritesPart (files_by (bytes_by bytes expected) names) old new done
        → AreRight bytes expected names }
    ensures both { (bytes : List ℕ → Option (List ℕ)) (expected : List Expected)
        (names : RestoreNames) (old new log_old log_new : Option (List ℕ))
        → WritesBoth (files_by (bytes_by bytes expected) names) old new log_old log_new
        → AreRight bytes expected names }
{}

/// An audit finds checked files sound only where each of them is the one that a manifest names.
pub fn audited_files_are_named()
    ensures log { (bytes : List ℕ → Option (List ℕ)) (expected : List Expected)
        (log : List ℕ) (archives : List (List ℕ))
        → AreAudited (bytes_by bytes expected log) (map (bytes_by bytes expected) archives)
        → IsRightIn bytes expected log }
    ensures archives { (bytes : List ℕ → Option (List ℕ)) (expected : List Expected)
        (log : List ℕ) (archives : List (List ℕ))
        → AreAudited (bytes_by bytes expected log) (map (bytes_by bytes expected) archives)
        → AllByRecursion (IsRightIn bytes expected) archives }
{}

/// Where two files are the one that is named, what is summed of them is the same, or two texts with
/// one digest are at hand.
pub fn named_files_are_one()
    ensures { (file : TheSum) (made found : List ℕ) → IsNamed file made → IsNamed file found
        → part_of file found ≢ part_of file made
        → Collide (part_of file found) (part_of file made) }
{}

/// A file that a manifest names, which stands beside it or is told, has to be that file, unless it is
/// told that none counts, or no more than a front of it may count, or it is the master record beside
/// a log that has grown.
pub fn left_aside_for_a_reason()
    ensures { (choice : ManifestUse) (manifest : Listed) (it : ReadFile) (file : TheSum)
        → file_of it.name.now manifest.entries ≡ Some file
        → (known_of choice (Some manifest) it ≡ Named file)
        ⊎ (choice ≡ Aside) ⊎ (it.in_part ≡ true) ⊎ (is_behind manifest it ≡ true) }
{}

/// The file that is named has a length that fits.
pub fn named_files_fit()
    ensures { (file : TheSum) (bytes : List ℕ) → length bytes < 2 ^ 64 → IsNamed file bytes
        → FitsLength file (length bytes) }
{}
