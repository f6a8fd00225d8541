//! Two files that take the places of older ones, the first one first.

ghost use Rattle.std.specs.Prelude.{◌≡◌, IfErr, Ok, OnErr, OnOk};
ghost use Rattle.std.specs.String.{string_bytes};
ghost use Rattle.saved_files.specs.FileFault.{IsOfNoByte};
ghost use Rattle.saved_files.specs.Folder.{Changes, IsRenamed, IsSynced, KeepsOthers};
ghost use Rattle.saved_files.specs.Placed.{IsPlaced};
ghost use Rattle.saved_files.specs.PutBoth.{FirstAfter, IfOfSecond, IfUnwritten, IsOfPlacing};
ghost use Rattle.saved_files.specs.PutBoth.{IsWhyOfBoth, LeavesPlace, SecondAfter, fault_of};
ghost use Rattle.saved_files.specs.PutBoth.{why_of};

use crate::beside::Beside;
use crate::file_fault::FileFault;
use crate::folder::Folder;
use crate::put_both_fault::{PutBothFault, Which};
use crate::put_file::{fault_of, give_up};

/// Why a file that was synced is not in its place, or may not stay there.
#[derive(Clone, Copy, Debug, PartialEq, Eq)]
enum PlaceFault {
    Unplaced(FileFault),
    Unstored(FileFault),
}

/// Has two files that were written beside their names take them, where they were written to their
/// ends. Both are synced before one is renamed. Then the first one is renamed and the names of its
/// folder are synced, and then the second one: so where the second one has its name the first one
/// has, also after the system's end. Where they were not written to their ends they are given up.
pub(crate) fn put_both_written<F: Folder, G: Folder, E>(
    first: &mut F,
    first_name: &str,
    one: Beside<F::Written>,
    second: &mut G,
    second_name: &str,
    two: Beside<G::Written>,
    done: Result<(), E>,
) -> Result<(), PutBothFault<E>>
    requires first { F.is_claimed first.old }
    requires second { G.is_claimed second.old }
    ensures first { OnOk result (Changes
        (IsPlaced (string_bytes one.name) first_name.now (F.holds one.file))
        (F.entries first.old) (F.entries first.new)) }
    ensures second { OnOk result (Changes
        (IsPlaced (string_bytes two.name) second_name.now (G.holds two.file))
        (G.entries second.old) (G.entries second.new)) }
    ensures stored { OnOk result (F.is_stored first.new × G.is_stored second.new) }
    ensures first_left { IfErr result (λ fault. Changes
        (FirstAfter (string_bytes one.name) first_name.now (F.holds one.file) fault)
        (F.entries first.old) (F.entries first.new)) }
    ensures second_left { IfErr result (λ fault. Changes
        (SecondAfter (string_bytes two.name) second_name.now (G.holds two.file) fault)
        (G.entries second.old) (G.entries second.new)) }
    ensures first_lasts { IfErr result (IfOfSecond (F.is_stored first.new)) }
    ensures written { OnOk result (done ≡ Ok tt) }
    ensures why { IfErr result (IsWhyOfBoth done) }
    ensures first_given_up { IfErr result (IfUnwritten (F.given_up first.new ≡ F.holds one.file)) }
    ensures second_given_up { IfErr result
        (IfUnwritten (G.given_up second.new ≡ G.holds two.file)) }
{
    match done {
        Ok(()) => place_both(first, first_name, one, second, second_name, two),
        Err(why) => {
            give_up(first, one);
            give_up(second, two);
            Err(PutBothFault::Unwritten(why))
        }
    }
}

/// Syncs both files, and has them take their names, the first one first.
fn place_both<F: Folder, G: Folder, E>(
    first: &mut F,
    first_name: &str,
    one: Beside<F::Written>,
    second: &mut G,
    second_name: &str,
    two: Beside<G::Written>,
) -> Result<(), PutBothFault<E>>
    requires first { F.is_claimed first.old }
    requires second { G.is_claimed second.old }
    ensures first { OnOk result (Changes
        (IsPlaced (string_bytes one.name) first_name.now (F.holds one.file))
        (F.entries first.old) (F.entries first.new)) }
    ensures second { OnOk result (Changes
        (IsPlaced (string_bytes two.name) second_name.now (G.holds two.file))
        (G.entries second.old) (G.entries second.new)) }
    ensures stored { OnOk result (F.is_stored first.new × G.is_stored second.new) }
    ensures first_left { IfErr result (λ fault. Changes
        (FirstAfter (string_bytes one.name) first_name.now (F.holds one.file) fault)
        (F.entries first.old) (F.entries first.new)) }
    ensures second_left { IfErr result (λ fault. Changes
        (SecondAfter (string_bytes two.name) second_name.now (G.holds two.file) fault)
        (G.entries second.old) (G.entries second.new)) }
    ensures first_lasts { IfErr result (IfOfSecond (F.is_stored first.new)) }
    ensures placing { IfErr result IsOfPlacing }
{
    if let Err((which, why)) = sync_both(first, &one, second, &two) {
        give_up(first, one);
        give_up(second, two);
        return Err(PutBothFault::Unsynced(which, why));
    }
    if let Err(fault) = place(first, one, first_name) {
        give_up(second, two);
        return Err(fault.of(Which::First));
    }
    match place(second, two, second_name) {
        Ok(()) => Ok(()),
        Err(fault) => Err(fault.of(Which::Second)),
    }
}

/// Syncs both files, which have no other name yet.
fn sync_both<F: Folder, G: Folder>(
    first: &mut F,
    one: &Beside<F::Written>,
    second: &mut G,
    two: &Beside<G::Written>,
) -> Result<(), (Which, FileFault)>
    requires first { F.is_claimed first.old }
    requires second { G.is_claimed second.old }
    ensures first { OnOk result (Changes
        (IsSynced (string_bytes one.now.name) (F.holds one.now.file))
        (F.entries first.old) (F.entries first.new)) }
    ensures second { OnOk result (Changes
        (IsSynced (string_bytes two.now.name) (G.holds two.now.file))
        (G.entries second.old) (G.entries second.new)) }
    ensures first_kept { OnErr result (Changes (KeepsOthers (string_bytes one.now.name))
        (F.entries first.old) (F.entries first.new)) }
    ensures second_kept { OnErr result (Changes (KeepsOthers (string_bytes two.now.name))
        (G.entries second.old) (G.entries second.new)) }
    ensures no_byte { IfErr result (λ fault. IsOfNoByte fault.1) }
    ensures first_claimed { F.is_claimed first.new }
    ensures second_claimed { G.is_claimed second.new }
{
    if let Err(error) = second.sync(two.name.as_str(), &two.file) {
        return Err((Which::Second, fault_of(error)));
    }
    match first.sync(one.name.as_str(), &one.file) {
        Ok(()) => Ok(()),
        Err(error) => Err((Which::First, fault_of(error))),
    }
}

/// Has a file that was synced take its name, and sees that the names are stored. A file that does
/// not take its name is given up.
fn place<F: Folder>(folder: &mut F, it: Beside<F::Written>, name: &str) -> Result<(), PlaceFault>
    requires { F.is_claimed folder.old }
    ensures placed { OnOk result (Changes (IsRenamed (string_bytes it.name) name.now)
        (F.entries folder.old) (F.entries folder.new)) }
    ensures stored { OnOk result (F.is_stored folder.new) }
    ensures left { IfErr result (λ fault. Changes
        (LeavesPlace (string_bytes it.name) name.now fault)
        (F.entries folder.old) (F.entries folder.new)) }
    ensures no_byte { IfErr result (λ fault. IsOfNoByte (why_of fault)) }
    ensures claimed { F.is_claimed folder.new }
{
    if let Err(error) = folder.rename(it.name.as_str(), name) {
        give_up(folder, it);
        return Err(PlaceFault::Unplaced(fault_of(error)));
    }
    match folder.sync_names() {
        Ok(()) => Ok(()),
        Err(error) => Err(PlaceFault::Unstored(fault_of(error))),
    }
}

impl PlaceFault {
    /// This fault as that of one of two files.
    fn of<E>(self, which: Which) -> PutBothFault<E>
        ensures { result ≡ fault_of which self }
    {
        match self {
            PlaceFault::Unplaced(why) => PutBothFault::Unplaced(which, why),
            PlaceFault::Unstored(why) => PutBothFault::Unstored(which, why),
        }
    }
}
