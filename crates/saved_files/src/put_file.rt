//! A file that takes the place of an older one.

ghost use Rattle.std.specs.Prelude.{◌≡◌, ◌++◌, IfErr, IfOk, Ok, OnErr, OnOk, Some, codes};
ghost use Rattle.std.specs.Prelude.{decimal};
ghost use Rattle.std.specs.String.{string_bytes};
ghost use Rattle.saved_files.specs.FileFault.{IsOfNoByte};
ghost use Rattle.saved_files.specs.Folder.{Changes, IsBeside, IsMade, IsSame, KeepsOthers};
ghost use Rattle.saved_files.specs.Folder.{LeavesEither, LeavesWhole, Puts};
ghost use Rattle.saved_files.specs.Placed.{IsPlaced, IsUnplaced, IsWhy, LeavesTaken};
ghost use Rattle.saved_files.specs.Placed.{LeavesWritten};
ghost use Rattle.saved_files.specs.PutFault.{IsOfSource, LeavesPut, bytes_by};

use crate::beside::Beside;
use crate::file_fault::FileFault;
use crate::folder::Folder;
use crate::put_fault::PutFault;
use crate::source::Source;
use std::alloc::{AllocError, Global};
use std::io;
use std::io::ErrorKind;

/// How many unfinished files of one name may stand in a folder.
const MOST_UNFINISHED: u32 = 1_000;

/// Puts a file in the place of an older one of this name, or where nothing stood. It is written
/// beside the name, as `NAME.unfinished-1`, or with the next number where something has that name.
/// It is then synced, and renamed: so at a fault the name has the old file or the new one, whole,
/// and so it has after a crash. The names of the folder are not synced.
pub fn put_in_place<F: Folder, S: Source>(
    folder: &mut F,
    alloc: Global,
    name: &str,
    source: &mut S,
) -> Result<(), PutFault<S::Fault>>
    requires { F.is_claimed folder.old }
    ensures put { OnOk result (Changes (Puts name.now (bytes_by (S.gives source.old)))
        (F.entries folder.old) (F.entries folder.new)) }
    ensures left { IfErr result (λ fault. Changes
        (LeavesPut name.now (S.gives source.old) (S.leaves source.old)
        (F.given_up folder.old) (F.given_up folder.new) fault)
        (F.entries folder.old) (F.entries folder.new)) }
    ensures crash { Changes (LeavesWhole name.now (bytes_by (S.gives source.old))
        (F.may_leave folder.old) (F.may_leave folder.new))
        (F.entries folder.old) (F.entries folder.new) }
    ensures of_source { IfErr result (IsOfSource (S.leaves source.old)) }
    ensures claimed { F.is_claimed folder.new }
    ensures given_up { OnOk result (F.given_up folder.new ≡ F.given_up folder.old) }
{
    let (beside, mut file) = match make_beside(folder, alloc, name) {
        Ok(made) => made,
        Err(why) => return Err(PutFault::Unmade(why)),
    };
    let done = source.write_to(alloc, &mut file);
    let it = Beside {
        name: beside,
        file: F::finish(file),
    };
    put_written(folder, it, name, done)
}

/// Has a file that was written beside its name take its name, where it was written to its end. Else
/// it is given up.
pub(crate) fn put_written<F: Folder, E>(
    folder: &mut F,
    it: Beside<F::Written>,
    name: &str,
    done: Result<(), E>,
) -> Result<(), PutFault<E>>
    requires { F.is_claimed folder.old }
    ensures placed { OnOk result (Changes
        (IsPlaced (string_bytes it.name) name.now (F.holds it.file))
        (F.entries folder.old) (F.entries folder.new)) }
    ensures left { IfErr result (λ fault. Changes
        (LeavesWritten (string_bytes it.name) name.now (F.holds it.file) fault)
        (F.entries folder.old) (F.entries folder.new)) }
    ensures crash { Changes (LeavesTaken (string_bytes it.name) name.now
        (λ bytes. (done ≡ Ok tt) × (F.holds it.file ≡ Some bytes))
        (F.may_leave folder.old) (F.may_leave folder.new))
        (F.entries folder.old) (F.entries folder.new) }
    ensures written { OnOk result (done ≡ Ok tt) }
    ensures why { IfErr result (IsWhy done) }
    ensures claimed { F.is_claimed folder.new }
    ensures kept { OnOk result (F.given_up folder.new ≡ F.given_up folder.old) }
    ensures given_up { OnErr result (F.given_up folder.new ≡ F.holds it.file) }
{
    if let Err(why) = done {
        give_up(folder, it);
        return Err(PutFault::Unwritten(why));
    }
    match place(folder, it.name.as_str(), name, &it.file) {
        Ok(()) => Ok(()),
        Err(why) => {
            give_up(folder, it);
            Err(PutFault::Unplaced(why))
        }
    }
}

/// Removes a file that is not put in its place. Where even this fails it is left, and the next one
/// gets another name.
pub(crate) fn give_up<F: Folder>(folder: &mut F, it: Beside<F::Written>)
    requires { F.is_claimed folder.old }
    ensures kept { Changes (KeepsOthers (string_bytes it.name))
        (F.entries folder.old) (F.entries folder.new) }
    ensures crash { Changes (LeavesEither (F.may_leave folder.old) (F.may_leave folder.new))
        (F.entries folder.old) (F.entries folder.new) }
    ensures given_up { F.given_up folder.new ≡ F.holds it.file }
    ensures claimed { F.is_claimed folder.new }
{
    let Beside { name, file } = it;
    let _ = folder.give_up(name.as_str(), file);
}

/// Makes a file beside this name, which has no bytes, and answers the name that it has until it is
/// put in its place: `NAME.unfinished-1`, or with the next number where something has that name.
pub fn make_beside<F: Folder>(
    folder: &mut F,
    alloc: Global,
    name: &str,
) -> Result<(String, F::File), FileFault>
    requires { F.is_claimed folder.old }
    ensures made { IfOk result (λ it.
        Changes (IsMade (string_bytes it.0) (F.File.contents it.1))
        (F.entries folder.old) (F.entries folder.new)) }
    ensures beside { IfOk result (λ it. IsBeside name.now (string_bytes it.0)) }
    ensures same { OnErr result
        (Changes IsSame (F.entries folder.old) (F.entries folder.new)) }
    ensures crash { Changes (LeavesEither (F.may_leave folder.old) (F.may_leave folder.new))
        (F.entries folder.old) (F.entries folder.new) }
    ensures no_byte { IfErr result IsOfNoByte }
    ensures claimed { F.is_claimed folder.new }
    ensures given_up { F.given_up folder.new ≡ F.given_up folder.old }
{
    for number in 1..=MOST_UNFINISHED {
        let Ok(beside) = name_beside(alloc, name, number) else {
            return Err(FileFault::OutOfMemory);
        };
        match folder.make(beside.as_str()) {
            Ok(file) => return Ok((beside, file)),
            Err(error) => if error.kind() != ErrorKind::AlreadyExists {
                return Err(fault_of(error));
            },
        }
    }
    Err(FileFault::WriteFault(0))
}

/// The name of this number beside a name.
fn name_beside(alloc: Global, name: &str, number: u32) -> Result<String, AllocError>
    ensures { IfOk result (λ text. IsBeside name.now (string_bytes text)) }
{
    text_beside(alloc, name, number)
}

fn text_beside(alloc: Global, name: &str, number: u32) -> Result<String, AllocError>
    ensures { IfOk result (λ text.
        string_bytes text ≡ name.now ++ (codes ".unfinished-" ++ decimal number)) }
{
    let mut text = String::from_str(alloc, name)?;
    put_number(&mut text, number)?;
    Ok(text)
}

fn put_number(text: &mut String, number: u32) -> Result<(), AllocError>
    ensures { OnOk result (string_bytes text.new
        ≡ string_bytes text.old ++ (codes ".unfinished-" ++ decimal number)) }
{
    write!(text, ".unfinished-{number}")
}

/// Has a file that was written beside its name take its name.
fn place<F: Folder>(
    folder: &mut F,
    beside: &str,
    name: &str,
    file: &F::Written,
) -> Result<(), FileFault>
    requires { F.is_claimed folder.old }
    ensures placed { OnOk result (Changes (IsPlaced beside.now name.now (F.holds file.now))
        (F.entries folder.old) (F.entries folder.new)) }
    ensures unplaced { OnErr result (Changes (IsUnplaced beside.now name.now (F.holds file.now))
        (F.entries folder.old) (F.entries folder.new)) }
    ensures crash { Changes (LeavesTaken beside.now name.now
        (λ bytes. F.holds file.now ≡ Some bytes) (F.may_leave folder.old) (F.may_leave folder.new))
        (F.entries folder.old) (F.entries folder.new) }
    ensures no_byte { IfErr result IsOfNoByte }
    ensures claimed { F.is_claimed folder.new }
    ensures given_up { F.given_up folder.new ≡ F.given_up folder.old }
{
    if let Err(error) = folder.sync(beside, file) {
        return Err(fault_of(error));
    }
    match folder.rename(beside, name) {
        Ok(()) => Ok(()),
        Err(error) => Err(fault_of(error)),
    }
}

/// What it is of a file that a call of its folder failed.
pub(crate) fn fault_of(error: io::Error) -> FileFault
    ensures { IsOfNoByte result }
{
    match error.kind() {
        ErrorKind::OutOfMemory => FileFault::OutOfMemory,
        _ => FileFault::WriteFault(0),
    }
}
