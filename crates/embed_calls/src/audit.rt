//! Audits image copies against a log.

ghost use Rattle.std.specs.Prelude.{◌≡◌, ◌≢◌, IfErr, OnOk, Some, length, sum};
ghost use Rattle.copy_audit.specs.Audited.{AreAudited, AreRefused};
ghost use Rattle.embed_calls.specs.Archives.{inputs_of};
ghost use Rattle.embed_calls.specs.Calls.{AreNotSound};
ghost use Rattle.embed_calls.specs.Outcome.{numbered};

use crate::archives::{add_up, archives_in};
use crate::outcome::{LENGTHS_DIFFER, Outcome};
use copy_audit::{Unsound, audit};
use std::alloc::Global;

/// Audits the archives of a chain of image copies against a log, as `imgcopy audit` does: with code
/// 0 a restore of the chain, and of the chain up to each of its members, gives what the log says.
/// The archives stand one behind another, the full copy first, and each is as long as its entry in
/// `lengths`.
///
/// `LENGTHS_DIFFER` comes where the lengths do not add up to the archives' bytes. The other faults
/// are those of `check_log`, and of the archives 36 with an offset in the archive, 37 with the id of
/// a copy, 38, 39, 40 with a page's number, and 41 with the id of a copy and the number of a page.
pub fn audit_archives(alloc: Global, log: &[u8], archives: &[u8], lengths: &[usize]) -> Outcome
    ensures sound { result.code ≡ 0
        → AreAudited (Some log.now) (inputs_of archives.now lengths.now) }
    ensures lengths { result.code ≡ 0 → sum lengths.now ≡ length archives.now }
    ensures differ { result.code ≡ LENGTHS_DIFFER → (result ≡ numbered LENGTHS_DIFFER 0)
        × (sum lengths.now ≢ length archives.now) }
    ensures refused { result.code ≢ 0 → result.code ≢ LENGTHS_DIFFER
        → AreNotSound log.now archives.now lengths.now result }
{
    if !add_up(lengths, archives.len()) {
        return Outcome::numbered(LENGTHS_DIFFER, 0);
    }
    match audit_apart(alloc, log, archives, lengths) {
        Ok(()) => Outcome::answers(0, 0, 0),
        Err(why) => Outcome::from(why),
    }
}

/// Audits archives whose lengths add up.
fn audit_apart(alloc: Global, log: &[u8], archives: &[u8], lengths: &[usize]) -> Result<(), Unsound>
    requires { sum lengths.now ≡ length archives.now }
    ensures sound { OnOk result (AreAudited (Some log.now) (inputs_of archives.now lengths.now)) }
    ensures err { IfErr result (AreRefused (Some log.now) (inputs_of archives.now lengths.now)) }
{
    let mut reader = log;
    let mut readers = archives_in(alloc, archives, lengths)?;
    audit(alloc, &mut reader, &mut readers)?;
    Ok(())
}
