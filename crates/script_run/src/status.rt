//! The status that the program ends with.

ghost use Rattle.std.specs.Prelude.{◌≡◌};
ghost use Rattle.script_run.specs.Status.{status_of_audit, status_of_refused, status_of_restore};

use copy_audit::Unsound;
use loser_undo::UndoFault;
use media_restore::{LoadFault, Refused, RestoreFault};

/// The status of a restore or an audit that was refused for what was asked of it, and of a strict
/// run of which a call was refused.
pub const REFUSED_STATUS: u8 = 1;

/// The status of any other fault: of the words, of an input, of the output, or of memory.
pub const FAULT_STATUS: u8 = 2;

/// The status of a restore from files that was not done.
pub fn restore_status(fault: &RestoreFault) -> u8
    ensures { result ≡ status_of_restore fault.now }
{
    match fault {
        RestoreFault::LogFull
        | RestoreFault::ChainBroken(_)
        | RestoreFault::RedoBeyondLog
        | RestoreFault::PageBeyondLog(_) => REFUSED_STATUS,
        _ => FAULT_STATUS,
    }
}

/// The status of an audit that found no sound chain.
pub fn audit_status(fault: &Unsound) -> u8
    ensures { result ≡ status_of_audit fault.now }
{
    match fault {
        Unsound::ChainBroken(_)
        | Unsound::RedoBeyondLog
        | Unsound::PageBeyondLog(_)
        | Unsound::Unsound(_, _) => REFUSED_STATUS,
        _ => FAULT_STATUS,
    }
}

/// The status of a refused last restore of a script.
pub fn refused_status(why: &Refused) -> u8
    ensures { result ≡ status_of_refused why.now }
{
    match why {
        Refused::Load(LoadFault::OutOfMemory) => FAULT_STATUS,
        Refused::Load(_) | Refused::Undo(UndoFault::LogFull) => REFUSED_STATUS,
        _ => FAULT_STATUS,
    }
}
