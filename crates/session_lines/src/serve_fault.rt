//! Why the lines of an open database came to an end before the input did.

use std::alloc::AllocError;

/// Why the lines came to an end before the input did.
#[derive(Clone, Copy, Debug, PartialEq, Eq)]
pub enum ServeFault {
    OutOfMemory,
    /// The input could not be read.
    ReadFault,
    /// A reply could not be written. So many bytes of its line went out.
    WriteFault(u64),
}

impl From<AllocError> for ServeFault {
    ghost use Rattle.std.specs.Prelude.{◌≡◌};
    ghost use Rattle.session_lines.specs.declared.serve_fault.ServeFault.TheVariants.{OutOfMemory};

    ghost from_gives = { λ _ e. e ≡ OutOfMemory };

    fn from(_error: AllocError) -> ServeFault {
        ServeFault::OutOfMemory
    }
}
