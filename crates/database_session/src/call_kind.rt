//! What a call is to do beside the engine's step.

ghost use Rattle.engine_calls.specs.EventFits.{EventFits};
ghost use Rattle.database_session.specs.Calls.{IsOfKind};

use aries_core::Event;

/// What a call is to do beside the engine's step.
#[derive(Clone, Copy, Debug, PartialEq, Eq)]
pub(crate) enum CallKind {
    /// The copy of this id is made complete, and its file is put in place.
    Seals(u32),
    /// A checkpoint is ended, and its master record is put in place.
    EndsCheckpoint,
    /// A copy is begun: a full one, or one on this parent.
    BeginsCopy(Option<u32>),
    /// Nothing.
    Plain,
}

impl CallKind {
    /// That of a call.
    pub fn of(event: &Event) -> CallKind
        ensures kind { IsOfKind event.now result }
        ensures fits { EventFits event.now }
    {
        match event {
            Event::Seal(id) => CallKind::Seals(id.0),
            Event::CkptEnd => CallKind::EndsCheckpoint,
            Event::CopyFull => CallKind::BeginsCopy(None),
            Event::CopyInc(parent) => CallKind::BeginsCopy(Some(parent.0)),
            // A number that is read is known to fit.
            Event::Set { number, .. } => {
                let _number = *number;
                CallKind::Plain
            }
            Event::Add { amount, .. } => {
                let _amount = *amount;
                CallKind::Plain
            }
            Event::Begin
            | Event::Read { .. }
            | Event::Commit(_)
            | Event::Abort(_)
            | Event::UndoStep(_)
            | Event::Savepoint(_)
            | Event::UndoTo { .. }
            | Event::Force
            | Event::WriteBegin(_)
            | Event::WriteEnd(_)
            | Event::CkptBegin
            | Event::CkptGather
            | Event::Take { .. }
            | Event::DropCopy(_)
            | Event::Repair { .. }
            | Event::Extend(_) => CallKind::Plain,
        }
    }
}
