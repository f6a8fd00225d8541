//! One engine for many threads: each call is one hold of the one lock round it.
#![tactic(auto)]

mod beginning;
mod check_ages;
mod check_sessions;
mod check_works;
mod copier;
mod copy_alone;
mod copy_writer;
mod desk;
mod extend;
mod fault;
mod flush;
mod folder;
mod gate;
mod held;
mod held_media;
mod idle;
mod laws;
mod life;
mod opened;
mod refused;
mod repair;
mod room;
mod session;
mod settled;
mod settling;
mod shared;
mod spare;
mod work;
mod worker;

pub use beginning::Beginning;
pub use desk::SessionDesk;
pub use fault::SettleFault;
pub use gate::{HoldGate, OpenGate};
pub use held::Held;
pub use idle::IdleSessions;
pub use laws::{
    a_free_lock_guards_a_fit_engine, a_peek_is_of_its_slot, a_session_reads_its_own_writes,
    an_acknowledged_commit_is_kept, an_answered_copy_is_new, an_answered_copy_restores,
    changes_add_up_to_updates, each_change_was_answered_once, each_record_was_answered_once,
    what_is_wrong_is_not_settled,
};
pub use life::Life;
pub use opened::Opened;
pub use session::Session;
pub use settled::Settled;
pub use settlement::{ChangeReceipt, ReadReceipt, Receipt, StepReceipt, TxnStep};
pub use settling::{Unsettled, settle, settle_whole};
pub use shared::{MAX_SESSIONS, Shared};
pub use work::Work;
