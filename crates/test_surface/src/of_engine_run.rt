//! The engine for many threads.

pub use engine_run::{
    ChangeReceipt, Held, HoldGate, IdleSessions, ReadReceipt, Session, SessionDesk, Shared,
    StepReceipt, TxnStep, Unsettled, Work, settle,
};
