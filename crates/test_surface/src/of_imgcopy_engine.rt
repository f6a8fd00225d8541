//! All that a program outside needs of the engine, under one name.

pub use imgcopy_engine::{
    Calls, ChangeReceipt, Client, Committed, CopyId, CopyKind, Engine, FileLog, FileStore,
    HoldGate, IdleSessions, LogDevice, Lsn, MemDevice, MemStore, NotDone, OpenGate, Page, PageNo,
    PageStore, ReadReceipt, Receipt, Refusal, Restarted, Retired, RunFault, Session, SessionDesk,
    Setup, Shared, SlotNo, StepReceipt, Stop, SystemFolder, Task, TxnNo, TxnStep, Undone,
    UndoneVolume, Unsettled, Work, attempt, audit, finish, load, log_in, put_in_place,
    read_archive, reopen_files, restart, restore_files, roll_back, run_new, run_on, settle,
    step_back, store_of, transact,
};
