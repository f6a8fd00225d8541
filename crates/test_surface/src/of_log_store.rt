//! Records and their bytes, logs on devices, and the reading of logs.

pub use log_store::{
    Checkpoints, DeviceFault, FaultyDevice, History, Log, LogDevice, LogImage, LogReadFault,
    Master, MemDevice, Record, decode, encode, read_log,
};
