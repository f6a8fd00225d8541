//! Devices on files.

pub use file_devices::{FailedFile, FileLog, FileStore};
