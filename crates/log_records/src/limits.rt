//! How large a log may be.

/// How many bytes the header has.
pub const HEADER_BYTES: usize = 64;

/// How many bytes a record has.
pub const RECORD_BYTES: usize = 64;

/// How many records a log may have.
pub const MAX_RECORDS: usize = 1_048_576;

/// How many bytes the longest log has: its header, and as many records as a log may have.
pub const MAX_LOG_BYTES: usize = 67_108_928;

/// How many transactions may be open at once.
pub const MAX_OPEN: usize = 64;
