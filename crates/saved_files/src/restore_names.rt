//! The names of the files that a restore reads.

/// The names of the files that a restore reads: a log, its master record, and the archives of a
/// chain of copies in order.
#[derive(Clone, Copy)]
pub struct RestoreNames<'a> {
    pub log: &'a str,
    pub master: &'a str,
    pub archives: &'a [&'a str],
}
