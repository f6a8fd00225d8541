//! How a database is opened.

/// Which database is to be opened.
#[derive(Clone, Copy)]
pub struct OpenCall<'a> {
    /// The folder, which has to be there.
    pub folder: &'a str,
    /// How many pages a new database has, 1 to 65,536. One that is there has to have as many, if a
    /// count is told.
    pub pages: Option<u32>,
    /// How many pages may be in memory at a time, 1 to 65,536.
    pub frames: u32,
    /// What is left of a log that lacks records which were forced is to be opened.
    pub salvage: bool,
    /// A line that is refused is no success.
    pub strict: bool,
}
