//! How much was played.

/// How many cuts, lives, commits and restored copies there were, how many lives went on from a log
/// that was closed and is not stored again, and after how many cuts a torn write
/// had spelled a record that nobody wrote; how many folders were looked at behind a cut or the end of a
/// process, and how many of them were refused.
#[derive(Clone, Copy, Default)]
pub struct Counts {
    pub cuts: u64,
    pub lives: u64,
    pub closed: u64,
    pub commits: u64,
    pub copies: u64,
    pub strange: u64,
    pub folders: u64,
    pub refused: u64,
}

impl Counts {
    /// The power was cut.
    pub fn cut(&mut self) {
        self.cuts = self.cuts.saturating_add(1);
    }

    /// A life has ended.
    pub fn lived(&mut self) {
        self.lives = self.lives.saturating_add(1);
    }

    /// A life goes on from a log that was closed, and is not stored again.
    pub fn went_on(&mut self) {
        self.closed = self.closed.saturating_add(1);
    }

    /// So many commits were answered.
    pub fn committed(&mut self, count: u64) {
        self.commits = self.commits.saturating_add(count);
    }

    /// So many copies were restored.
    pub fn restored(&mut self, count: u64) {
        self.copies = self.copies.saturating_add(count);
    }

    /// A folder was looked at.
    pub fn looked(&mut self) {
        self.folders = self.folders.saturating_add(1);
    }

    /// A folder was refused, as it may be.
    pub fn refused(&mut self) {
        self.refused = self.refused.saturating_add(1);
    }

    /// A log has a record that nobody wrote.
    pub fn met_strange(&mut self) {
        self.strange = self.strange.saturating_add(1);
    }
}
