//! What is told of a folder.

use crate::trouble::Trouble;
use std::alloc::{AllocError, Global};

/// What is told of a folder: what is wrong with it, on standard error, and the lines that are asked
/// for, on standard output.
#[derive(Drop)]
pub struct FolderReport {
    /// What is told before the lines.
    pub troubles: Vec<Trouble>,
    /// The lines, each with its line feed.
    pub lines: String,
    /// What is told behind the lines.
    pub behind: Vec<Trouble>,
}

impl FolderReport {
    /// Nothing is told yet.
    pub fn new(alloc: Global) -> FolderReport {
        FolderReport {
            troubles: Vec::new(alloc),
            lines: String::new(alloc),
            behind: Vec::new(alloc),
        }
    }

    /// Tells this before the lines.
    pub(crate) fn tell(&mut self, trouble: Trouble) -> Result<(), AllocError> {
        Ok(self.troubles.push(trouble)?)
    }

    /// Tells this behind the lines.
    pub(crate) fn tell_behind(&mut self, trouble: Trouble) -> Result<(), AllocError> {
        Ok(self.behind.push(trouble)?)
    }
}
