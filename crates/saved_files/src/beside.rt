//! A file that was written beside the name that it is to have.

/// A file that was written, and the name that it has until it is put in its place.
#[derive(Drop)]
pub(crate) struct Beside<T: Drop> {
    pub(crate) name: String,
    pub(crate) file: T,
}
