//! The files that were put in place since the manifest was.

ghost use Rattle.std.specs.Prelude.{IsTrue};
ghost use Rattle.database_session.specs.Placed.{IsNothing};

/// What was put in place, and is to be named in the manifest.
#[derive(Clone, Copy, Debug)]
pub struct Placed {
    /// The file of the copy of this id.
    pub copy: Option<u32>,
    /// A master record.
    pub master: bool,
}

impl Placed {
    /// No file was put in place.
    pub fn nothing() -> Placed
        ensures { IsNothing result }
    {
        Placed {
            copy: None,
            master: false,
        }
    }

    /// Whether none was.
    pub fn is_nothing(&self) -> bool
        ensures { IsTrue result → IsNothing self.now }
    {
        self.copy.is_none() && !self.master
    }
}
