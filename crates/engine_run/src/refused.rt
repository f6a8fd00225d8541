//! Which refusal of a copy's workers is answered.

ghost use Rattle.std.specs.Prelude.{◌≡◌, ◌≤◌, ◌⊎◌, Some, None, IfSome, IsSomeAnd};
ghost use Rattle.std.specs.Option.{option_map};

use aries_core::Refusal;

/// The refusal of the least-numbered worker that met one, with its number.
#[derive(Drop)]
pub(crate) struct FirstRefusal {
    first: Option<(u32, Refusal)>,
}

impl FirstRefusal {
    pub(crate) fn new() -> FirstRefusal
        ensures { result.first ≡ None }
    {
        FirstRefusal { first: None }
    }

    /// Notes what a worker met.
    pub(crate) fn note(&mut self, worker: u32, why: Refusal)
        ensures one { (self.new.first ≡ Some (worker, why)) ⊎ (self.new.first ≡ self.old.first) }
        ensures at_most { IsSomeAnd self.new.first (λ it. it.0 ≤ worker) }
        ensures falls { IfSome self.old.first (λ was.
            IfSome self.new.first (λ it. it.0 ≤ was.0)) }
    {
        self.first = match self.first {
            Some(before) if before.0 <= worker => Some(before),
            _ => Some((worker, why)),
        };
    }

    /// The refusal, if a worker met one.
    pub(crate) fn why(self) -> Option<Refusal>
        ensures { result ≡ option_map (λ it. it.1) self.first }
    {
        match self.first {
            Some((_, why)) => Some(why),
            None => None,
        }
    }
}
