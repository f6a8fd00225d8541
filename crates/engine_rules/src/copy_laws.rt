//! Laws of image copies, for readers of the contracts.

ghost use Rattle.std.specs.Prelude.{ℕ, ◌≡◌, ◌+◌, List, length, Result, Ok, is_some, map};
ghost use Rattle.engine_rules.specs.Catalogue.{catalogue, catalogue_refusal, entry_of};
ghost use Rattle.engine_rules.specs.EngineState.{EngineState, image_of, new_state};
ghost use Rattle.engine_rules.specs.EngineState.{volume_pages};
ghost use Rattle.engine_rules.specs.Refusal.{or_else, refusal, refused_if};
ghost use Rattle.engine_rules.specs.Run.{Run};
ghost use Rattle.engine_rules.specs.Step.{Step};
ghost use Rattle.engine_calls.specs.declared.event.Answer.{Answer};
ghost use Rattle.engine_calls.specs.declared.event.Answer.TheVariants as answer;
ghost use Rattle.engine_calls.specs.declared.event.Event.{Event};
ghost use Rattle.engine_calls.specs.declared.event.Event.TheVariants as event;
ghost use Rattle.engine_calls.specs.declared.refusal.Refusal.{Refusal};
ghost use Rattle.engine_calls.specs.declared.refusal.Refusal.TheVariants.{WriteBegun};

/// Events and replies alone say which copies there are, of which kind, what each has decided for
/// each page, and which are complete or dropped.
pub fn the_copies_are_those_answered()
    ensures { (pages frames : ℕ) (events : List Event) (replies : List (Result Answer Refusal))
        (new : EngineState) → Run (new_state pages frames) events replies new
        → map entry_of new.copies ≡ catalogue pages events replies }
{}

/// The catalogue's entries say when a call on copies is refused, together with whether a master is
/// there and how many pages the volume has. The refusals are in the order of the checks. Of a
/// repair they say all but that a write of the page is in progress, which comes last.
pub fn copies_are_refused_by_the_catalogue()
    ensures full { (s : EngineState) → refusal s event.CopyFull
        ≡ catalogue_refusal (is_some s.master) (volume_pages s) (map entry_of s.copies)
        event.CopyFull }
    ensures inc { (s : EngineState) (parent : ℕ) → let call = event.CopyInc parent in refusal s call
        ≡ catalogue_refusal (is_some s.master) (volume_pages s) (map entry_of s.copies) call }
    ensures take { (s : EngineState) (copy page : ℕ) → let call = event.Take copy page in
        refusal s call
        ≡ catalogue_refusal (is_some s.master) (volume_pages s) (map entry_of s.copies) call }
    ensures seal { (s : EngineState) (copy : ℕ) → let call = event.Seal copy in refusal s call
        ≡ catalogue_refusal (is_some s.master) (volume_pages s) (map entry_of s.copies) call }
    ensures drop { (s : EngineState) (copy : ℕ) → let call = event.DropCopy copy in refusal s call
        ≡ catalogue_refusal (is_some s.master) (volume_pages s) (map entry_of s.copies) call }
    ensures repair { (s : EngineState) (copy page : ℕ) → let call = event.Repair copy page in
        refusal s call ≡ or_else
        (catalogue_refusal (is_some s.master) (volume_pages s) (map entry_of s.copies) call)
        (refused_if (is_some (image_of s page)) WriteBegun) }
{}

/// The id that is answered to the begin of a copy is its place in the catalogue, counted from 1.
pub fn a_copy_gets_the_next_id()
    ensures full { (old : EngineState) (id : ℕ) (new : EngineState)
        → Step old event.CopyFull (Ok (answer.Copied id)) new
        → id ≡ length (map entry_of old.copies) + 1 }
    ensures inc { (old : EngineState) (parent id : ℕ) (new : EngineState)
        → Step old (event.CopyInc parent) (Ok (answer.Copied id)) new
        → id ≡ length (map entry_of old.copies) + 1 }
{}
