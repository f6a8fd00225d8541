//! What holds of all manifests.

ghost use Rattle.std.specs.Prelude.{◌≡◌, ◌≢◌, List, None, Some, ℕ};
ghost use Rattle.manifest.specs.Entries.{file_of, IsManifest, Listed, Noted, noted, without};
ghost use Rattle.manifest.specs.Sums.{Collide, IsSumOf};
ghost use Rattle.manifest.specs.Text.{manifest_text};
ghost use Rattle.manifest.specs.declared.sum.Sum.{Sum as TheSum};

/// Two manifests with one text are one.
pub fn manifests_are_told_apart()
    ensures { (a b : Listed) → IsManifest a → IsManifest b
        → manifest_text a ≡ manifest_text b → a ≡ b }
{}

/// Where the sum and the count of some bytes are those of other ones, two texts with one digest are
/// at hand.
pub fn collisions_are_at_hand()
    ensures { (sum : TheSum) (count : ℕ) (made found : List ℕ) → IsSumOf sum count made
        → IsSumOf sum count found → found ≢ made → Collide found made }
{}

/// What is noted is known under its name until it is removed, and nothing else is known of another
/// file.
pub fn what_is_noted_is_known()
    ensures noted { (new : Noted) (entries : List Noted)
        → file_of new.name (noted new entries) ≡ Some new.file }
    ensures kept { (new : Noted) (name : List ℕ) (entries : List Noted) → name ≢ new.name
        → file_of name (noted new entries) ≡ file_of name entries }
    ensures removed { (name : List ℕ) (entries : List Noted)
        → file_of name (without name entries) ≡ None }
    ensures left { (gone name : List ℕ) (entries : List Noted) → name ≢ gone
        → file_of name (without gone entries) ≡ file_of name entries }
{}
