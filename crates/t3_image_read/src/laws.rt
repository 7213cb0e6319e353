ghost use Rattle.std.specs.Prelude.{◌≡◌, ℕ, ◌⊎◌, List, [], ◌++◌, length, Result};
ghost use Rattle.t3_holder.specs.NumberText.{AreBytes};
ghost use Rattle.t3_image_read.specs.ImageText.{ImageValue, text};
ghost use Rattle.t3_image_read.specs.Validity.{IsValid};
ghost use Rattle.t3_image_read.specs.Refusal.{Refused, IsRefused, BeginsWithImage};
ghost use Rattle.t3_image_read.specs.Reader.{Reading, Feeds, joined_answer};
ghost use Rattle.t3_image_read.specs.declared.reader.Fed.{Fed as AnyFed};
ghost use Rattle.t3_image_read.specs.declared.refusal.ReadRefusal.{ReadRefusal as AnyRefusal};
ghost use Rattle.t3_image_read.specs.declared.refusal.ReadWhy.{ReadWhy as Why};

/// Each stream of bytes begins with exactly one valid image's text, or is refused at exactly one place
/// by exactly one rule.
pub fn one_reading()
    ensures some { (stream : List ℕ) → AreBytes stream → BeginsWithImage stream ⊎ IsRefused stream }
    ensures not_both { (image : ImageValue) (trailing : List ℕ) (place : ℕ) (why : Why)
        → IsValid image → Refused (text image ++ trailing) place why → ⊥ }
    ensures one_image { (a b : ImageValue) (x y : List ℕ) → IsValid a → IsValid b
        → text a ++ x ≡ text b ++ y → (a ≡ b) × (x ≡ y) }
    ensures one_refusal { (stream : List ℕ) (p q : ℕ) (v w : Why) → Refused stream p v
        → Refused stream q w → (p ≡ q) × (v ≡ w) }

    // So no valid image's text is a proper prefix of another's.
    ensures no_prefix { (a b : ImageValue) (trailing : List ℕ) → IsValid a → IsValid b
        → text b ≡ text a ++ trailing → trailing ≡ [] }
{}

/// The cutting into pieces changes nothing: what two pieces in a row are taken to, they are taken to as
/// one piece.
pub fn pieces_joined()
    ensures { (before between after : Reading) (p q : List ℕ) (a b : Result AnyFed AnyRefusal)
        → Feeds before p a between → Feeds between q b after
        → Feeds before (p ++ q) (joined_answer (length p) a b) after }
{}
