ghost use Rattle.std.specs.Prelude.{◌≡◌, ℕ, List, [], ◌++◌, length, take};
ghost use Rattle.t3_image_read.specs.ImageText.{ImageValue, text};
ghost use Rattle.t3_image_read.specs.Validity.{IsValid};
ghost use Rattle.t3_image_read.specs.Reader.{EndsIn};

/// What is written reads back as the same image, and what was read is written as the bytes that it used.
pub fn written_reads()
    // To a reader that has taken nothing, the image ends with the last byte that was written.
    ensures reads_back { (image : ImageValue) → IsValid image
        → EndsIn [] (text image) (length (text image)) image }
    // No other image is read from these bytes, nor from fewer of them.
    ensures alone { (a b : ImageValue) (trailing : List ℕ) → IsValid a → IsValid b
        → text a ≡ text b ++ trailing → (a ≡ b) × (trailing ≡ []) }
    // The bytes that a reader used are those that are written.
    ensures writes_used { (image : ImageValue) (before piece : List ℕ) (used : ℕ)
        → EndsIn before piece used image → before ++ take used piece ≡ text image }
{}
