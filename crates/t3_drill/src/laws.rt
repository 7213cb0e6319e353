//! What holds of each drill.
ghost use Rattle.std.specs.Prelude.{ℕ, ◌≤◌};
ghost use Rattle.t3_image_read.specs.Validity.{IsValid};
ghost use Rattle.t3_drill.specs.Drill.{drill_image};

/// The image of each drill is valid.
pub fn valid_drills()
    ensures { (number : ℕ) → number ≤ 200 → IsValid (drill_image number) }
{}
