ghost use Rattle.std.specs.Prelude.{◌≡◌, ◌≢◌, ℕ, List, Result, Err};
ghost use Rattle.t3_image_read.specs.declared.image.PlacedBlock.{PlacedBlock};
ghost use Rattle.t3_store.specs.declared.limits.StoreLimits.{StoreLimits};
ghost use Rattle.t3_load.specs.Loading.{ProgramValue, Loads};
ghost use Rattle.t3_load.specs.declared.refusal.LoadRefusal.{LoadRefusal};
ghost use Rattle.t3_load.specs.declared.refusal.LoadRefusal.TheVariants.{NoMemory};

/// Each image is loaded as exactly one program, or breaks exactly one rule first.
pub fn one_answer()
    ensures some { (blocks : List PlacedBlock) (fingerprint : List ℕ) (limits : StoreLimits)
        → (answer : Result ProgramValue LoadRefusal) × (answer ≢ Err NoMemory) × Loads blocks fingerprint limits answer }
    ensures one { (blocks : List PlacedBlock) (fingerprint : List ℕ) (limits : StoreLimits) (a b : Result ProgramValue LoadRefusal)
        → a ≢ Err NoMemory → b ≢ Err NoMemory → Loads blocks fingerprint limits a → Loads blocks fingerprint limits b → a ≡ b }
{}
