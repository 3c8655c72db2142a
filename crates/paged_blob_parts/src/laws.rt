//! What holds of all blobs.

ghost use Rattle.std.specs.Prelude.{ℕ, List};
ghost use Rattle.std.specs.Bool.{Decides};
ghost use Rattle.paged_blob_parts.specs.Calls.{File};
ghost use Rattle.paged_blob_parts.specs.Chance.{is_by_chance};
ghost use Rattle.paged_blob_parts.specs.Laws.Chance.{IsByChance};

/// An opening is found to be by chance exactly where a slot of it verifies that the base and no beginning of the
/// changes since, each whole, has there.
pub fn chance_is_decided()
    ensures { (sum : List ℕ → ℕ) (size : ℕ) (file : File) (shown : List ℕ)
        → Decides (is_by_chance sum size file shown) (IsByChance sum size file shown) }
{}
