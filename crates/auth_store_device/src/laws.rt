//! Laws of the definitions: functions with an empty body, whose contracts are the laws.

ghost use Rattle.std.specs.Prelude.{ℕ, List, All};
ghost use Rattle.paged_blob_parts.specs.Calls.{Call};
ghost use Rattle.paged_blob_parts.specs.Chance.{NoneByChance};
ghost use Rattle.auth_store_device.specs.Openings.{openings_of, IsNotByChance};

/// The law that none of the calls is an opening by chance exactly where each of their openings is not by chance.
pub fn chance_is_told_by_each_opening()
    ensures all { (sum : List ℕ → ℕ) (size : ℕ) (calls : List Call) → NoneByChance sum size calls
        → All (IsNotByChance sum size) (openings_of calls) }
    ensures none { (sum : List ℕ → ℕ) (size : ℕ) (calls : List Call) → All (IsNotByChance sum size) (openings_of calls)
        → NoneByChance sum size calls }
{}
