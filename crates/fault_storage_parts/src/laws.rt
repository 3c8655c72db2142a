//! Laws of the definitions: functions with an empty body, whose contracts are the laws.

ghost use Rattle.std.specs.Prelude.{◌≡◌, ◌≤◌, ℕ, List, None, length, take};
ghost use Rattle.rand_core.specs.Stream.{Stream};
ghost use Rattle.fault_storage_parts.specs.Files.{Mutation, ArePast, IsLeftOf, crashed};
ghost use Rattle.fault_storage_parts.specs.Headers.{layout_number, data_offset_of, created, first_fault, file_checks};
ghost use Rattle.fault_storage_parts.specs.Headers.{resolved_of};

use crate::header::{Layouts, Versions};

/// The law that what `Header::create` writes passes all checks, for ranges that hold it, and shows no data.
pub fn created_is_parsed(layouts: Layouts, versions: Versions)
    requires layouts { layout_number layouts.least ≤ layout_number layouts.greatest }
    requires versions { versions.least ≤ versions.greatest }
    ensures passes { first_fault (file_checks layouts versions (created layouts.greatest versions.greatest)
        (data_offset_of layouts.greatest)) ≡ None }
    ensures shows { resolved_of (created layouts.greatest versions.greatest)
        (data_offset_of layouts.greatest) ≡ record {
          size = 0;
          version = versions.greatest;
          data_offset = data_offset_of layouts.greatest;
        } }
{}

/// The law that a crash changes no byte of a header: none of the first bytes that all mutations of the file pass over.
pub fn crash_keeps_the_header()
    ensures { (size : ℕ) → (base : List ℕ) → (log : List Mutation) → (words : Stream)
        → size ≤ length base → ArePast size log
        → take size (crashed base log words).0 ≡ take size base }
{}

/// The law that what choices leave of a file, at a crash or half way through one, has the header that it had.
pub fn left_has_the_header()
    ensures { (size : ℕ) → (base left : List ℕ) → (log later : List Mutation) → IsLeftOf base log left later
        → size ≤ length base → ArePast size log
        → take size left ≡ take size base }
{}
