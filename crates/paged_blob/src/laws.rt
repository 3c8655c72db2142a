//! What holds of all blobs, and of all writers over them.

ghost use Rattle.std.specs.Prelude.{◌≡◌, ◌<◌, ◌≤◌, ◌+◌, ◌^◌, ℕ, List, Option, Result, [], length};
ghost use Rattle.paged_format.specs.Pages.{recovered};
ghost use Rattle.paged_format.specs.Tips.{Tip};
ghost use Rattle.paged_blob_parts.specs.Calls.{Call, content, file_of};
ghost use Rattle.paged_blob_parts.specs.Answers.{RecordsSync};
ghost use Rattle.paged_blob_parts.specs.Images.{IsImage};
ghost use Rattle.paged_blob_parts.specs.Writers.{IsWriterOf, WriterState, written, Keeps};
ghost use Rattle.paged_blob_parts.specs.declared.error.Error.{Error};
ghost use Rattle.paged_blob_parts.specs.declared.flush.DurableSlot.{DurableSlot};
ghost use Rattle.paged_blob_parts.specs.Flushes.{physical_size};
ghost use Rattle.paged_blob_parts.specs.Shrinks.{Withstands, IsCut};
ghost use Rattle.paged_blob.specs.ShrinksCode.{EndsWith, tip_of, slot_of};
ghost use Rattle.paged_blob.specs.declared.shrink.LastPage.{LastPage};

pub use paged_blob_parts::laws::chance_is_decided;

/// What holds between a writer and its blob is enough: what is recovered of each image of the calls keeps the durable
/// bytes of the content, and is a beginning of the content unless it is there by chance.
pub fn each_image_keeps_what_is_durable()
    ensures { (sum : List ℕ → ℕ) (size : ℕ) (calls : List Call) (content : List ℕ) (synced : ℕ) (tip : Tip)
        (slot : Option DurableSlot) → 12 ≤ size → IsWriterOf sum size calls content synced tip slot
        → Keeps sum size content synced calls }
{}

/// What a writer has written over its calls is the content of which it is a writer: there is no other.
pub fn what_is_written_is_the_content()
    ensures { (sum : List ℕ → ℕ) (calls : List Call) (w : WriterState) (content : List ℕ) → 12 < w.page_size
        → IsWriterOf sum w.page_size calls content w.synced w.tip w.slot → written sum calls w ≡ content }
{}

/// Where all is durable, what is recovered of the blob withstands each crash, to its last byte.
pub fn what_is_shown_withstands()
    ensures { (sum : List ℕ → ℕ) (size : ℕ) (calls : List Call) → 12 < size → (file_of calls).changes ≡ []
        → Withstands sum size (recovered sum size (content calls)) (length (recovered sum size (content calls)))
        (file_of calls) }
{}

/// On a blob that was cut to a content a writer of that content stands, all of it durable.
pub fn a_writer_stands_on_a_cut_blob()
    ensures { (sum : List ℕ → ℕ) (size : ℕ) → 12 < size → size ≤ 65536 → (content : List ℕ) (calls : List Call)
        → IsCut sum size content calls → (capacity : ℕ) (last : Option LastPage)
        → EndsWith size content (file_of calls).base last → physical_size size (length content) + 4096 < 2 ^ 64
        → IsWriterOf sum size calls content (length content) (tip_of size content capacity) (slot_of last) }
{}

/// What a crash may leave after a sync, whatever that answered, one might have left before it too. So what it may leave
/// between the start of a sync and its end is an image of the calls before and of those after.
pub fn a_sync_leaves_what_stood_before_it()
    ensures { (answer : Result Unit Error) (old new : List Call) → RecordsSync answer old new
        → (image : List ℕ) → IsImage (file_of new) image → IsImage (file_of old) image }
{}
