//! The prefix that is recovered of a file of pages.

ghost use Rattle.std.specs.Prelude.{◌≡◌, length};
ghost use Rattle.paged_format.specs.Footers.{IsPageSize};
ghost use Rattle.paged_format.specs.Pages.{shown_len, recovered};

use crate::footer::Footer;
use fault_storage::Checksum;

#[tactic(auto, unfolding(crate::specs::Pages::counted_slot, crate::specs::Pages::shown_len))]
// How many bytes of content a page shows.
fn shown_len<C: Checksum>(page: &[u8]) -> usize
    requires { IsPageSize (length page.now) }
    ensures { result ≡ shown_len C.checksum_of (length page.now) page.now }
{
    match Footer::valid_slot::<C>(page) {
        Some((_, len)) => len as usize,
        None => 0,
    }
}

/// How many bytes of content are recovered of these pages of so many bytes: those up to the first page in which no
/// slot counts, or to the end of the first that is not whole. A piece of a page at the end is none. That a page has a
/// power of two from 16 to 65536 bytes is on the caller.
/// In the Rust the prefix calls of `paged::Writer` find it, over a blob.
pub fn prefix_len<C: Checksum>(pages: &[u8], physical_page_size: u32) -> u64
    requires { IsPageSize physical_page_size }
    ensures { result ≡ length (recovered C.checksum_of physical_page_size pages.now) }
{
    let size = physical_page_size as usize;
    let whole = size - 12;
    let mut rest = pages;
    let mut len = 0;
    while rest.len() >= size {
        let (page, behind) = rest.split_at(size);
        let shown = shown_len::<C>(page);
        if shown < whole {
            return (len + shown) as u64;
        }
        len += shown;
        rest = behind;
    }
    len as u64
}
