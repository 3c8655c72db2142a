//! Pages of content that are kept in memory.

ghost use Rattle.std.specs.Prelude.{◌≡◌, ◌+◌, ◌/◌, ◌%◌, ◌<◌, ◌≤◌, ◌^◌, ◌↔◌, [], not, filter, length, Contains};
ghost use Rattle.std.specs.Prelude.{IfSome, IsNone, IfOk, IfErr, IsErr};
ghost use Rattle.paged_blob_parts.specs.Caches.{Cache, Page, IsElsewhere, Loses, Adds, IsGivenOne, AreGiven};
ghost use Rattle.paged_blob_parts.specs.CachesCode.{is_at, page_of, pages_of};

use crate::error::Error;
use std::alloc::Global;
use std::marker::Model;

/// A page that is kept.
#[derive(Debug, Drop)]
pub struct CachedPage {
    /// The blob that it is of.
    pub blob_id: u64,
    /// Its number there.
    pub number: u64,
    /// Its content.
    pub bytes: Vec<u8>,
}

/// Pages of content, each under the name of its blob and its number, at most as many as the capacity; which one is
/// given up for another is open. In the Rust: `paged::CacheRef`.
#[derive(Debug, Drop)]
pub struct CacheRef {
    alloc: Global,
    page_size: u16,
    capacity: usize,
    next_id: u64,
    pages: Vec<CachedPage>,
}

impl Model for CacheRef {
    ghost Value = { Cache };

    ghost view = { λ c. record {
      page_size = c.page_size;
      capacity = c.capacity;
      next_id = c.next_id;
      pages = pages_of c.pages.items;
    } };

    ghost invariant = { λ c. (1 ≤ c.page_size) × (1 ≤ c.capacity) × (length c.pages.items ≤ c.capacity) };
}

// Whether a page that is kept is the one of this blob and number.
fn is_at(kept: &CachedPage, blob_id: u64, number: u64) -> bool
    ensures { result ≡ is_at blob_id number kept.now }
{
    kept.blob_id == blob_id && kept.number == number
}

// Gives up what is kept of a page.
fn forget(pages: &mut Vec<CachedPage>, blob_id: u64, number: u64)
    ensures elsewhere { pages.new.items ≡ filter (λ kept. not (is_at blob_id number kept)) pages.old.items }
    ensures len { length pages.new.items ≤ length pages.old.items }
{
    pages.retain(|kept| !is_at(kept, blob_id, number));
}

// Gives up the oldest page where there is no room for another.
fn make_room(pages: &mut Vec<CachedPage>, capacity: usize)
    requires some { 1 ≤ capacity }
    requires fits { length pages.old.items ≤ capacity }
    ensures fewer { Loses (pages_of pages.old.items) (pages_of pages.new.items) }
    ensures room { length pages.new.items < capacity }
{
    if pages.len() >= capacity {
        pages.remove(0);
    }
}

// Keeps a page, unless there is no memory for it.
fn add(pages: &mut Vec<CachedPage>, page: CachedPage)
    ensures added { Adds (pages_of pages.old.items) (pages_of pages.new.items) (page_of page) }
    ensures len { length pages.new.items ≤ length pages.old.items + 1 }
{
    let _ = pages.push(page);
}

impl CacheRef {
    /// No pages yet, of so many bytes of content each, with room for so many. That there is at least one byte in a page
    /// and room for one page is on the caller. It takes no memory yet. In the Rust: `paged::CacheRef::new`.
    pub fn new(alloc: Global, page_size: u16, capacity: usize) -> CacheRef
        requires page { 1 ≤ page_size }
        requires room { 1 ≤ capacity }
        ensures { result ≡ record { page_size = page_size; capacity = capacity; next_id = 0; pages = [] } }
    {
        CacheRef {
            alloc,
            page_size,
            capacity,
            next_id: 0,
            pages: Vec::new(alloc),
        }
    }

    /// How many bytes of content a page has. In the Rust: `paged::CacheRef::page_size`.
    pub fn page_size(&self) -> u16
        ensures { result ≡ self.now.page_size }
    {
        self.page_size
    }

    /// A name for a blob that was not given before. After 2^64 - 1 of them: F8, and nothing changes.
    /// In the Rust: `paged::CacheRef::next_id`, which begins again.
    pub fn next_id(&mut self) -> Result<u64, Error>
        ensures ok { IfOk result (λ id. (id ≡ self.old.next_id)
            × (self.new ≡ record self.old { next_id = self.old.next_id + 1 })) }
        ensures err { IfErr result (λ e. (e ≡ Error.NumberEnded) × (self.new ≡ self.old)) }
        ensures ended { IsErr result ↔ (self.old.next_id + 1 ≡ 2 ^ 64) }
    {
        let id = self.next_id;
        let Some(next) = id.checked_add(1) else {
            return Err(Error::NumberEnded);
        };
        self.next_id = next;
        Ok(id)
    }

    /// The number of the page in which an offset lies, and where in it. In the Rust: `paged::CacheRef::offset_to_page`.
    pub fn offset_to_page(&self, offset: u64) -> (u64, u64)
        ensures { result ≡ (offset / self.now.page_size, offset % self.now.page_size) }
    {
        let size = u64::from(self.page_size);
        (offset / size, offset % size)
    }

    // Where a page of this number is most likely kept: pages that were kept one after the other stand so, up to the
    // last.
    fn likely_place(&self, number: u64) -> usize {
        match self.pages.last() {
            Some(last) => {
                let before = last.number.wrapping_sub(number) as usize;
                self.pages.len().wrapping_sub(1).wrapping_sub(before)
            }
            None => 0,
        }
    }

    // The content of a page, if it is kept, wherever that is.
    fn page_anywhere(&self, blob_id: u64, number: u64) -> Option<&[u8]>
        ensures some { IfSome result (λ bytes. Contains self.now.pages
            (record { blob_id = blob_id; number = number; bytes = bytes.now })) }
        ensures none { IsNone result → (page : Page) → Contains self.now.pages page → IsElsewhere blob_id number page }
    {
        for kept in &self.pages {
            if is_at(kept, blob_id, number) {
                return Some(&kept.bytes);
            }
        }
        None
    }

    /// The content of a page, if it is kept (own). It is looked for where it most likely stands, and then among all
    /// pages.
    pub fn page(&self, blob_id: u64, number: u64) -> Option<&[u8]>
        ensures some { IfSome result (λ bytes. Contains self.now.pages
            (record { blob_id = blob_id; number = number; bytes = bytes.now })) }
        ensures none { IsNone result → (page : Page) → Contains self.now.pages page → IsElsewhere blob_id number page }
    {
        if let Some(likely) = self.pages.get(self.likely_place(number)) {
            if is_at(likely, blob_id, number) {
                return Some(&likely.bytes);
            }
        }
        self.page_anywhere(blob_id, number)
    }

    // Keeps a page in place of what was kept there, and gives up the oldest where there is no room. Out of memory, it
    // keeps none there.
    fn keep(&mut self, blob_id: u64, number: u64, bytes: &[u8])
        ensures pages { IsGivenOne self.old.pages self.new.pages
            (record { blob_id = blob_id; number = number; bytes = bytes.now }) }
        ensures same { self.new ≡ record self.old { pages = self.new.pages } }
        ensures few { length self.new.pages ≤ self.new.capacity }
    {
        forget(&mut self.pages, blob_id, number);
        make_room(&mut self.pages, self.capacity);
        let Ok(copy) = bytes.to_vec(self.alloc) else {
            return;
        };
        add(
            &mut self.pages,
            CachedPage {
                blob_id,
                number,
                bytes: copy,
            },
        );
    }

    /// Keeps the whole pages of these bytes, which stand from an offset on in the blob of this name, and answers how
    /// many bytes behind them fill none. Where there is no memory for a page, none is kept in its place. That the
    /// offset begins a page and that the bytes end before 2^64 is on the caller. In the Rust: `paged::CacheRef::cache`.
    pub fn cache(&mut self, blob_id: u64, bytes: &[u8], offset: u64) -> usize
        requires begins { offset % self.old.page_size ≡ 0 }
        requires ends { offset + length bytes.now < 2 ^ 64 }
        ensures left { result ≡ length bytes.now % self.old.page_size }
        ensures pages { AreGiven self.old.pages self.new.pages blob_id (offset / self.old.page_size) self.old.page_size
            bytes.now (length bytes.now / self.old.page_size) }
        ensures same { self.new ≡ record self.old { pages = self.new.pages } }
        ensures few { length self.new.pages ≤ self.new.capacity }
    {
        let size = self.page_size as usize;
        let (first, _) = self.offset_to_page(offset);
        let mut number = first;
        let mut rest = bytes;
        while rest.len() >= size {
            let (page, behind) = rest.split_at(size);
            self.keep(blob_id, number, page);
            number += 1;
            rest = behind;
        }
        rest.len()
    }
}
