//! The headers of files.
//!
//! ```text
//!   V0   43 57 49 43  00 00  version                        data from 8
//!   V1   43 57 49 31  00 01  version  checksum  zeros ..    data from 4096
//! ```
//!
//! A V0 header is written at once; the region of V1 fills a page, so that a crash in its creation leaves a beginning of
//! it and zeros, which is told from a header that was changed since.

ghost use Rattle.std.specs.Prelude.{◌≡◌, ◌≢◌, ℕ, ◌≤◌, ◌<◌, ◌++◌, min, nat_lt, nat_le, length, take, drop, replicate};
ghost use Rattle.std.specs.Prelude.{if◌then◌else◌, IfOk, IfErr, IfSome, IfNone, MatchResult, IsTrue, ◌↔◌, EachIndex};
ghost use Rattle.std.specs.Prelude.{slice_index};
ghost use Rattle.std.specs.Int.{w32, to_be_bytes};
ghost use Rattle.fault_storage_parts.specs.Crc32.{crc32};
ghost use Rattle.fault_storage_parts.specs.Headers.{IsTornCreation, IsInterrupted, IsUnmade, front, version_in};
ghost use Rattle.fault_storage_parts.specs.Headers.{magic_of, layout_number, data_offset_of, prelude, created};
ghost use Rattle.fault_storage_parts.specs.Headers.{layout_with, is_among, is_version, has_region, has_checksum};
ghost use Rattle.fault_storage_parts.specs.Headers.{header_of, first_fault, header_checks, file_checks, resolved_of};

use crate::checksum::{Checksum, Crc32};
use crate::error::HeaderError;
use std::alloc::{AllocError, Global};
use std::ops::RangeInclusive;

/// How the beginning of a file is laid out. In the Rust: `commonware_runtime::storage::Layout`.
#[derive(Clone, Copy, Debug, PartialEq, Eq, PartialOrd, Ord)]
pub enum Layout {
    /// Eight bytes, the data right after them.
    V0,
    /// A page of 4096 bytes with a checksum, the data after it.
    V1,
}

impl Layout {
    /// The number of the layout in a header: 0 or 1.
    pub fn layout_version(self) -> u16
        ensures { result ≡ layout_number self }
    {
        match self {
            Layout::V0 => 0,
            Layout::V1 => 1,
        }
    }

    /// The first four bytes of a header: `CWIC` or `CWI1`.
    pub fn magic(self) -> [u8; 4]
        ensures { result ≡ magic_of self }
    {
        match self {
            Layout::V0 => *b"CWIC",
            Layout::V1 => *b"CWI1",
        }
    }

    /// The layout whose headers begin with these bytes, or None where there is none.
    pub fn from_magic(magic: [u8; 4]) -> Option<Layout>
        ensures some { IfSome result (λ layout. magic ≡ magic_of layout) }
        ensures none { IfNone result ((layout : Layout) → magic ≡ magic_of layout → ⊥) }
        ensures found { result ≡ layout_with magic }
    {
        if magic == Layout::V0.magic() {
            return Some(Layout::V0);
        }
        if magic == Layout::V1.magic() {
            return Some(Layout::V1);
        }
        None
    }

    /// Whether a crash in the creation of a file of this layout may have left these bytes, which are all of it: for V1
    /// a beginning of its region, followed by zeros, that is no whole one; for V0 never.
    /// In the Rust: `commonware_runtime::storage::Layout::interrupted_creation`.
    pub fn interrupted_creation(self, bytes: &[u8]) -> bool
        ensures { IsTrue result ↔ IsInterrupted self bytes.now }
    {
        match self {
            Layout::V0 => false,
            Layout::V1 => is_torn_creation(bytes),
        }
    }

    /// Where the data of a file begin: at byte 8 or 4096.
    pub fn data_offset(self) -> u64
        ensures { result ≡ data_offset_of self }
    {
        match self {
            Layout::V0 => 8,
            Layout::V1 => 4096,
        }
    }
}

/// The layouts that are accepted, from the least to the greatest, in which a file is created (own; in the Rust an
/// inclusive range).
#[derive(Clone, Copy, Debug, PartialEq, Eq)]
pub struct Layouts {
    /// The least.
    pub least: Layout,
    /// The greatest.
    pub greatest: Layout,
}

impl Layouts {
    /// Whether the layout is among them.
    pub fn contains(&self, layout: Layout) -> bool
        ensures { result ≡ is_among self.now layout }
    {
        self.least.layout_version() <= layout.layout_version()
            && layout.layout_version() <= self.greatest.layout_version()
    }
}

/// The layouts from the range's start to its end. In the Rust: the range itself.
impl From<RangeInclusive<Layout>> for Layouts {
    ghost from_gives = { λ range layouts. layouts ≡ record { least = range.start; greatest = range.end } };

    fn from(range: RangeInclusive<Layout>) -> Layouts {
        let (least, greatest) = range.into_inner();
        Layouts { least, greatest }
    }
}

/// The blob versions that are accepted, from the least to the greatest, with which a file is created (own; in the Rust
/// an inclusive range).
#[derive(Clone, Copy, Debug, PartialEq, Eq)]
pub struct Versions {
    /// The least.
    pub least: u16,
    /// The greatest.
    pub greatest: u16,
}

impl Versions {
    /// Whether the version is among them.
    pub fn contains(&self, version: u16) -> bool
        ensures { result ≡ is_version self.now version }
    {
        self.least <= version && version <= self.greatest
    }
}

/// The versions from the range's start to its end. In the Rust: the range itself.
impl From<RangeInclusive<u16>> for Versions {
    ghost from_gives = { λ range versions. versions ≡ record { least = range.start; greatest = range.end } };

    fn from(range: RangeInclusive<u16>) -> Versions {
        let (least, greatest) = range.into_inner();
        Versions { least, greatest }
    }
}

/// What a file shows whose header passes its checks.
#[derive(Clone, Copy, Debug, PartialEq, Eq)]
pub struct Resolved {
    /// How many bytes follow the header.
    pub size: u64,
    /// The blob version.
    pub version: u16,
    /// Where the data begin.
    pub data_offset: u64,
}

/// The first eight bytes of a file, read. In the Rust: `commonware_runtime::storage::Header`.
#[derive(Clone, Copy, Debug, PartialEq, Eq)]
pub struct Header {
    /// The first four bytes.
    pub magic: [u8; 4],
    /// The number of the layout.
    pub layout_version: u16,
    /// The blob version.
    pub blob_version: u16,
}

// The first eight bytes of a header.
fn prelude_of(layout: Layout, version: u16) -> [u8; 8]
    ensures { result ≡ prelude layout version }
{
    let [a, b, c, d] = layout.magic();
    let [e, f] = layout.layout_version().to_be_bytes();
    let [g, h] = version.to_be_bytes();
    [a, b, c, d, e, f, g, h]
}

// The first twelve bytes of a region of layout V1.
fn checked_front(version: u16) -> [u8; 12]
    ensures { result ≡ front version }
{
    let prelude = prelude_of(Layout::V1, version);
    let [a, b, c, d, e, f, g, h] = prelude;
    let [i, j, k, l] = Crc32::checksum(&prelude).to_be_bytes();
    [a, b, c, d, e, f, g, h, i, j, k, l]
}

// The blob version that a beginning of a header says, with zeros for what is missing.
fn version_said(bytes: &[u8]) -> u16
    ensures { result ≡ version_in bytes.now }
{
    u16::from_be_bytes([
        bytes.get(6).copied().unwrap_or(0),
        bytes.get(7).copied().unwrap_or(0),
    ])
}

// How many first bytes are those of the front.
fn matching(bytes: &[u8], front: &[u8; 12]) -> usize
    ensures within { (result ≤ length bytes.now) × (result ≤ 12) }
    ensures same { (k : ℕ) → k < result → slice_index bytes.now k ≡ slice_index front.now k }
    ensures all { result < length bytes.now → result < 12
        → slice_index bytes.now result ≢ slice_index front.now result }
{
    for index in 0..bytes.len().min(12) {
        if bytes[index] != front[index] {
            return index;
        }
    }
    bytes.len().min(12)
}

// Whether all bytes are zero.
fn are_zeros(bytes: &[u8]) -> bool
    ensures { IsTrue result ↔ EachIndex bytes.now (λ k. slice_index bytes.now k ≡ 0) }
{
    bytes.iter().all(|byte| *byte == 0)
}

// Whether the bytes are a beginning of a region of layout V1, followed by zeros, and no whole one.
fn is_torn_creation(bytes: &[u8]) -> bool
    ensures { IsTrue result ↔ IsTornCreation bytes.now }
{
    if bytes.len() > 4096 {
        return false;
    }
    let matching = matching(bytes, &checked_front(version_said(bytes)));
    if matching == 0 || !are_zeros(&bytes[matching..]) {
        return false;
    }
    matching < 12 || bytes.len() < 4096
}

// The region of layout V1, from its first eight bytes. It fails only when out of memory.
fn checked_region(alloc: Global, prelude: &[u8; 8]) -> Result<Vec<u8>, AllocError>
    ensures { IfOk result (λ region. region.items ≡ prelude.now
        ++ (to_be_bytes w32 (crc32 prelude.now) ++ replicate 4084 0)) }
{
    let mut region = prelude.to_vec(alloc)?;
    region.extend_from_slice(&Crc32::checksum(prelude).to_be_bytes())?;
    region.resize(4096, 0)?;
    Ok(region)
}

/// The region that begins a file of this layout and blob version. It fails only when out of memory.
#[tactic(auto, unfolding(crate::specs::Headers::created))]
pub fn created_region(alloc: Global, layout: Layout, version: u16) -> Result<Vec<u8>, AllocError>
    ensures { IfOk result (λ region. region.items ≡ created layout version) }
{
    let prelude = prelude_of(layout, version);
    match layout {
        Layout::V0 => prelude.to_vec(alloc),
        Layout::V1 => checked_region(alloc, &prelude),
    }
}

// The header that the first eight bytes say.
fn header_from(bytes: &[u8]) -> Header
    requires { 8 ≤ length bytes.now }
    ensures { result ≡ header_of bytes.now }
{
    Header {
        magic: [bytes[0], bytes[1], bytes[2], bytes[3]],
        layout_version: u16::from_be_bytes([bytes[4], bytes[5]]),
        blob_version: u16::from_be_bytes([bytes[6], bytes[7]]),
    }
}

// Whether a file of this size has the whole region of its layout.
fn is_whole(layout: Layout, size: u64) -> bool
    requires { 8 ≤ size }
    ensures { result ≡ has_region layout size }
{
    match layout {
        Layout::V0 => true,
        Layout::V1 => size >= 4096,
    }
}

// Whether the checksum behind the first eight bytes is theirs, where the layout has one.
fn is_checked(layout: Layout, bytes: &[u8]) -> bool
    requires { 8 ≤ length bytes.now }
    ensures { result ≡ has_checksum layout bytes.now }
{
    match layout {
        Layout::V0 => true,
        Layout::V1 => bytes[8..].starts_with(&Crc32::checksum(&bytes[..8]).to_be_bytes()),
    }
}

impl Header {
    /// How many bytes the header of every layout has at least.
    pub const PRELUDE_SIZE: usize = 8;

    /// How many bytes the checksum of layout V1 has.
    pub const EXTENSION_SIZE: usize = 4;

    /// How many bytes the checks look at.
    pub const PARSE_LEN: usize = 12;

    /// Whether a file of this size has no header, since it is under 8 bytes.
    /// In the Rust: `commonware_runtime::storage::Header::missing`.
    pub fn missing(size: u64) -> bool
        ensures { result ≡ nat_lt size 8 }
    {
        size < 8
    }

    /// How many first bytes of a file of this size `resolve` takes: all up to 4096, else 12.
    /// In the Rust: `commonware_runtime::storage::Header::resolve_len`.
    pub fn resolve_len(size: u64) -> u64
        ensures { result ≡ (if nat_le size 4096 then size else 12) }
    {
        if size <= 4096 { size } else { 12 }
    }

    /// The region of a new file, in the greatest layout and blob version, and that version. It fails only when out of
    /// memory.
    /// In the Rust: `commonware_runtime::storage::Header::create`.
    pub fn create(
        alloc: Global,
        layouts: Layouts,
        versions: Versions,
    ) -> Result<(Vec<u8>, u16), AllocError>
        ensures { IfOk result (λ made. (made.0.items ≡ created layouts.greatest versions.greatest)
            × (made.1 ≡ versions.greatest)) }
    {
        let region = created_region(alloc, layouts.greatest, versions.greatest)?;
        Ok((region, versions.greatest))
    }

    /// Whether the header's magic, layout, layout version and blob version pass. It names the first of these checks
    /// that fails: H1, H2, H4 or H6. In the Rust: `commonware_runtime::storage::Header::validate`.
    pub fn validate(&self, layouts: Layouts, versions: Versions) -> Result<(), HeaderError>
        ensures { MatchResult result (λ _. first_fault (header_checks layouts versions self.now) ≡ None)
            (λ fault. first_fault (header_checks layouts versions self.now) ≡ Some fault) }
    {
        let Some(layout) = Layout::from_magic(self.magic) else {
            return Err(HeaderError::Magic);
        };
        if !layouts.contains(layout) {
            return Err(HeaderError::LayoutNotAllowed);
        }
        if self.layout_version != layout.layout_version() {
            return Err(HeaderError::LayoutVersion);
        }
        if !versions.contains(self.blob_version) {
            return Err(HeaderError::BlobVersion);
        }
        Ok(())
    }

    /// What a file of this size, which begins with these bytes, shows. It names the first check that fails, of H1 to H6
    /// in their order. In the Rust: `commonware_runtime::storage::Header::parse`.
    pub fn parse(
        bytes: &[u8],
        size: u64,
        layouts: Layouts,
        versions: Versions,
    ) -> Result<Resolved, HeaderError>
        requires present { 8 ≤ size }
        requires enough { min size 12 ≤ length bytes.now }
        ensures { MatchResult result (λ shown. (first_fault (file_checks layouts versions bytes.now size) ≡ None)
            × (shown ≡ resolved_of bytes.now size))
            (λ fault. first_fault (file_checks layouts versions bytes.now size) ≡ Some fault) }
    {
        let header = header_from(bytes);
        let Some(layout) = Layout::from_magic(header.magic) else {
            return Err(HeaderError::Magic);
        };
        if !layouts.contains(layout) {
            return Err(HeaderError::LayoutNotAllowed);
        }
        if !is_whole(layout, size) {
            return Err(HeaderError::Short);
        }
        if header.layout_version != layout.layout_version() {
            return Err(HeaderError::LayoutVersion);
        }
        if !is_checked(layout, bytes) {
            return Err(HeaderError::Checksum);
        }
        if !versions.contains(header.blob_version) {
            return Err(HeaderError::BlobVersion);
        }
        Ok(Resolved {
            size: size - layout.data_offset(),
            version: header.blob_version,
            data_offset: layout.data_offset(),
        })
    }
}

/// What a file of this size shows, of which these are the first `resolve_len` bytes. None: it has no header yet, since
/// it is under 8 bytes or a crash cut its creation short in layout V1. Else it names the first check that fails, of H1
/// to H6 in their order.
/// In the Rust: `commonware_runtime::storage::resolve`.
pub fn resolve(
    bytes: &[u8],
    size: u64,
    layouts: Layouts,
    versions: Versions,
) -> Result<Option<Resolved>, HeaderError>
    requires { length bytes.now ≡ (if nat_le size 4096 then size else 12) }
    ensures none { (result ≡ Ok None) ↔ IsUnmade bytes.now size }
    ensures shown { IfOk result
        (λ found. IfSome found (λ shown. (first_fault (file_checks layouts versions bytes.now size) ≡ None)
        × (shown ≡ resolved_of bytes.now size))) }
    ensures refused { IfErr result (λ fault. first_fault (file_checks layouts versions bytes.now size) ≡ Some fault) }
{
    if Header::missing(size) {
        return Ok(None);
    }
    if size <= 4096 && Layout::V1.interrupted_creation(bytes) {
        return Ok(None);
    }
    let shown = Header::parse(bytes, size, layouts, versions)?;
    Ok(Some(shown))
}
