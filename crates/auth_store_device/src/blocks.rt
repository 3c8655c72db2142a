//! Bytes that a record keeps, and images that are made of them.
//!
//! Bytes lie in blocks, one behind the other, so that few calls ask for memory; a block keeps the room that it was made
//! with, so that no byte is moved. An image is cut into pieces of one size. Those that an image before it has at the
//! same place are not kept again, so that an image costs what has changed in it:
//!
//! ```text
//!   image 0    block 0, 0..1024    block 0, 1024..2048    block 0, 2048..2100
//!   image 1    block 0, 0..1024    block 0, 2164..3188    block 0, 2048..2100
//! ```

ghost use Rattle.std.specs.Prelude.{◌≡◌, ◌+◌, ◌*◌, ◌<◌, ◌≤◌, ◌++◌, ◌∷◌, [], true, ℕ, length, get_or};
ghost use Rattle.std.specs.Prelude.{IfOk, IfSome, OnOk, OnErr};
ghost use Rattle.std.specs.Iterator.{YieldsFirstRef, item_count};
ghost use Rattle.std.specs.List.{All};
ghost use Rattle.std.specs.Vec.{vec_capacity};
ghost use Rattle.auth_store_device.specs.Touches.{IsOutside};
ghost use Rattle.auth_store_device.specs.BlocksCode.{bytes_in, image_in, piece_bytes, AreCut, IsPartWithin, Gains};

use crate::touched::Touched;
use std::alloc::{AllocError, Global};
use std::marker::Model;
use std::mem;

// How many bytes a block has room for, unless it is made for more at once.
const BLOCK_ROOM: usize = 16_384;

// How many bytes a piece of an image has; the last one may have fewer.
const PIECE: usize = 1_024;

/// Where bytes lie: so many of a block, from a place on.
#[derive(Clone, Copy, Debug, PartialEq, Eq)]
pub(crate) struct Part {
    /// The number of the block.
    pub(crate) block: usize,
    /// The place of the first byte in it.
    pub(crate) start: usize,
    /// How many bytes there are.
    pub(crate) count: usize,
}

/// Bytes in blocks, to the last of which the next ones come, and images of parts of them (own).
#[derive(Debug, Drop)]
pub(crate) struct Blocks {
    alloc: Global,
    full: Vec<Vec<u8>>,
    last: Vec<u8>,
    images: Vec<Vec<Part>>,
}

impl Model for Blocks {
    ghost use Rattle.std.specs.Prelude.{◌-◌, map};
    ghost use Rattle.std.specs.List.{All};
    ghost use Rattle.std.specs.Vec.{vec_len, vec_capacity};
    ghost use Rattle.auth_store_device.specs.BlocksCode.{Held, blocks_of, image_in, AreCut, IsPartWithin};

    ghost Value = { Held };

    ghost view = { λ it. record {
      blocks = blocks_of it.full.items it.last;
      images = map (λ image. image_in (blocks_of it.full.items it.last) image.items) it.images.items;
      room = vec_capacity it.last - vec_len it.last;
    } };

    ghost invariant = { λ it. All (λ image. All (IsPartWithin (blocks_of it.full.items it.last)) image.items)
        it.images.items × All (λ image. AreCut image.items) it.images.items };
}

// Puts the last block behind the full ones, and begins one that has room for so many bytes. It fails only when out of
// memory, and then nothing is changed.
fn begin_block(
    alloc: Global,
    full: &mut Vec<Vec<u8>>,
    last: &mut Vec<u8>,
    count: usize,
) -> Result<(), AllocError>
    ensures ok { OnOk result ((full.new.items ≡ full.old.items ++ last.old ∷ []) × (last.new.items ≡ [])
        × (count ≤ vec_capacity last.new)) }
    ensures err { OnErr result ((full.new.items ≡ full.old.items) × (last.new ≡ last.old)) }
{
    full.reserve(1)?;
    let block = Vec::with_capacity(alloc, count.max(BLOCK_ROOM))?;
    let _ = full.push(mem::replace(last, block));
    Ok(())
}

impl Blocks {
    /// One block of these bytes, which are an image. It fails only when out of memory.
    pub(crate) fn of(alloc: Global, bytes: Vec<u8>) -> Result<Blocks, AllocError>
        ensures { IfOk result (λ held. held.images ≡ bytes.items ∷ []) }
    {
        let whole = Part {
            block: 0,
            start: 0,
            count: bytes.len(),
        };
        let mut parts = Vec::new(alloc);
        parts.push(whole)?;
        let mut images = Vec::new(alloc);
        images.push(parts)?;
        Ok(Blocks {
            alloc,
            full: Vec::new(alloc),
            last: bytes,
            images,
        })
    }

    /// Makes room for so many bytes. It fails only when out of memory. No byte is moved.
    pub(crate) fn make_room(&mut self, count: usize) -> Result<(), AllocError>
        ensures gains { Gains self.old self.new }
        ensures room { OnOk result (count ≤ self.new.room) }
    {
        if count > self.last.capacity() - self.last.len() {
            begin_block(self.alloc, &mut self.full, &mut self.last, count)?;
        }
        Ok(())
    }

    /// Puts the bytes behind those of the last block, and answers where they lie. There is room for them.
    pub(crate) fn put(&mut self, bytes: &[u8]) -> Part
        requires { length bytes.now ≤ self.old.room }
        ensures gains { Gains self.old self.new }
        ensures within { IsPartWithin self.new.blocks result }
        ensures bytes { bytes_in self.new.blocks result ≡ bytes.now }
    {
        let part = Part {
            block: self.full.len(),
            start: self.last.len(),
            count: bytes.len(),
        };
        let _ = self.last.extend_from_slice(bytes);
        part
    }

    /// The bytes of a part.
    pub(crate) fn bytes(&self, part: Part) -> &[u8]
        requires { IsPartWithin self.now.blocks part }
        ensures { result.now ≡ bytes_in self.now.blocks part }
    {
        let block = if part.block < self.full.len() {
            self.full[part.block].as_slice()
        } else {
            self.last.as_slice()
        };
        &block[part.start..part.start + part.count]
    }

    /// The parts of an image.
    pub(crate) fn parts(&self, image: usize) -> &[Part]
        requires { image < length self.now.images }
        ensures within { All (IsPartWithin self.now.blocks) result.now }
        ensures cut { AreCut result.now }
        ensures bytes { image_in self.now.blocks result.now ≡ get_or self.now.images image [] }
    {
        self.images[image].as_slice()
    }

    // The part at a place of an image, where it has these bytes.
    fn part_like(&self, image: usize, place: usize, bytes: &[u8]) -> Option<Part>
        requires { image < length self.now.images }
        ensures within { IfSome result (λ part. IsPartWithin self.now.blocks part) }
        ensures bytes { IfSome result (λ part. bytes_in self.now.blocks part ≡ bytes.now) }
    {
        let parts = self.parts(image);
        if place < parts.len() {
            let part = parts[place];
            if self.bytes(part) == bytes {
                return Some(part);
            }
        }
        None
    }

    // The part at a place of an image, which has these bytes there, where it has as many.
    fn known_part(&self, image: usize, place: usize, bytes: &[u8]) -> Option<Part>
        requires image { image < length self.now.images }
        requires known { (i : ℕ) → i < length bytes.now
            → get_or bytes.now i 0 ≡ get_or (get_or self.now.images image []) (place * piece_bytes + i) 0 }
        ensures within { IfSome result (λ part. IsPartWithin self.now.blocks part) }
        ensures bytes { IfSome result (λ part. bytes_in self.now.blocks part ≡ bytes.now) }
    {
        let parts = self.parts(image);
        if place < parts.len() {
            let part = parts[place];
            if part.count == bytes.len() {
                return Some(part);
            }
        }
        None
    }

    // A part of these bytes: that of the base at this place, where that is known to have them; that of the image like
    // it, where it is seen to have them; else one that is put. It fails only when out of memory.
    fn put_piece(
        &mut self,
        bytes: &[u8],
        like: usize,
        base: usize,
        place: usize,
        is_known: bool,
    ) -> Result<Part, AllocError>
        requires like { like < length self.old.images }
        requires base { base < length self.old.images }
        requires known { is_known ≡ true → (i : ℕ) → i < length bytes.now
            → get_or bytes.now i 0 ≡ get_or (get_or self.old.images base []) (place * piece_bytes + i) 0 }
        ensures gains { Gains self.old self.new }
        ensures within { IfOk result (λ part. IsPartWithin self.new.blocks part) }
        ensures bytes { IfOk result (λ part. bytes_in self.new.blocks part ≡ bytes.now) }
    {
        if is_known {
            if let Some(part) = self.known_part(base, place, bytes) {
                return Ok(part);
            }
        }
        if let Some(part) = self.part_like(like, place, bytes) {
            return Ok(part);
        }
        self.make_room(bytes.len())?;
        Ok(self.put(bytes))
    }

    // Puts an image of these parts. It fails only when out of memory.
    fn note_image(&mut self, parts: Vec<Part>) -> Result<usize, AllocError>
        requires within { All (IsPartWithin self.old.blocks) parts.items }
        requires cut { AreCut parts.items }
        ensures gains { Gains self.old self.new }
        ensures there { IfOk result (λ image. image < length self.new.images) }
        ensures bytes { IfOk result (λ image. get_or self.new.images image [] ≡ image_in self.old.blocks parts.items) }
    {
        let image = self.images.len();
        self.images.push(parts)?;
        Ok(image)
    }

    // Whether an image has these parts.
    fn has_parts(&self, image: usize, parts: &[Part]) -> bool
        requires { image < length self.now.images }
        ensures { result ≡ true → get_or self.now.images image [] ≡ image_in self.now.blocks parts.now }
    {
        self.parts(image) == parts
    }

    /// Puts an image of these bytes, and answers its number. Bytes that are not touched are those of the base, and are
    /// not compared; a piece with others is that of the image like it, where this has the same bytes at its place, and
    /// else it is put. Where all parts are those of the image like it, that one's number is answered. It fails only
    /// when out of memory.
    pub(crate) fn put_image(
        &mut self,
        bytes: &[u8],
        like: usize,
        base: usize,
        touched: Touched,
    ) -> Result<usize, AllocError>
        requires like { like < length self.old.images }
        requires base { base < length self.old.images }
        requires untouched { (i : ℕ) → i < length bytes.now → IsOutside touched i
            → get_or bytes.now i 0 ≡ get_or (get_or self.old.images base []) i 0 }
        ensures gains { Gains self.old self.new }
        ensures there { IfOk result (λ image. image < length self.new.images) }
        ensures bytes { IfOk result (λ image. get_or self.new.images image [] ≡ bytes.now) }
    {
        let mut parts = Vec::with_capacity(self.alloc, bytes.len().div_ceil(PIECE))?;
        let mut rest = bytes;
        while !rest.is_empty() {
            let (piece, behind) = rest.split_at(rest.len().min(PIECE));
            let is_known = touched.is_outside(bytes.len() - rest.len(), piece.len());
            let part = self.put_piece(piece, like, base, parts.len(), is_known)?;
            parts.push(part)?;
            rest = behind;
        }
        if self.has_parts(like, &parts) {
            return Ok(like);
        }
        self.note_image(parts)
    }

    /// An image, as it is lent.
    pub(crate) fn image(&self, number: usize) -> Image<'_>
        requires { number < length self.now.images }
        ensures { result ≡ get_or self.now.images number [] }
    {
        Image {
            blocks: self,
            number,
        }
    }

    /// A copy of an image, in one piece. It fails only when out of memory.
    pub(crate) fn copy(&self, number: usize) -> Result<Vec<u8>, AllocError>
        requires { number < length self.now.images }
        ensures { IfOk result (λ bytes. bytes.items ≡ get_or self.now.images number []) }
    {
        self.image(number).to_vec(self.alloc)
    }
}

/// Bytes that are lent piece by piece (own).
#[derive(Debug, Drop)]
pub struct Image<'a> {
    blocks: &'a Blocks,
    number: usize,
}

impl<'a> Model for Image<'a> {
    ghost use Rattle.std.specs.Prelude.{◌<◌, ℕ, List, [], length, get_or};

    ghost Value = { List ℕ };

    ghost view = { λ it. get_or it.blocks.now.images it.number [] };

    ghost invariant = { λ it. it.number < length it.blocks.now.images };
}

impl<'a> Image<'a> {
    ghost use Rattle.std.specs.List.{concat};

    /// The same, lent once more.
    pub(crate) fn lend(&self) -> Image<'a>
        ensures { result ≡ self.now }
    {
        Image {
            blocks: self.blocks,
            number: self.number,
        }
    }

    /// The pieces, one behind the other. It takes no memory.
    pub fn pieces(&self) -> Pieces<'a>
        ensures { concat result ≡ self.now }
    {
        Pieces {
            blocks: self.blocks,
            parts: self.blocks.parts(self.number),
        }
    }

    /// A copy of the bytes, in one piece. It fails only when out of memory.
    pub fn to_vec(&self, alloc: Global) -> Result<Vec<u8>, AllocError>
        ensures { IfOk result (λ bytes. bytes.items ≡ self.now) }
    {
        let mut bytes = Vec::new(alloc);
        for piece in self.pieces() {
            bytes.extend_from_slice(piece)?;
        }
        Ok(bytes)
    }
}

/// The pieces that are left of an image (own).
#[derive(Debug, Drop)]
pub struct Pieces<'a> {
    blocks: &'a Blocks,
    parts: &'a [Part],
}

impl<'a> Model for Pieces<'a> {
    ghost use Rattle.std.specs.Prelude.{ℕ, List};
    ghost use Rattle.std.specs.List.{All};
    ghost use Rattle.auth_store_device.specs.BlocksCode.{pieces_in, IsPartWithin};

    ghost Value = { List (List ℕ) };

    ghost view = { λ it. pieces_in it.blocks.now.blocks it.parts.now };

    ghost invariant = { λ it. All (IsPartWithin it.blocks.now.blocks) it.parts.now };
}

impl<'a> Iterator for Pieces<'a> {
    type Item = &'a [u8];

    ghost next_gives = { YieldsFirstRef (λ s. s) };

    ghost remaining = { item_count (λ s. s) };

    fn next(&mut self) -> Option<&'a [u8]> {
        let (part, later) = self.parts.split_first()?;
        self.parts = later;
        Some(self.blocks.bytes(*part))
    }
}
