//! Witnesses of the root of the operations' tree.

ghost use Rattle.std.specs.Prelude.{◌≡◌, ◌<◌, ◌≤◌, ◌^◌, ◌++◌, ◌↔◌, IsTrue, IsOk, IfSome, IfOk, length, Ok, OnOk, OnErr};
ghost use Rattle.std.specs.Prelude.{option_map, ⊤};
ghost use Rattle.merkle_forest.specs.Codec.{Extends, Reads, option_encoding, after_option};
ghost use Rattle.merkle_forest.specs.Varint.{varint};
ghost use Rattle.state_proofs.specs.Witness.{witness_of, witnessed_string, witness_encoding, next_encoding, after_next};
ghost use Rattle.state_proofs.specs.Witness.{after_witness, HasNext};

use merkle_forest::codec::{
    Cursor, EncodeSize, Error, Read, Write, number_size, or_undo, read_number, write_number,
};
use merkle_forest::hasher::HashFunction;
use merkle_forest::{Digest, PendingOf};
use state_proofs_parts::seal::seal;
use std::alloc::{AllocError, Global};

/// What leads from the root of the operations' tree to the canonical one: the other parts of the canonical string. Its
/// encoding is these in order, the next bit as a varint.
/// In the Rust: `qmdb::current::proof::OpsRootWitness`.
#[derive(Debug, PartialEq, Eq, Drop)]
pub struct OpsRootWitness<F: PendingOf<D>, D: Digest> {
    /// The root of the grafted tree.
    pub grafted_root: D,
    /// What is held of the digest of the full chunk that isn't graftable yet.
    pub pending_chunk_digest: F::Pending,
    /// The next bit and the digest of the partial chunk.
    pub partial_chunk: Option<(u64, D)>,
}

// The next bit, and the digest.
fn split_partial<D: Digest>(partial: &Option<(u64, D)>) -> (u64, Option<D>)
    ensures next { IfSome partial.now (λ x. result.0 ≡ x.0) }
    ensures digest { option_map D.encoding result.1 ≡ option_map (λ x. D.encoding x.1) partial.now }
{
    match partial {
        None => (0, None),
        Some((next, digest)) => (*next, Some(*digest)),
    }
}

impl<F: PendingOf<D>, D: Digest> OpsRootWitness<F, D> {
    /// An equal witness. It takes no memory (own). In the Rust: `Clone::clone`.
    pub fn try_copy(&self) -> Result<OpsRootWitness<F, D>, AllocError>
        ensures same { IfOk result (λ copy. copy ≡ self.now) }
        ensures always { IsOk result }
    {
        Ok(OpsRootWitness {
            grafted_root: self.grafted_root,
            pending_chunk_digest: self.pending_chunk_digest,
            partial_chunk: self.partial_chunk,
        })
    }

    /// The canonical root over this root of the operations' tree.
    /// In the Rust: `qmdb::current::proof::OpsRootWitness::root`.
    pub fn root<H: HashFunction<Digest = D>>(&self, ops_root: &D) -> D
        ensures { D.encoding result
            ≡ H.hash_of (witnessed_string (witness_of D.encoding F.held self.now) (D.encoding ops_root.now)) }
    {
        let pending = F::digest_of(&self.pending_chunk_digest);
        let (next, partial) = split_partial(&self.partial_chunk);
        seal::<H>(ops_root, &self.grafted_root, &pending, next, &partial)
    }

    /// Whether the canonical root over this root of the operations' tree is this one.
    /// In the Rust: `qmdb::current::proof::OpsRootWitness::verify`.
    pub fn verify<H: HashFunction<Digest = D>>(&self, ops_root: &D, root: &D) -> bool
        ensures { IsTrue result ↔ (H.hash_of
            (witnessed_string (witness_of D.encoding F.held self.now) (D.encoding ops_root.now))
            ≡ D.encoding root.now) }
    {
        self.root::<H>(ops_root) == *root
    }
}

// Appends the flag, and the next bit and the digest. Out of memory, some of these bytes may have been appended.
fn write_partial<D: Digest>(partial: &Option<(u64, D)>, out: &mut Vec<u8>) -> Result<(), AllocError>
    ensures ok { OnOk result (out.new.items ≡ out.old.items
        ++ option_encoding next_encoding (option_map (λ x. (x.0, D.encoding x.1)) partial.now)) }
    ensures err { OnErr result (Extends out.old.items out.new.items) }
    ensures value { OnOk result (HasNext D.is_value partial.now) }
{
    match partial {
        None => Ok(out.push(0)?),
        Some((next, digest)) => {
            out.push(1)?;
            write_number(out, *next)?;
            digest.write(out)
        }
    }
}

// Appends the encoding. Out of memory, some of its bytes may have been appended.
fn write_parts<F: PendingOf<D>, D: Digest>(
    witness: &OpsRootWitness<F, D>,
    out: &mut Vec<u8>,
) -> Result<(), AllocError>
    ensures ok { OnOk result (out.new.items ≡ out.old.items
        ++ witness_encoding F.pending_encoding (witness_of D.encoding F.held witness.now)) }
    ensures err { OnErr result (Extends out.old.items out.new.items) }
    ensures root { OnOk result (D.is_value witness.now.grafted_root) }
    ensures pending { OnOk result (F.Pending.is_value witness.now.pending_chunk_digest) }
    ensures partial { OnOk result (HasNext D.is_value witness.now.partial_chunk) }
{
    witness.grafted_root.write(out)?;
    witness.pending_chunk_digest.write(out)?;
    write_partial(&witness.partial_chunk, out)
}

impl<F: PendingOf<D>, D: Digest> Write for OpsRootWitness<F, D> {
    ghost encoding = { λ w. witness_encoding F.pending_encoding (witness_of D.encoding F.held w) };

    ghost is_value = { λ w. D.is_value w.grafted_root × F.Pending.is_value w.pending_chunk_digest
        × HasNext D.is_value w.partial_chunk };

    fn write(&self, out: &mut Vec<u8>) -> Result<(), AllocError> {
        let start = out.len();
        or_undo(write_parts(self, out), out, start)
    }
}

// The length of the flag, and of the next bit and the digest.
fn partial_size<D: Digest>(partial: &Option<(u64, D)>) -> usize
    requires { length (option_encoding next_encoding (option_map (λ x. (x.0, D.encoding x.1)) partial.now)) < 2 ^ 64 }
    ensures { result
        ≡ length (option_encoding next_encoding (option_map (λ x. (x.0, D.encoding x.1)) partial.now)) }
{
    match partial {
        None => 1,
        Some((next, digest)) => 1 + number_size(*next) + digest.as_bytes().len(),
    }
}

impl<F: PendingOf<D>, D: Digest> EncodeSize for OpsRootWitness<F, D> {
    fn encode_size(&self) -> usize {
        self.grafted_root.as_bytes().len()
            + self.pending_chunk_digest.encode_size()
            + partial_size(&self.partial_chunk)
    }
}

// The next bit and the digest at the front.
fn read_next<D: Digest>(alloc: Global, cursor: &mut Cursor<'_>) -> Result<(u64, D), Error>
    ensures read { Reads (λ x. next_encoding (x.0, D.encoding x.1)) cursor.old cursor.new
        (after_next (D.after tt) cursor.old) ⊥ result }
    ensures value { IfOk result (λ x. (x.0 < 2 ^ 64) × D.is_value x.1) }
{
    let next = read_number(cursor)?;
    let digest = D::read_cfg(alloc, cursor, &())?;
    Ok((next, digest))
}

// The flag at the front, and the next bit and the digest where it says so.
fn read_partial<D: Digest>(
    alloc: Global,
    cursor: &mut Cursor<'_>,
) -> Result<Option<(u64, D)>, Error>
    ensures read { Reads (λ p. option_encoding next_encoding (option_map (λ x. (x.0, D.encoding x.1)) p)) cursor.old
        cursor.new (after_option (after_next (D.after tt)) cursor.old) ⊥ result }
    ensures value { IfOk result (HasNext D.is_value) }
{
    if bool::read_cfg(alloc, cursor, &())? {
        Ok(Some(read_next(alloc, cursor)?))
    } else {
        Ok(None)
    }
}

impl<F: PendingOf<D>, D: Digest> Read for OpsRootWitness<F, D> {
    ghost use Rattle.state_proofs.specs.Laws.Witness.{witness_again};

    type Cfg = ();

    ghost after = { λ _ bytes. after_witness (D.after tt) F.pending_after bytes };

    ghost may_lack = { λ _ _. ⊥ };

    ghost is_within = { λ _ _. ⊤ };

    fn read_cfg(
        alloc: Global,
        cursor: &mut Cursor<'_>,
        _cfg: &(),
    ) -> Result<OpsRootWitness<F, D>, Error> {
        let grafted_root = D::read_cfg(alloc, cursor, &())?;
        let pending_chunk_digest = F::Pending::read_cfg(alloc, cursor, &())?;
        let partial_chunk = read_partial(alloc, cursor)?;
        Ok(OpsRootWitness {
            grafted_root,
            pending_chunk_digest,
            partial_chunk,
        })
    }

    ghost read_again = { λ _ w rest value _.
        witness_again D.encoding D.is_value D.SIZE D.sized F.held F.Pending.is_value
        F.is_pending F.pending_value (D.after tt) F.pending_after F.pending_encoding
        (record { any = D.any_bytes; again = F.pending_again; once = F.pending_once }) w rest value };
}
