//! The check of a proof of one operation: its bit is set, and the proof over a range shows the operation and its chunk.

ghost use Rattle.std.specs.Prelude.{◌↔◌, IsTrue};
ghost use Rattle.state_proofs.specs.ProofsCode.{form_parts_of};
ghost use Rattle.state_theory.specs.Verified.{Verifies};

use crate::operation::Proof;
use merkle_forest::{Digest, Graftable, HashFunction, PendingOf};
use state_proofs_parts::chunk_size::ChunkSize;
use state_proofs_parts::shown_chunk::is_bit_set;
use std::convert::AsSlice;

impl<F: Graftable + PendingOf<D>, D: Digest, C: AsSlice<u8>> Proof<F, D, C> {
    /// Whether the proof shows that the encoded operation stands at its location in the state of this root and is
    /// active there. It takes no memory.
    /// In the Rust: `qmdb::current::proof::operation::Proof::verify`, which encodes the operation itself.
    pub fn verify<H: HashFunction<Digest = D>>(&self, operation: &[u8], root: &D) -> bool
        ensures { IsTrue result ↔ Verifies F.merge_rule H.hash_of (D.encoding root.now)
            (form_parts_of C.items D.encoding F.held self.now) operation.now }
    {
        let chunk = self.chunk.as_slice();
        let Some(chunk_size) = ChunkSize::of(chunk) else {
            return false;
        };
        if !is_bit_set(chunk, chunk_size.bit_of(self.loc.as_u64())) {
            return false;
        }
        self.range_proof
            .verify_with_chunk_size::<H>(self.loc, &[operation], &[chunk], chunk.len(), root)
    }
}
