//! Proofs of one operation that are built out of known nodes and the bits of a bitmap.

ghost use Rattle.std.specs.Prelude.{◌≡◌, ◌<◌, ◌+◌, ◌*◌, ◌^◌, ℕ, IfOk, IfErr, OnOk};
ghost use Rattle.merkle_theory.specs.Plans.{Lookup, AnswersAs};
ghost use Rattle.state_theory.specs.Bits.{IsChunkWidth};
ghost use Rattle.state_proofs.specs.Built.{IsBuildable, IsRefusalOfLocated, IsRefusalOfOperation};
ghost use Rattle.state_theory.specs.Sources.{IsSourceOf};
ghost use Rattle.state_proofs.specs.BuiltCode.{measures_with, source_of, span_of};
ghost use Rattle.state_theory.specs.Canonical.{State, operations_root, setting_with};
ghost use Rattle.state_theory.specs.Honest.{honest_parts};
ghost use Rattle.state_proofs.specs.ProofsCode.{form_parts_of};

use crate::error::Error;
use crate::operation::Proof;
use crate::proof::RangeProof;
use crate::proof::building::lift;
use merkle_core::{ElementPlan, RangePlan, Readable};
use merkle_forest::hasher::HashFunction;
use merkle_forest::{Digest, Graftable, Location, PendingOf};
use state_proofs_parts::bitmap::BitmapReadable;
use state_proofs_parts::chunk_form::ChunkForm;
use state_proofs_parts::chunk_size::ChunkSize;
use std::alloc::Global;

impl<F: Graftable + PendingOf<D>, D: Digest, C: ChunkForm> Proof<F, D, C> {
    /// The proof of the operation at a planned location, from the digests of nodes that a function gives, the state's
    /// bits and floor and the root of its operations' tree. It is the honest one where all these are of one state.
    /// Where the operation's chunk is pruned: Q2; then it is refused as `RangeProof::build` refuses; out of memory: Q4.
    /// That the form of the proof's chunk may have N bytes is on the caller.
    /// In the Rust: `qmdb::current::proof::operation::Proof::build`.
    pub fn build<
        H: HashFunction<Digest = D>,
        B: BitmapReadable<N>,
        G: Fn(u64) -> Option<D>,
        const N: usize,
    >(
        alloc: Global,
        status: &B,
        plan: ElementPlan<F>,
        get_node: &G,
        inactivity_floor: Location<F>,
        ops_root: D,
    ) -> Result<Proof<F, D, C>, Error<F>>
        requires width { IsChunkWidth N }
        requires form { C.may_have N }
        requires callable { G.IsAlwaysCallable get_node.now }
        ensures honest { (height : ℕ) (known : Lookup) (state : State) → 8 * N ≡ 2 ^ height
            → AnswersAs (G.post get_node.now) D.encoding known
            → let setting = setting_with F.merge_rule H.hash_of N height in
            IsSourceOf setting state (source_of plan (B.bits status.now) (B.pruned status.now) known)
            → state.floor ≡ inactivity_floor → operations_root setting state ≡ D.encoding ops_root
            → IfOk result (λ proof. form_parts_of C.items D.encoding F.held proof
            ≡ honest_parts setting state plan.start) }
        ensures buildable { (height : ℕ) (known : Lookup) → 8 * N ≡ 2 ^ height
            → AnswersAs (G.post get_node.now) D.encoding known
            → OnOk result (IsBuildable (measures_with F.merge_rule N height)
            (source_of plan (B.bits status.now) (B.pruned status.now) known)) }
        ensures refused { (height : ℕ) (known : Lookup) → 8 * N ≡ 2 ^ height
            → AnswersAs (G.post get_node.now) D.encoding known
            → IfErr result (IsRefusalOfOperation (measures_with F.merge_rule N height)
            (source_of plan (B.bits status.now) (B.pruned status.now) known) plan.start) }
    {
        let loc = plan.location();
        let index = ChunkSize::of_bytes::<N>().index_of(loc.as_u64());
        if index < status.pruned_chunks() {
            return Err(Error::OperationPruned(loc));
        }
        let range_plan = RangePlan::from(plan);
        let range_proof = match RangeProof::build::<H, B, G, N>(
            status,
            &range_plan,
            get_node,
            inactivity_floor,
            ops_root,
        ) {
            Ok(range_proof) => range_proof,
            Err(e) => return Err(e),
        };
        let chunk = C::from_bytes(alloc, &status.get_chunk(index))?;
        Ok(Proof {
            loc,
            chunk,
            range_proof,
        })
    }

    /// The proof of the operation at a location of a tree, whose nodes are read, with the state's bits and floor and
    /// the root of its operations' tree. It is the honest one where all these are of one state. Where the operation's
    /// chunk is pruned: Q2; where the tree has no leaf there: Q3 with M7 and the location; then it is refused as
    /// `build` refuses; out of memory: Q4. That the form of the proof's chunk may have N bytes is on the caller.
    /// In the Rust: `qmdb::current::proof::operation::Proof::new`.
    pub fn new<
        H: HashFunction<Digest = D>,
        B: BitmapReadable<N>,
        S: Readable<F, Digest = D>,
        const N: usize,
    >(
        alloc: Global,
        status: &B,
        storage: &S,
        inactivity_floor: Location<F>,
        loc: Location<F>,
        ops_root: D,
    ) -> Result<Proof<F, D, C>, Error<F>>
        requires width { IsChunkWidth N }
        requires form { C.may_have N }
        ensures honest { (height : ℕ) (state : State) → 8 * N ≡ 2 ^ height
            → let setting = setting_with F.merge_rule H.hash_of N height in
            let span = span_of (S.leaf_total storage.now) loc (loc + 1) in
            IsSourceOf setting state
            (source_of span (B.bits status.now) (B.pruned status.now) (S.digest_at storage.now))
            → state.floor ≡ inactivity_floor → operations_root setting state ≡ D.encoding ops_root
            → IfOk result (λ proof. form_parts_of C.items D.encoding F.held proof
            ≡ honest_parts setting state loc) }
        ensures within { OnOk result (loc < S.leaf_total storage.now) }
        ensures buildable { (height : ℕ) → 8 * N ≡ 2 ^ height
            → let span = span_of (S.leaf_total storage.now) loc (loc + 1) in
            OnOk result (IsBuildable (measures_with F.merge_rule N height)
            (source_of span (B.bits status.now) (B.pruned status.now) (S.digest_at storage.now))) }
        ensures refused { (height : ℕ) → 8 * N ≡ 2 ^ height
            → let span = span_of (S.leaf_total storage.now) loc (loc + 1) in
            IfErr result (IsRefusalOfLocated (measures_with F.merge_rule N height)
            (source_of span (B.bits status.now) (B.pruned status.now) (S.digest_at storage.now)) loc) }
    {
        let chunk = ChunkSize::of_bytes::<N>().index_of(loc.as_u64());
        if chunk < status.pruned_chunks() {
            return Err(Error::OperationPruned(loc));
        }
        let leaves = Location::new(storage.leaf_count());
        let plan = match ElementPlan::new(alloc, leaves, loc) {
            Ok(plan) => plan,
            Err(e) => return Err(lift(e)),
        };
        Proof::build::<H, B, _, N>(
            alloc,
            status,
            plan,
            &|position| storage.node_digest(position),
            inactivity_floor,
            ops_root,
        )
    }
}
