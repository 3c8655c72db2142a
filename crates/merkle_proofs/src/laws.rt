//! What holds of all proofs.

ghost use Rattle.std.specs.Prelude.{◌≡◌, ◌<◌, ◌≤◌, ◌+◌, ◌-◌, ◌*◌, ◌^◌, ◌++◌, ◌∷◌, ℕ, min, List, map, length, take};
ghost use Rattle.std.specs.Prelude.{drop, replicate, Contains, Some, None, true, IfSome, IsSomeAnd, option_map};
ghost use Rattle.std.specs.List.{All};
ghost use Rattle.merkle_forest.specs.declared.bagging.Bagging.{Bagging};
ghost use Rattle.merkle_forest.specs.Forest.{forest_of, mmr_rule, mmb_rule};
ghost use Rattle.merkle_forest.specs.Hashing.{Hash, leaf_string, node_string, root_of};
ghost use Rattle.merkle_forest.specs.Made.{value, strings};
ghost use Rattle.merkle_forest.specs.Trees.{located, peak_digests, plain_digest, tree_root};
ghost use Rattle.merkle_core_parts.specs.Layers.{AreLed, made_by};
ghost use Rattle.merkle_core_parts.specs.Mem.{Nodes, Growth, node_at, own_layer, NodeHash, AreNodesOf, tree_digest};
ghost use Rattle.merkle_core_parts.specs.Mem.{plain_node, plain_leaf_digests, pinned_positions};
ghost use Rattle.merkle_core_parts.specs.declared.error.Error.{Error};
ghost use Rattle.merkle_core_parts.specs.declared.error.Error.TheVariants.{Memory};
ghost use Rattle.merkle_proofs.specs.Extracted.{AreMadeOf, AreGiven, AreExtracted, extracted_nodes};
ghost use Rattle.merkle_theory.specs.HonestReads.{ReadsHonestly};
ghost use Rattle.merkle_proofs.specs.ListDigests.{GivesDigestsOrCollides};
ghost use Rattle.merkle_theory.specs.MadeRoots.{Naming, from_left, peaks_of};
ghost use Rattle.merkle_theory.specs.MadeTrees.{Over, from, plain_over};
ghost use Rattle.merkle_theory.specs.Multi.{AreDigestsAt, AreMultiDigests};
ghost use Rattle.merkle_theory.specs.MultiReads.{Shown, can_be_shown, needed_positions, multi_root};
ghost use Rattle.merkle_theory.specs.MultiSoundness.{AreHonestOrCollide, AreSound, shown_of};
ghost use Rattle.merkle_theory.specs.OneEach.{OneEach};
ghost use Rattle.merkle_theory.specs.Pinned.{AreMadeBefore, ArePinned};
ghost use Rattle.merkle_proofs.specs.PinnedSoundness.{ArePinnedBeside, PinsListOrCollides, pinned_strings};
ghost use Rattle.merkle_theory.specs.Plans.{Lookup, IsLookupOf, honest_digests, first_missing, positions_of};
ghost use Rattle.merkle_theory.specs.Plans.{inner_nodes, range_nodes};
ghost use Rattle.merkle_proofs.specs.ProofStores.{Kept, AreFoldsOf, IsPart, IsRefusalToBuildPart, digest_among};
ghost use Rattle.merkle_proofs.specs.ProofStores.{known_with, IsKnownOf, front_peaks, back_peaks, more_before};
ghost use Rattle.merkle_proofs.specs.ProofStores.{more_after, part_nodes, kept_nodes};
ghost use Rattle.merkle_theory.specs.RangeCounts.{range_outer};
ghost use Rattle.merkle_theory.specs.Ranges.{Digests, range_digests};
ghost use Rattle.merkle_theory.specs.Reads.{Agrees, HashesAs, range_root, claim_of};
ghost use Rattle.merkle_theory.specs.Soundness.{RangeClaim, claimed_root, hashed_strings, IsSound, list_root};
ghost use Rattle.merkle_theory.specs.Soundness.{plain_names};

use merkle_forest::Digest;
use merkle_forest::family::{Family, MAX_LEAVES, MAX_PINNED_NODES};
use merkle_forest::graftable::Graftable;
use merkle_forest::hasher::HashFunction;

/// The honest proof of one element has at most 122 digests.
pub fn honest_digests_are_few<F: Graftable>()
    ensures { (hash : Hash) (bagging : Bagging) (digest : Digests) (leaves inactive location : ℕ) → leaves ≤ 2 ^ 62
        → location < leaves → inactive ≤ length (forest_of F.merge_rule leaves)
        → length (range_digests hash digest bagging location (location + 1)
        (take inactive (located (forest_of F.merge_rule leaves)))
        (drop inactive (located (forest_of F.merge_rule leaves)))) ≤ 122 }
{}

/// The root of the tree over a list is the value of the term that is made of the list.
pub fn roots_are_values_of_what_is_made<F: Family>()
    ensures { (hash : Hash) (bagging : Bagging) (elements : List (List ℕ)) (inactive : ℕ)
        → value hash (list_root bagging F.merge_rule elements inactive)
        ≡ tree_root hash bagging F.merge_rule elements inactive }
{}

/// Where a proof of a range leads to the root of a list, what it claims is true of the list, or the strings hashed for
/// the list and those rebuilt from the proof have a collision: at one site two strings differ that have one digest.
pub fn claims_are_true_or_strings_collide<F: Family>()
    ensures { (hash : Hash) (size : ℕ) (bagging : Bagging) (elements : List (List ℕ)) (inactive : ℕ)
        (claim : RangeClaim)
        → ((bytes : List ℕ) → length (hash bytes) ≡ size)
        → All (λ digest. length digest ≡ size) claim.digests
        → length elements ≤ 2 ^ 62 → inactive < 2 ^ 64
        → IfSome (claimed_root bagging F.merge_rule claim)
        (IsSound hash bagging F.merge_rule elements inactive claim) }
{}

/// At each site one string is hashed for a list, one when a root is rebuilt from a proof of a range or of several
/// elements, and one when what stands before a range is rebuilt from pinned digests, alone or beside such a root.
pub fn each_site_has_one_string<F: Family>()
    ensures hashed { (hash : Hash) (bagging : Bagging) (elements : List (List ℕ)) (inactive : ℕ)
        → OneEach (hashed_strings hash bagging F.merge_rule elements inactive) }
    ensures rebuilt { (hash : Hash) (bagging : Bagging) (claim : RangeClaim)
        → IfSome (claimed_root bagging F.merge_rule claim) (λ made. OneEach (strings hash made)) }
    ensures shown { (hash : Hash) (bagging : Bagging) (leaves inactive : ℕ) (shown : Shown) (digests : List (List ℕ))
        → IfSome (multi_root plain_names plain_over bagging F.merge_rule leaves inactive shown digests)
        (λ made. OneEach (strings hash made)) }
    ensures pinned { (hash : Hash) (none : List ℕ) (bagging : Bagging) (claim : RangeClaim) (digests : List (List ℕ))
        → OneEach (pinned_strings hash none bagging F.merge_rule claim digests) }
    ensures beside { (hash : Hash) (none : List ℕ) (bagging : Bagging) (claim : RangeClaim) (digests : List (List ℕ))
        → IfSome (claimed_root bagging F.merge_rule claim)
        (λ made. OneEach (strings hash made ++ pinned_strings hash none bagging F.merge_rule claim digests)) }
{}

/// A hasher that hashes leaves and branches by their strings alone hashes as a plain tree is made.
pub fn plain_hashers_hash_as_is_made<F: Family, H: HashFunction>()
    ensures { HashesAs F.merge_rule H.hash_of (λ position element. H.hash_of (leaf_string position element))
        (λ position left right. H.hash_of (node_string position left right)) plain_over }
{}

/// Where a proof of a range, as the verifiers read it, leads to the root of a list, these elements stand in the list
/// from that location on, or the strings hashed for the list and those rebuilt from the proof have a collision.
pub fn shown_ranges_are_true_or_strings_collide<F: Family>()
    ensures { (hash : Hash) (size : ℕ) (bagging : Bagging) (elements : List (List ℕ)) (inactive : ℕ)
        (leaves shown_inactive start : ℕ) (shown digests : List (List ℕ))
        → ((bytes : List ℕ) → length (hash bytes) ≡ size)
        → All (λ digest. length digest ≡ size) digests
        → length elements ≤ 2 ^ 62 → inactive < 2 ^ 64
        → IfSome (range_root plain_names plain_over bagging F.merge_rule leaves shown_inactive start shown digests)
        (IsSound hash bagging F.merge_rule elements inactive
        (claim_of bagging F.merge_rule leaves shown_inactive start shown digests)) }
{}

/// Where a proof of a range, as the verifiers read it, leads to the root of a list, it is, field by field, the honest
/// proof of the list, and the nodes that are extracted from it are the list's; or the strings hashed for the list and
/// those rebuilt from the proof have a collision.
pub fn shown_digests_are_of_the_list_or_strings_collide<F: Family>()
    ensures { (hash : Hash) (size : ℕ) (bagging : Bagging) (elements : List (List ℕ)) (inactive : ℕ)
        (leaves shown_inactive start : ℕ) (shown digests : List (List ℕ))
        → ((bytes : List ℕ) → length (hash bytes) ≡ size)
        → All (λ digest. length digest ≡ size) digests
        → length elements ≤ 2 ^ 62 → inactive < 2 ^ 64
        → IfSome (range_root plain_names plain_over bagging F.merge_rule leaves shown_inactive start shown digests)
        (GivesDigestsOrCollides hash bagging F.merge_rule elements inactive
        (claim_of bagging F.merge_rule leaves shown_inactive start shown digests)) }
{}

/// Where a proof of a range, as the verifiers read it, agrees with the root of a tree in all that it gives as known,
/// its digests are those of the honest proof of the range in that tree: however branches are hashed, if branches that
/// agree have children that agree.
pub fn proofs_that_agree_with_a_root_are_honest<F: Family>()
    ensures { ReadsHonestly F.merge_rule }
{}

/// Where a proof of a range, as the verifiers read it, leads to the root of a list, and its digests that stand for
/// leaves before the range are made of pinned ones, these are the digests of the list's nodes to pin where the range
/// begins, from left to right; or the strings hashed for the list, and those rebuilt from the proof and from the pinned
/// digests, have a collision.
pub fn pinned_digests_are_of_the_list_or_strings_collide<F: Family>()
    ensures { (hash : Hash) (size : ℕ) (bagging : Bagging) (elements : List (List ℕ)) (inactive : ℕ)
        (leaves shown_inactive start : ℕ) (shown digests pinned : List (List ℕ))
        → ((bytes : List ℕ) → length (hash bytes) ≡ size)
        → All (λ digest. length digest ≡ size) digests
        → All (λ digest. length digest ≡ size) pinned
        → length elements ≤ 2 ^ 62 → inactive < 2 ^ 64
        → let claim = claim_of bagging F.merge_rule leaves shown_inactive start shown digests in
        ArePinnedBeside hash (replicate size 0) bagging F.merge_rule claim pinned
        → IfSome (range_root plain_names plain_over bagging F.merge_rule leaves shown_inactive start shown digests)
        (PinsListOrCollides hash (replicate size 0) bagging F.merge_rule elements inactive claim pinned) }
{}

/// The digests of the honest proof of a range lead to the root of the tree, for all digests of trees that are made over
/// the elements of the range.
pub fn honest_ranges_lead_to_the_root<F: Family>()
    ensures { (hash : Hash) (names : Naming) (over : Over) (bagging : Bagging) (digest : Digests)
        (leaves inactive start : ℕ) (elements : List (List ℕ))
        → leaves ≤ 2 ^ 62 → 0 < length elements → start + length elements ≤ leaves
        → inactive ≤ length (forest_of F.merge_rule leaves)
        → Agrees hash over (from start elements) digest start (start + length elements)
        → option_map (value hash) (range_root names over bagging F.merge_rule leaves inactive start elements
        (range_digests hash digest bagging start (start + length elements)
        (take inactive (located (forest_of F.merge_rule leaves)))
        (drop inactive (located (forest_of F.merge_rule leaves)))))
        ≡ Some (root_of hash bagging leaves inactive (peak_digests digest (forest_of F.merge_rule leaves))) }
{}

/// The plain digests of a list are made over each part of it: so the honest proof of a range of a list is accepted.
pub fn parts_of_a_list_agree_with_it()
    ensures { (hash : Hash) (elements : List (List ℕ)) (start count : ℕ)
        → Agrees hash plain_over (from start (take count (drop start elements))) (plain_digest hash elements) start
        (start + count) }
{}

/// Honest pinned digests are accepted: the digests of the honest proof of a range that stand for leaves before it are
/// made of those of the nodes to pin where it begins, if each branch there is made of its children. So they are in the
/// plain tree of a list, to whose root that proof leads.
pub fn honest_pinned_digests_are_accepted<F: Family>()
    ensures pinned { (hash : Hash) (node_of : NodeHash) (none : List ℕ) (bagging : Bagging) (digest : Digests)
        (leaves inactive start stop : ℕ)
        → start < stop → stop ≤ leaves → AreMadeBefore node_of F.merge_rule leaves start digest
        → let peaks = peaks_of F.merge_rule leaves in
        ArePinned hash node_of none F.merge_rule leaves (from_left bagging inactive (length peaks)) start stop
        (range_outer bagging start stop inactive peaks)
        (honest_digests hash digest bagging F.merge_rule leaves inactive start stop)
        (peak_digests digest (forest_of F.merge_rule start)) }
    ensures made { (node_of : NodeHash) (leaf_digests : List (List ℕ)) (leaves start : ℕ)
        → AreMadeBefore node_of F.merge_rule leaves start (tree_digest node_of leaf_digests) }
    ensures listed { (hash : Hash) (none : List ℕ) (bagging : Bagging) (elements : List (List ℕ))
        (inactive start stop : ℕ)
        → length elements ≤ 2 ^ 62 → start < stop → stop ≤ length elements
        → let leaves = length elements in
        let peaks = peaks_of F.merge_rule leaves in
        let shown = take (stop - start) (drop start elements) in
        let digest = plain_digest hash elements in
        let digests = honest_digests hash digest bagging F.merge_rule leaves inactive start stop in
        inactive ≤ length peaks
        → (option_map (value hash) (range_root plain_names plain_over bagging F.merge_rule leaves inactive start shown
        digests) ≡ Some (tree_root hash bagging F.merge_rule elements inactive))
        × ArePinned hash (plain_node hash) none F.merge_rule leaves (from_left bagging inactive (length peaks)) start
        stop (range_outer bagging start stop inactive peaks) digests
        (peak_digests digest (forest_of F.merge_rule start)) }
{}

/// What is known of the nodes of a tree in memory is known of the list that it is a tree of.
pub fn nodes_of_a_tree_are_those_of_its_list<F: Family>()
    ensures { (node : NodeHash) (leaf_digests : List (List ℕ)) (nodes : Nodes)
        → AreNodesOf node F.merge_rule leaf_digests nodes
        → (nodes.leaves ≡ length leaf_digests) × IsLookupOf node F.merge_rule leaf_digests
        (node_at F.merge_rule nodes) }
{}

/// What a batch and those below it know of the nodes of a tree is known of the list that they lead to.
pub fn nodes_of_a_batch_are_those_of_its_list<F: Family>()
    ensures { (node : NodeHash) (leaf_digests : List (List ℕ)) (earlier : List (List (List ℕ))) (batch : Growth)
        → AreLed node F.merge_rule (own_layer batch ∷ batch.below) earlier leaf_digests
        → IsLookupOf node F.merge_rule leaf_digests (made_by F.merge_rule batch) }
{}

/// The proof of a range that is built out of the nodes of the plain tree of a list leads to the root of that tree.
pub fn built_proofs_lead_to_the_root<F: Family>()
    ensures { (hash : Hash) (bagging : Bagging) (elements : List (List ℕ)) (inactive start stop : ℕ)
        → length elements ≤ 2 ^ 62 → start < stop → stop ≤ length elements
        → inactive ≤ length (peaks_of F.merge_rule (length elements))
        → option_map (value hash) (range_root plain_names plain_over bagging F.merge_rule
        (length elements) inactive start
        (take (stop - start) (drop start elements))
        (honest_digests hash (tree_digest (plain_node hash) (plain_leaf_digests hash F.merge_rule 0 elements)) bagging
        F.merge_rule (length elements) inactive start stop))
        ≡ Some (tree_root hash bagging F.merge_rule elements inactive) }
{}

/// The digests of the proof of some elements are those of the list, where what is known of the nodes is that of the
/// list.
pub fn digests_of_many_are_those_of_the_list<F: Family>()
    ensures { (node : NodeHash) (leaf_digests : List (List ℕ)) (known : Lookup) (positions : List ℕ)
        (digests : List (List ℕ)) → IsLookupOf node F.merge_rule leaf_digests known
        → map (λ d. Some d) digests ≡ map known positions
        → AreDigestsAt node F.merge_rule leaf_digests positions digests }
{}

/// Where a proof of some elements leads to the root of a list, these elements stand in the list at their locations, or
/// the strings hashed for the list and those rebuilt from the proof have a collision.
pub fn shown_elements_are_true_or_strings_collide<F: Family>()
    ensures { (hash : Hash) (size : ℕ) (bagging : Bagging) (elements : List (List ℕ)) (inactive : ℕ)
        (leaves shown_inactive : ℕ) (shown : Shown) (digests : List (List ℕ))
        → ((bytes : List ℕ) → length (hash bytes) ≡ size)
        → All (λ digest. length digest ≡ size) digests
        → length elements ≤ 2 ^ 62 → inactive < 2 ^ 64
        → IfSome (multi_root plain_names plain_over bagging F.merge_rule leaves shown_inactive shown digests)
        (AreSound hash bagging F.merge_rule elements inactive leaves shown_inactive shown) }
{}

/// Where a proof of some elements leads to the root of a list, it is, field by field, the honest proof of the list for
/// their locations, or the strings hashed for the list and those rebuilt from the proof have a collision.
pub fn shown_elements_are_honest_or_strings_collide<F: Family>()
    ensures { (hash : Hash) (size : ℕ) (bagging : Bagging) (elements : List (List ℕ)) (inactive : ℕ)
        (leaves shown_inactive : ℕ) (shown : Shown) (digests : List (List ℕ))
        → ((bytes : List ℕ) → length (hash bytes) ≡ size)
        → All (λ digest. length digest ≡ size) digests
        → length elements ≤ 2 ^ 62 → inactive < 2 ^ 64
        → IfSome (multi_root plain_names plain_over bagging F.merge_rule leaves shown_inactive shown digests)
        (AreHonestOrCollide hash bagging F.merge_rule elements inactive leaves shown_inactive shown digests) }
{}

/// The proof of some elements that is built out of known nodes of the plain tree of a list leads to the root of that
/// tree.
pub fn built_proofs_of_elements_lead_to_the_root<F: Family>()
    ensures { (hash : Hash) (bagging : Bagging) (elements : List (List ℕ)) (inactive : ℕ) (locations : List ℕ)
        (known : Lookup) (digests : List (List ℕ))
        → can_be_shown (length elements) locations ≡ true
        → inactive ≤ length (peaks_of F.merge_rule (length elements))
        → IsLookupOf (plain_node hash) F.merge_rule (plain_leaf_digests hash F.merge_rule 0 elements) known
        → AreMultiDigests F.merge_rule (length elements) locations known digests
        → option_map (value hash) (multi_root plain_names plain_over bagging F.merge_rule (length elements) inactive
        (shown_of elements locations) digests) ≡ Some (tree_root hash bagging F.merge_rule elements inactive) }
{}

/// The honest proof of a range gives the digests of the nodes that it tells, and those of a list are made of any part
/// of it: so what is extracted from the honest proof of a range of a list are that list's nodes.
pub fn honest_proofs_tell_the_nodes_of_the_list<F: Family>()
    ensures given { (hash : Hash) (bagging : Bagging) (digest : Digests) (leaves inactive start stop : ℕ) → start < stop
        → let peaks = peaks_of F.merge_rule leaves in
        AreGiven (from_left bagging inactive (length peaks)) start stop peaks digest
        (honest_digests hash digest bagging F.merge_rule leaves inactive start stop) }
    ensures made { (hash : Hash) (elements : List (List ℕ)) (start count : ℕ)
        → AreMadeOf (λ position element. hash (leaf_string position element))
        (λ position left right. hash (node_string position left right)) (from start (take count (drop start elements)))
        start (start + count) (plain_digest hash elements) }
{}

/// Each proof of a range that leads to a root gives digests: there are digests of trees that are made of the elements
/// shown where a tree holds one, and that the proof gives where it holds none. So each such proof tells its nodes.
pub fn proofs_that_lead_to_a_root_give_digests<F: Family>()
    ensures { (names : Naming) (over : Over) (bagging : Bagging) (leaves inactive start : ℕ)
        (shown digests : List (List ℕ)) (leaf_of : ℕ → List ℕ → List ℕ) (node_of : ℕ → List ℕ → List ℕ → List ℕ)
        → let peaks = peaks_of F.merge_rule leaves in
        let stop = start + length shown in
        IfSome (range_root names over bagging F.merge_rule leaves inactive start shown digests)
        (λ made. (digest : Digests) × AreMadeOf leaf_of node_of (from start shown) start stop digest
        × AreGiven (from_left bagging inactive (length peaks)) start stop peaks digest digests) }
{}

/// What is kept of a proof that tells nodes with these digests are nodes of the tree with them, and so is what is known
/// where such peaks are supplied besides. Where the digests are those of a list, what is known is the list's.
pub fn kept_nodes_are_those_of_the_tree<F: Family, D: Digest>()
    ensures kept { (digest : Digests) (leaves singles start stop : ℕ) (nodes : List (ℕ × D))
        → AreExtracted D.encoding digest (extracted_nodes singles start stop (peaks_of F.merge_rule leaves)) nodes
        → IsKnownOf F.merge_rule leaves digest (digest_among D.encoding nodes) }
    ensures supplied { (digest : Digests) (leaves : ℕ) (nodes supplied : List (ℕ × D))
        → IsKnownOf F.merge_rule leaves digest (digest_among D.encoding nodes)
        → IsKnownOf F.merge_rule leaves digest (digest_among D.encoding supplied)
        → IsKnownOf F.merge_rule leaves digest (known_with D.encoding nodes supplied) }
    ensures listed { (node : NodeHash) (leaf_digests : List (List ℕ)) (known : Lookup)
        → IsKnownOf F.merge_rule (length leaf_digests) (tree_digest node leaf_digests) known
        → IsLookupOf node F.merge_rule leaf_digests known }
{}

/// What is kept of a proof are all the nodes that the proof of a part of its range is made of: each of them is one of
/// the peaks that are kept in one digest with others, or is kept itself. So the proof of a part is refused only for
/// want of memory.
pub fn proofs_of_parts_lack_no_node<F: Family, D: Digest>()
    ensures planned { (store : Kept D) (start stop : ℕ) → IsPart store start stop
        → let peaks = peaks_of F.merge_rule store.leaves in
        range_nodes start stop peaks ≡ (front_peaks F.merge_rule store ++ more_before F.merge_rule store start)
        ++ ((more_after F.merge_rule store stop ++ back_peaks F.merge_rule store) ++ inner_nodes start stop peaks) }
    ensures folds { (hash : Hash) (digest : Digests) (store : Kept D)
        → AreFoldsOf D.encoding hash F.merge_rule digest store
        → (length store.front ≡ min 1 (length (front_peaks F.merge_rule store)))
        × (length store.back ≡ min 1 (length (back_peaks F.merge_rule store))) }
    ensures kept { (store : Kept D) (start stop : ℕ) → IsPart store start stop
        → All (Contains (kept_nodes F.merge_rule store)) (part_nodes F.merge_rule store start stop) }
    ensures known { (digest : Digests) (store : Kept D) (start stop : ℕ) → IsPart store start stop
        → AreExtracted D.encoding digest (kept_nodes F.merge_rule store) store.nodes
        → first_missing (digest_among D.encoding store.nodes)
        (positions_of (part_nodes F.merge_rule store start stop)) ≡ None }
    ensures refused { (digest : Digests) (store : Kept D) (start stop : ℕ) (error : Error F)
        → IsPart store start stop → AreExtracted D.encoding digest (kept_nodes F.merge_rule store) store.nodes
        → IsRefusalToBuildPart F.merge_rule D.encoding store start stop error → error ≡ Memory }
{}

/// The proof of some elements is made of at most 122 nodes for each of them.
pub fn proofs_of_elements_are_short<F: Graftable>()
    ensures { (leaves : ℕ) (locations : List ℕ) → 0 < length locations → can_be_shown leaves locations ≡ true
        → length (needed_positions F.merge_rule leaves locations) ≤ 122 * length locations }
{}

/// At most `MAX_PINNED_NODES` nodes stay pinned where a tree is pruned; so many do in a Merkle Mountain Range and in a
/// Merkle Mountain Belt where the boundary is one less than `MAX_LEAVES`.
pub fn pinned_nodes_are_few<F: Family>()
    ensures few { (boundary : ℕ) → boundary ≤ MAX_LEAVES
        → length (pinned_positions F.merge_rule boundary) ≤ MAX_PINNED_NODES }
    ensures reached_by_ranges { length (pinned_positions mmr_rule (MAX_LEAVES - 1)) ≡ MAX_PINNED_NODES }
    ensures reached_by_belts { length (pinned_positions mmb_rule (MAX_LEAVES - 1)) ≡ MAX_PINNED_NODES }
{}
