//! A tree with the layers of a batch over it, of which nodes are read while the nodes of the next batch are made.

ghost use Rattle.std.specs.Prelude.{◌≡◌, ◌<◌, ◌⊎◌, ℕ, None, map, option_map};
ghost use Rattle.merkle_core_parts.specs.Errors.{IsRefusalOver};
ghost use Rattle.merkle_core_parts.specs.Layers.{known_at};

use crate::layer::{Layer, node_of};
use crate::mem::Mem;
use merkle_core_parts::Error;
use merkle_forest::family::Family;
use merkle_forest::{Digest, Position};
use std::marker::Model;
use std::rc::Rc;

// A tree, layers over it, the newest first, and whether others were given up. It is for its user to know that the tree
// is the base of one of the layers, or what one of them makes of it.
#[derive(Drop)]
pub(crate) struct Layered<'a, F: Family, D: Digest> {
    tree: &'a Mem<F, D>,
    layers: &'a [Rc<Layer<F, D>>],
    dropped: bool,
}

impl<'a, F: Family, D: Digest> Model for Layered<'a, F, D> {
    ghost use Rattle.std.specs.Prelude.{map};
    ghost use Rattle.merkle_core_parts.specs.Layers as meaning;

    ghost Value = { meaning.Layered };

    ghost view = { λ k. record {
      tree = k.tree.now;
      layers = map (λ layer. layer.value) k.layers.now;
      dropped = k.dropped;
    } };
}

impl<'a, F: Family, D: Digest> Layered<'a, F, D> {
    pub(crate) fn new(
        tree: &'a Mem<F, D>,
        layers: &'a [Rc<Layer<F, D>>],
        dropped: bool,
    ) -> Layered<'a, F, D>
        ensures { result ≡ record {
          tree = tree.now;
          layers = map (λ layer. layer.value) layers.now;
          dropped = dropped;
        } }
    {
        Layered {
            tree,
            layers,
            dropped,
        }
    }

    // The digest at a position of the newest layer that has one there, or else of the tree.
    pub(crate) fn get_node(&self, position: Position<F>) -> Option<D>
        ensures { option_map D.encoding result ≡ known_at F.merge_rule self.now position }
    {
        match node_of(self.layers, position.as_u64()) {
            Some(digest) => Some(digest),
            None => self.tree.get_node(position),
        }
    }

    // Why nothing is made where the node at a position is needed and not known: it is one that only a batch had that
    // was given up, M14, or it is missing, M20 with its position.
    pub(crate) fn refusal(&self, position: Position<F>) -> Error<F>
        ensures refused { (needed : ℕ) → position < needed → known_at F.merge_rule self.now position ≡ None
            → IsRefusalOver F.merge_rule needed self.now result }
        ensures named { (result ≡ Error.AncestorDropped) ⊎ (result ≡ Error.MissingNode position) }
    {
        if self.dropped && position >= self.tree.size() {
            return Error::AncestorDropped;
        }
        Error::MissingNode(position)
    }
}
