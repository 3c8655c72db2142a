//! Locations from positions, and positions from locations.

ghost use Rattle.std.specs.Prelude.{◌≡◌, ◌<◌, ◌≤◌, ◌⊎◌, MatchResult};
ghost use Rattle.merkle_forest.specs.Forest.{size, forest_of};
ghost use Rattle.merkle_forest.specs.Nodes.{IsSize};
ghost use Rattle.merkle_forest.specs.declared.family.TheConstants.{MAX_LEAVES, MAX_NODES};
ghost use Rattle.merkle_forest.specs.declared.error.Error.TheVariants.{NonLeaf, PositionOverflow, LocationOverflow};

use crate::error::Error;
use crate::family::Family;
use crate::location::Location;
use crate::position::Position;

/// The location of the leaf at a position. Past `MAX_NODES`: M2; where no leaf stands there: M1.
/// In the Rust: `TryFrom` of `merkle::Position` for `merkle::Location`.
impl<F: Family> TryFrom<Position<F>> for Location<F> {
    type Error = Error<F>;

    ghost try_from_gives = { λ position r. MatchResult r
        (λ location. (location ≤ MAX_LEAVES) × (size (forest_of F.merge_rule location) ≡ position))
        (λ e. ((e ≡ PositionOverflow position) × (MAX_NODES < position))
        ⊎ ((e ≡ NonLeaf position) × (position ≤ MAX_NODES) × ¬ IsSize F.merge_rule position)) };

    fn try_from(position: Position<F>) -> Result<Location<F>, Error<F>> {
        if !position.is_valid() {
            return Err(Error::PositionOverflow(position));
        }
        F::position_to_location(position).ok_or(Error::NonLeaf(position))
    }
}

/// The position of the leaf at a location. Past `MAX_LEAVES`: M3.
/// In the Rust: `TryFrom` of `merkle::Location` for `merkle::Position`.
impl<F: Family> TryFrom<Location<F>> for Position<F> {
    type Error = Error<F>;

    ghost try_from_gives = { λ location r. MatchResult r
        (λ position. (location ≤ MAX_LEAVES) × (position ≡ size (forest_of F.merge_rule location)))
        (λ e. (e ≡ LocationOverflow location) × (MAX_LEAVES < location)) };

    fn try_from(location: Location<F>) -> Result<Position<F>, Error<F>> {
        if !location.is_valid() {
            return Err(Error::LocationOverflow(location));
        }
        Ok(F::location_to_position(location))
    }
}
