//! Errors as they are printed for a person.

use crate::stop::{Answer, Stop, bad_line};
use crate::told;
use merkle_core::error::Error;
use merkle_core::{ExtractionError, ReconstructionError, StoreError};
use merkle_forest::{Family, Location, Position};
use std::alloc::Global;
use std::fmt::Display;

/// The text of the error of a number, with the location or the position that it carries, or of a name.
pub fn text<F: Family>(alloc: Global, number: &str, more: &[&str]) -> Answer {
    match more {
        [] => shown(alloc, plain::<F>(number)),
        [more] => text_of::<F>(alloc, number, more),
        _ => bad_line(),
    }
}

// The text of an error, if it is one.
fn shown<T: Display + Drop>(alloc: Global, error: Result<T, Stop>) -> Answer {
    told::shown(alloc, error?)
}

// The text of the error of one of these kinds, or of a number that carries a location or a position.
fn text_of<F: Family>(alloc: Global, kind: &str, word: &str) -> Answer {
    match kind {
        "store" => shown(alloc, refused::<F>(word)),
        "extraction" => shown(alloc, extraction(word)),
        "rebuilding" => shown(alloc, rebuilding(word)),
        number => text_at::<F>(alloc, number, word.parse()?),
    }
}

// The text of the error of a number that carries a location or a position.
fn text_at<F: Family>(alloc: Global, number: &str, at: u64) -> Answer {
    match number {
        "M11" => told::shown(alloc, StoreError::CompressedDigest(Position::<F>::new(at))),
        number => shown(alloc, placed::<F>(number, at)),
    }
}

// The error of a store of proofs that is that of a number which carries nothing.
fn refused<F: Family>(number: &str) -> Result<StoreError<F>, Stop> {
    Ok(StoreError::Refused(plain(number)?))
}

// The error of a number that carries nothing.
fn plain<F: Family>(number: &str) -> Result<Error<F>, Stop> {
    match number {
        "M4" => Ok(Error::Empty),
        "M6" => Ok(Error::InvalidSize),
        "M12" => Ok(Error::InvalidPinnedNodes),
        "M13" => Ok(Error::StaleBatch),
        "M14" => Ok(Error::AncestorDropped),
        "M16" => Ok(Error::InvalidInactivePeaks),
        "M23" => Ok(Error::Memory),
        _ => bad_line(),
    }
}

// The error of a number that carries a location or a position.
fn placed<F: Family>(number: &str, at: u64) -> Result<Error<F>, Stop> {
    match number {
        "M3" => Ok(Error::LocationOverflow(Location::new(at))),
        "M5" => Ok(Error::RangeOutOfBounds(Location::new(at))),
        "M7" => Ok(Error::LeafOutOfBounds(Location::new(at))),
        "M8" => Ok(Error::DuplicateLocation(Location::new(at))),
        "M9" => Ok(Error::UnsortedLocation(Location::new(at))),
        "M10" => Ok(Error::ElementPruned(Position::new(at))),
        "M20" => Ok(Error::MissingNode(Position::new(at))),
        _ => bad_line(),
    }
}

// Why nothing is extracted, by its number.
fn extraction(number: &str) -> Result<ExtractionError, Stop> {
    match number {
        "M15" => Ok(ExtractionError::InvalidProof),
        "M17" => Ok(ExtractionError::RootMismatch),
        "M23" => Ok(ExtractionError::Memory),
        _ => bad_line(),
    }
}

// Why no root is rebuilt, by its name.
fn rebuilding(name: &str) -> Result<ReconstructionError, Stop> {
    match name {
        "InvalidProof" => Ok(ReconstructionError::InvalidProof),
        "MissingDigests" => Ok(ReconstructionError::MissingDigests),
        "ExtraDigests" => Ok(ReconstructionError::ExtraDigests),
        "InvalidStartLoc" => Ok(ReconstructionError::InvalidStartLoc),
        "InvalidEndLoc" => Ok(ReconstructionError::InvalidEndLoc),
        "MissingElements" => Ok(ReconstructionError::MissingElements),
        "InvalidSize" => Ok(ReconstructionError::InvalidSize),
        "Memory" => Ok(ReconstructionError::Memory),
        _ => bad_line(),
    }
}
