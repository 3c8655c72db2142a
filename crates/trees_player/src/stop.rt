//! Why a call gives no answer of its own.

use case_lines::Unanswered;
use hex::FromHexError;
use merkle_core::error::Error;
use merkle_core::{ExtractionError, ReconstructionError, StoreError};
use merkle_forest::{Family, Location, Position, codec};
use std::alloc::{AllocError, AllocFailed, Global};
use std::num::ParseIntError;

/// Why a call gives no answer of its own.
#[derive(Clone, Copy)]
pub enum Stop {
    /// A tree or a proof refuses it: the number.
    Refused(u8),

    /// A tree or a proof refuses it: the number, and the position or the location that it carries.
    RefusedAt(u8, u64),

    /// Bytes are refused: the number.
    Unread(u8),

    /// No root is rebuilt, which is named by a word.
    NotRebuilt(ReconstructionError),

    /// The line asks for nothing known.
    BadLine,

    /// No memory is left for the answer.
    Memory,
}

impl Stop {
    /// What is printed for a line that stops so: the refusal. `Err` where the line has no answer.
    pub fn told(self, alloc: Global) -> Result<String, Unanswered> {
        match self {
            Stop::Refused(number) => numbered(alloc, "M", number),
            Stop::RefusedAt(number, at) => numbered_at(alloc, number, at),
            Stop::Unread(number) => numbered(alloc, "C", number),
            Stop::NotRebuilt(error) => Ok(format!(in alloc; "{error:?}")?),
            Stop::BadLine => Err(Unanswered::BadLine),
            Stop::Memory => Err(Unanswered::Memory),
        }
    }
}

// The number of a refusal, behind the letter of its kind.
fn numbered(alloc: Global, letter: &str, number: u8) -> Result<String, Unanswered> {
    Ok(format!(in alloc; "{letter}{number}")?)
}

// The number of a refusal, and the place that it carries.
fn numbered_at(alloc: Global, number: u8, at: u64) -> Result<String, Unanswered> {
    Ok(format!(in alloc; "M{number} {at}")?)
}

/// What is printed for a call, or why nothing is.
pub type Answer = Result<String, Stop>;

/// A line that asks for nothing known.
pub fn bad_line<T>() -> Result<T, Stop> {
    Err(Stop::BadLine)
}

/// What was made, or the stop that its refusal is.
pub fn or_stop<F: Family, T>(made: Result<T, Error<F>>) -> Result<T, Stop> {
    match made {
        Ok(made) => Ok(made),
        Err(error) => Err(Stop::from(error)),
    }
}

impl From<Unanswered> for Stop {
    fn from(error: Unanswered) -> Stop {
        match error {
            Unanswered::BadLine => Stop::BadLine,
            Unanswered::Memory => Stop::Memory,
        }
    }
}

impl From<AllocError> for Stop {
    fn from(_error: AllocError) -> Stop {
        Stop::Memory
    }
}

impl<T: Drop> From<AllocFailed<T>> for Stop {
    fn from(_error: AllocFailed<T>) -> Stop {
        Stop::Memory
    }
}

impl From<ParseIntError> for Stop {
    fn from(_error: ParseIntError) -> Stop {
        Stop::BadLine
    }
}

impl From<FromHexError> for Stop {
    fn from(error: FromHexError) -> Stop {
        Stop::from(Unanswered::from(error))
    }
}

// The refusal of this number, with the location that it carries.
fn at_location<F: Family>(number: u8, location: Location<F>) -> Stop {
    Stop::RefusedAt(number, location.as_u64())
}

// The refusal of this number, with the position that it carries.
fn at_position<F: Family>(number: u8, position: Position<F>) -> Stop {
    Stop::RefusedAt(number, position.as_u64())
}

impl<F: Family> From<Error<F>> for Stop {
    fn from(error: Error<F>) -> Stop {
        match error {
            Error::LocationOverflow(location) => at_location(3, location),
            Error::Empty => Stop::Refused(4),
            Error::RangeOutOfBounds(location) => at_location(5, location),
            Error::InvalidSize => Stop::Refused(6),
            Error::LeafOutOfBounds(location) => at_location(7, location),
            Error::DuplicateLocation(location) => at_location(8, location),
            Error::UnsortedLocation(location) => at_location(9, location),
            Error::ElementPruned(position) => at_position(10, position),
            Error::InvalidPinnedNodes => Stop::Refused(12),
            Error::StaleBatch => Stop::Refused(13),
            Error::AncestorDropped => Stop::Refused(14),
            Error::InvalidInactivePeaks => Stop::Refused(16),
            Error::MissingNode(position) => at_position(20, position),
            Error::Memory => Stop::Refused(23),
        }
    }
}

impl<F: Family> From<StoreError<F>> for Stop {
    fn from(error: StoreError<F>) -> Stop {
        match error {
            StoreError::Refused(error) => Stop::from(error),
            StoreError::CompressedDigest(position) => at_position(11, position),
        }
    }
}

impl From<ExtractionError> for Stop {
    fn from(error: ExtractionError) -> Stop {
        match error {
            ExtractionError::InvalidProof => Stop::Refused(15),
            ExtractionError::RootMismatch => Stop::Refused(17),
            ExtractionError::Memory => Stop::Refused(23),
        }
    }
}

impl From<ReconstructionError> for Stop {
    fn from(error: ReconstructionError) -> Stop {
        Stop::NotRebuilt(error)
    }
}

impl From<codec::Error> for Stop {
    fn from(error: codec::Error) -> Stop {
        let number = match error {
            codec::Error::EndOfBuffer => 1,
            codec::Error::ExtraData => 2,
            codec::Error::InvalidVarint => 3,
            codec::Error::InvalidBool => 4,
            // No part of a proof has a tag.
            codec::Error::InvalidEnum(_) => 5,
            codec::Error::InvalidLength => 6,
            codec::Error::Invalid => 7,
            codec::Error::Memory => 8,
        };
        Stop::Unread(number)
    }
}
