//! Words of which a line has one.

/// The family of the trees over which a store stands.
#[derive(Clone, Copy, Debug, PartialEq, Eq)]
pub enum TreeFamily {
    /// `mmr`: a Merkle mountain range.
    Mmr,
    /// `mmb`: a Merkle mountain belt.
    Mmb,
}

/// A kind of calls of the device.
#[derive(Clone, Copy, Debug, PartialEq, Eq)]
pub enum FaultKind {
    /// `open`: its openings.
    Open,
    /// `read`: its reads.
    Read,
    /// `write`: its writes.
    Write,
    /// `sync`: its syncs.
    Sync,
    /// `resize`: its resizes.
    Resize,
}

/// What is kept of a write that is torn.
#[derive(Clone, Copy, Debug, PartialEq, Eq)]
pub enum TornMode {
    /// `prefix`: a beginning of it.
    Prefix,
    /// `subset`: any of its bytes.
    Subset,
}
