//! A record of the calls of a blob, as data.

/// A call of a blob that was made, and whether it succeeded (own).
#[derive(Debug, Drop)]
pub enum Recorded {
    /// An opening, which showed these bytes.
    Opened(Vec<u8>),
    /// A write at an offset: the bytes, whether they were to be durable at once, and whether it succeeded.
    Wrote(u64, Vec<u8>, bool, bool),
    /// A resize to a length, and whether it succeeded.
    ResizedTo(u64, bool),
    /// A sync: the bytes that it made durable, none where it failed, and whether it succeeded.
    Synced(Vec<u8>, bool),
}
