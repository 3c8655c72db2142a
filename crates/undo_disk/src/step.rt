//! What it takes to go back before a call.

/// A call of a blob in memory, without the bytes that stand in the file after it.
#[derive(Debug, Drop)]
pub enum Step {
    /// A write at an offset of so many bytes, and whether it was durable at once; how many bytes the file had before,
    /// and which of them stood in that place.
    Wrote(u64, usize, bool, usize, Vec<u8>),
    /// A resize to so many bytes; how many the file had before, and which of them were cut off.
    Resized(u64, usize, Vec<u8>),
    /// A sync.
    Synced,
}
