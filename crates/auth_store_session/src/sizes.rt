//! The sizes of a store's buffers.

/// The sizes of a store's buffers, in bytes. One below a page's counts as a page's (own).
#[derive(Clone, Copy, Debug, PartialEq, Eq)]
pub struct Sizes {
    /// How many bytes wait in memory to be written, at most.
    pub write_buffer: usize,
    /// How many bytes are read at once when a store is opened, at most. The log is read as a whole yet.
    pub replay_buffer: usize,
}

impl Default for Sizes {
    /// Both buffers have 4096 bytes.
    fn default() -> Sizes {
        Sizes {
            write_buffer: 4096,
            replay_buffer: 4096,
        }
    }
}
