//! Pages that tell how much of them was written whole: the footer of a page with its two slots, the prefix that is
//! recovered of a file, and the end of a file that is kept in memory. The crate ports a part of the paged blobs of
//! commonware-runtime 2026.10.0; `In the Rust` names what an item is there.
//!
//! ```text
//!   a page of P bytes      content, P - 12 bytes            | length crc | length crc |
//!                                                             first slot   second slot
//! ```
//!
//! A slot says that the page's first `length` bytes have its checksum. There are two, so that one stands while the
//! other is written: a writer never touches the slot that was durable last.
#![tactic(auto)]

pub mod footer;
pub mod prefix;
pub mod tip;

pub use fault_storage::{Checksum, Crc32};
pub use footer::{CHECKSUM_SIZE, Footer, Slot, is_page_size, page_size};
pub use prefix::prefix_len;
pub use tip::TipBuffer;
