//! How values are written as bytes and read back.

pub mod array;
pub mod cursor;
pub mod error;
pub mod fixed_bytes;
pub mod list;
pub mod max_size;
pub mod numbers;
pub mod option;
pub mod traits;
pub mod undo;
pub mod varint;

pub use cursor::Cursor;
pub use error::Error;
pub use fixed_bytes::FixedBytes;
pub use list::{RangeCfg, read_count};
pub use max_size::MaxEncodeSize;
pub use traits::{Decode, Encode, EncodeSize, Faithful, FixedSize, Read, Write};
pub use undo::or_undo;
pub use varint::{UInt, number_size, read_number, write_number};
