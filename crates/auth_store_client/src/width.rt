//! How many bytes a chunk of activity bits may have.

ghost use Rattle.std.specs.Prelude.{◌↔◌, IsTrue};
ghost use Rattle.auth_store_client.specs.States.{IsChunkWidth};

/// Whether a chunk may have this many bytes: a power of two from 1 to 4096.
pub fn is_chunk_width(n: usize) -> bool
    ensures { IsTrue result ↔ IsChunkWidth n }
{
    matches!(
        n,
        1 | 2 | 4 | 8 | 16 | 32 | 64 | 128 | 256 | 512 | 1024 | 2048 | 4096
    )
}
