//! A store that is open over a blob of any make, as the one over the device is, which has no other.

ghost use Rattle.std.specs.Prelude.{◌≡◌, [], true, length, IsFalse};
ghost use Rattle.paged_blob_parts.specs.Calls.{content, file_of};
ghost use Rattle.auth_store_ledger.specs.Store.{IsChunkWidth};

use auth_store_ledger::Batch;
use auth_store_machine::StoreError;
use auth_store_session::{Live, Sizes, commit_live, recover_live};
use merkle_forest::{Graftable, HashFunction};
use paged_blob::{Blob, CacheRef};
use state_ops::{FixedKey, FixedValue};
use std::alloc::Global;
use std::marker::Model;

/// A store over a blob. Contracts see nothing of it.
#[derive(Drop)]
pub struct OpenStore<
    B: Blob,
    F: Graftable,
    H: HashFunction,
    K: FixedKey,
    V: FixedValue,
    const N: usize,
> {
    alloc: Global,
    live: Option<Live<F, H, K, V, N>>,
    blob: B,
    cache: CacheRef,
}

impl<B: Blob, F: Graftable, H: HashFunction, K: FixedKey, V: FixedValue, const N: usize> Model
    for OpenStore<B, F, H, K, V, N> {
    ghost use Rattle.std.specs.Prelude.{◌≡◌, ⊤, true, IfSome};
    ghost use Rattle.auth_store_ledger.specs.Store.{setting_of_width};
    ghost use Rattle.auth_store_log.specs.Records.{format_of};
    ghost use Rattle.auth_store_machine.specs.Reads.{IsLiveOn};
    ghost use Rattle.auth_store_machine.specs.Stores.{IsCache};

    ghost Value = { ⊤ };

    ghost view = { λ _. tt };

    ghost invariant = { λ s. IsCache s.cache × ((B.failures s.blob).is_open ≡ true)
        × IfSome s.live (IsLiveOn (setting_of_width F.merge_rule H.hash_of N)
        (format_of (K.after tt) (V.after tt) K.SIZE V.SIZE) (B.calls s.blob) s.cache) };
}

impl<B, F, H, K, V, const N: usize> OpenStore<B, F, H, K, V, N>
where
    B: Blob + Drop,
    F: Graftable,
    H: HashFunction,
    K: FixedKey,
    V: FixedValue,
{
    /// Begins the store whose log is in an empty blob, with pages and buffers as a store on the device has them.
    pub fn begin(alloc: Global, blob: B) -> Result<OpenStore<B, F, H, K, V, N>, StoreError>
        requires width { IsChunkWidth N }
        requires sound { IsFalse (file_of (B.calls blob)).failed }
        requires settled { (file_of (B.calls blob)).changes ≡ [] }
        requires empty { 0 ≡ length (content (B.calls blob)) }
        requires open { (B.failures blob).is_open ≡ true }
    {
        let mut blob = blob;
        let mut cache = CacheRef::new(alloc, 4084, 1024);
        let buffer = Sizes::default().write_buffer;
        let live = recover_live(alloc, &mut blob, &mut cache, 0, buffer)?;
        Ok(OpenStore {
            alloc,
            live: Some(live),
            blob,
            cache,
        })
    }

    /// Takes a batch with its commit into the history, makes it durable, and answers the new root.
    pub fn commit(&mut self, batch: Batch<K, V>) -> Result<H::Digest, StoreError> {
        commit_live(
            self.alloc,
            &mut self.live,
            &mut self.blob,
            &mut self.cache,
            batch,
            None,
        )
    }
}
