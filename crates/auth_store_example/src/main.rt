//! A first use of the library: a store is opened on a device, a key is put and proved, and the proof is checked.
#![tactic(auto)]

use anyhow::Result;
use auth_store::{
    Batch, ByteHash, CacheRef, Claim, FixedBytes, KeyProof, Pcg32, Sizes, Store, check, mmr,
    new_device,
};
use std::alloc::Global;

type Name = FixedBytes<8>;

type Root = FixedBytes<32>;

type Small = Store<Pcg32, mmr::Family, ByteHash, Name, u64, 1>;

// A store on a new device, in pages of 4,096 bytes, eight of which are kept in memory.
fn open(alloc: Global) -> Result<Small> {
    let device = new_device(alloc, 0)?;
    let cache = CacheRef::new(alloc, 4084, 8);
    match Store::open(alloc, device, cache, Sizes::default()) {
        Ok(store) => Ok(store),
        Err(refused) => Err(refused.error.into()),
    }
}

// The root once a batch has put the value at the key.
fn put(alloc: Global, store: &mut Small, key: Name, value: u64) -> Result<Root> {
    let mut batch = Batch::new(alloc);
    batch.put(key, value)?;
    Ok(store.commit(batch, None)?)
}

// The proof of the value at the key, or that it is absent.
fn prove(store: &mut Small, key: &Name) -> Result<Vec<u8>> {
    match store.prove_key(key)? {
        KeyProof::Value(_, proof) | KeyProof::Absent(proof) => Ok(proof),
    }
}

// Whether the proof shows, under the root, that the key has the value. It needs no store.
fn shows(alloc: Global, root: &Root, proof: &[u8], key: Name, value: u64) -> Result<bool> {
    let claim = Claim::Value { key, value };
    Ok(check::<mmr::Family, ByteHash, Name, u64, 1>(alloc, root, &claim, proof)?)
}

// Puts 1 at a key, and prints which of two values the proof shows.
fn put_and_prove(rt: &HostRuntime, store: &mut Small) -> Result<()> {
    let alloc = rt.alloc();
    let key = FixedBytes::new([0, 0, 0, 0, 0, 0, 0, 0x61]);
    let root = put(alloc, store, key, 1)?;
    let proof = prove(store, &key)?;
    for value in [1, 2] {
        let is_shown = shows(alloc, &root, &proof, key, value)?;
        println!(rt; "value {value}: {}", if is_shown { "yes" } else { "no" })?;
    }
    Ok(())
}

fn main(rt: HostRuntime) -> Result<()> {
    let mut store = open(rt.alloc())?;
    put_and_prove(&rt, &mut store)
}
