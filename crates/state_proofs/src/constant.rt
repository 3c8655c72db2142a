//! Proofs whose chunk is an array of N bytes. Reading one takes the greatest count of digests, and N bytes of chunk.
//! In the Rust: `qmdb::current::proof::constant` and `qmdb::current::ordered::proof::constant`.

/// A proof that an operation is active in a state.
/// In the Rust: `qmdb::current::proof::constant::OperationProof`.
pub type OperationProof<F, D, const N: usize> = crate::operation::Proof<F, D, [u8; N]>;

/// A proof that a key has a value in a state.
/// In the Rust: `qmdb::current::ordered::proof::constant::KeyValueProof`.
pub type KeyValueProof<F, K, D, const N: usize> = crate::ordered::KeyValueProof<F, K, D, [u8; N]>;

/// A proof that a key is not in a state, whose operations `E` encodes.
/// In the Rust: `qmdb::current::ordered::proof::constant::ExclusionProof`.
pub type ExclusionProof<F, K, E, D, const N: usize> = crate::exclusion::ExclusionProof<
    F,
    K,
    E,
    D,
    [u8; N],
>;
