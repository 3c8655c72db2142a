//! Proofs whose chunk is `Bytes` of a size that is known when run. Reading one takes how many bytes a chunk has and the
//! greatest count of digests; a chunk whose bits are no power of two, or more than 2^62, is C7 before any byte of the
//! proof of an operation.
//! In the Rust: `qmdb::current::proof::dynamic` and `qmdb::current::ordered::proof::dynamic`.

use bytes::Bytes;

/// A proof that an operation is active in a state.
/// In the Rust: `qmdb::current::proof::dynamic::OperationProof`.
pub type OperationProof<F, D> = crate::operation::Proof<F, D, Bytes>;

/// A proof that a key has a value in a state.
/// In the Rust: `qmdb::current::ordered::proof::dynamic::KeyValueProof`.
pub type KeyValueProof<F, K, D> = crate::ordered::KeyValueProof<F, K, D, Bytes>;

/// A proof that a key is not in a state, whose operations `E` encodes.
/// In the Rust: `qmdb::current::ordered::proof::dynamic::ExclusionProof`.
pub type ExclusionProof<F, K, E, D> = crate::exclusion::ExclusionProof<F, K, E, D, Bytes>;
