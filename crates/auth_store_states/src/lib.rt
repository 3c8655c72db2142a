//! The state of a history that is hashed, and its root, and how many bytes a chunk of its bits may have. Definitions
//! and lemmas alone, which speak of no code: what a store keeps and what its light client checks are both told by them.
#![tactic(auto)]
