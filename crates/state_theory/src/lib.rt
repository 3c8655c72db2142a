//! What the canonical root of a state is, and a proof under it: bits in chunks, the tree that they are grafted on,
//! honest proofs, and when a yes is true; and what follows from that. Definitions and lemmas alone, which speak of no
//! code.
#![tactic(auto)]
