//! What a Merkle proof is: which nodes it is made of, which digests stand in it, what it leads to, and when a yes is
//! true; and what follows from that. Definitions and lemmas alone, which speak of lists of digests and of no code.
#![tactic(auto)]
