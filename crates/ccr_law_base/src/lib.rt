//! What the proofs about the journals of a shard world share: how a claim is carried over an event and over a
//! journal, and lemmas on lists. No code of this crate does anything; the lemmas stand in `proofs/`.
#![tactic(auto)]
