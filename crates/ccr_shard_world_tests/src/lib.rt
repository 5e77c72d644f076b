//! Tests of `ccr_shard_world` over its public calls: a world whose follower answers as its leader once it is settled, and
//! one that lies in a cell.
#![tactic(auto)]

#[cfg(test)]
mod tests;
