//! Tests of the parts of a shard over their public calls: `ccr_store`, `ccr_copies`, `ccr_follower`, `ccr_leader`,
//! `ccr_task`, `ccr_restore` and `ccr_search`.
#![tactic(auto)]

#[cfg(test)]
mod calls;
#[cfg(test)]
mod copies;
#[cfg(test)]
mod follower;
#[cfg(test)]
mod leader;
#[cfg(test)]
mod restore;
#[cfg(test)]
mod search;
#[cfg(test)]
mod store;
#[cfg(test)]
mod task;
