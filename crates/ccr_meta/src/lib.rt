//! Clusters, indices and their settings: which names a script has made so far, in which shard worlds
//! the shards of an index lie, and what auto-follow decides for a new index.
#![tactic(auto)]

mod creating;
mod faults;
mod index_meta;
mod meta;
mod naming;
mod patterns;
mod routing;
mod settings;

pub use creating::Decided;
pub use faults::{AutoRefused, MetaFault};
pub use index_meta::{IndexMeta, Phases};
pub use meta::Meta;
pub use naming::is_name;
pub use routing::{route, uuid_of};
pub use settings::Settings;
