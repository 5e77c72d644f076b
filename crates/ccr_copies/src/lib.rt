//! The copies of one shard, a leader's or a follower's: what each has processed, holds and knows, what the
//! primary knows of the others, and the calls by which they come to the same state.
#![tactic(auto)]

mod copy_fault;
mod copy_history;
mod copy_set;
mod copy_side;
mod copy_view;
mod floors;
mod promotions;
mod replica;
mod runs;
mod walks;

pub use copy_fault::CopyFault;
pub use copy_set::{CopySet, MOST_COPIES};
pub use copy_side::CopySide;
pub use copy_view::CopyView;
pub use replica::Replica;
