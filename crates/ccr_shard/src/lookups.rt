ghost use Rattle.std.specs.Prelude.{◌≡◌, ◌≤◌, ◌<◌, ◌+◌, ◌&&◌, length};
ghost use Rattle.std.specs.List.{list_all, position_from};
ghost use Rattle.std.specs.Str.{bytes_eq};
ghost use Rattle.ccr_wire.specs.Message.{kind_of_content};
ghost use Rattle.ccr_model.specs.Copies.{all_copies};
ghost use Rattle.ccr_model.specs.Followers.{uuid_of};
ghost use Rattle.ccr_model.specs.World.{follower_of, goes_to_leader, same_name};
ghost use Rattle.ccr_model.specs.Settled.{is_follower_settled, is_whole};
ghost use Rattle.ccr_shard.specs.Wholes.{are_whole_from};

use ccr_copies::{CopySet, CopySide};
use ccr_following::FollowerSide;
use ccr_op::{Count, LeaseId};
use ccr_wire::{Content, FrameKind};
use uuid::Uuid;

/// The UUID of the follower of a number: that number in 128 bits.
pub(crate) fn uuid_of(f: u32) -> Uuid
    ensures { result ≡ uuid_of f }
{
    Uuid::from_bytes(u128::from(f).to_be_bytes())
}

/// Whether a message of this content goes to the leader.
pub(crate) fn goes_to_leader(content: &Content) -> bool
    ensures { result ≡ goes_to_leader (kind_of_content content.now) }
{
    match content.kind() {
        FrameKind::ReadRequest
        | FrameKind::LeaseAdd
        | FrameKind::LeaseRenew
        | FrameKind::LeaseRemove
        | FrameKind::SessionOpen
        | FrameKind::ChunkRequest => true,
        _ => false,
    }
}

/// The number of the follower whose UUID this is.
pub(crate) fn follower_of(followers: &[FollowerSide], uuid: &Uuid) -> Option<u32>
    requires { length followers.now ≤ 8 }
    ensures { result ≡ follower_of followers.now uuid.now }
{
    let mut f = 0;
    for _own in followers {
        if is_same(&uuid_of(f), uuid) {
            return Some(f);
        }
        f += 1;
    }
    None
}

/// The number of the first follower that has this lease id.
pub(crate) fn same_name(followers: &[FollowerSide], name: &LeaseId) -> Option<u32>
    requires { length followers.now ≤ 8 }
    ensures { result ≡ same_name followers.now name.now }
{
    first_named(followers, name)
}

/// The same, as a look at one follower after another.
fn first_named(followers: &[FollowerSide], name: &LeaseId) -> Option<u32>
    requires { length followers.now ≤ 8 }
    ensures { result ≡ position_from (λ own. bytes_eq own.lease name.now) 0 followers.now }
{
    let mut f = 0;
    for own in followers {
        if is_named(own, name) {
            return Some(f);
        }
        f += 1;
    }
    None
}

/// Whether the follower has this lease id.
fn is_named(own: &FollowerSide, name: &LeaseId) -> bool
    ensures { result ≡ bytes_eq own.entry.now.lease name.now }
{
    own.lease().as_str() == name.as_str()
}

/// Whether two identifiers are the same.
fn is_same(a: &Uuid, b: &Uuid) -> bool
    ensures { result ≡ bytes_eq a.now b.now }
{
    a.as_bytes().as_slice() == b.as_bytes().as_slice()
}

/// Whether each copy has processed all numbers below the count and knows it. It looks at each copy.
pub(crate) fn are_whole(copies: &CopySet, count: Count) -> bool
    ensures { result ≡ list_all (is_whole count) (all_copies copies.now) }
{
    if !is_whole(copies.primary(), count) {
        return false;
    }
    for place in 0..copies.len() - 1 {
        if !is_whole_at(copies, place, count) {
            return false;
        }
    }
    true
}

/// Whether the replica at a place has processed all numbers below the count and knows it.
fn is_whole_at(copies: &CopySet, place: usize, count: Count) -> bool
    requires { place < length copies.now.replicas }
    ensures { are_whole_from place count copies.now.replicas ≡ (result && are_whole_from (place + 1) count copies.now.replicas) }
{
    let Some(replica) = copies.replica_at(place) else {
        unreachable!()
    };
    is_whole(replica.copy(), count)
}

/// Whether the copy has processed all numbers below the count and knows it.
fn is_whole(copy: &CopySide, count: Count) -> bool
    ensures { result ≡ is_whole count copy.now }
{
    count <= copy.count() && copy.known_global() == count
}

/// Whether nothing is left to be done at the followers. It looks at each copy of each of them.
pub(crate) fn are_settled(followers: &[FollowerSide], history: &Uuid, count: Count) -> bool
    ensures { result ≡ list_all (is_follower_settled history.now count) followers.now }
{
    followers.iter().all(|own| own.is_settled(history, count))
}
