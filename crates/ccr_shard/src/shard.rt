ghost use Rattle.std.specs.Prelude.{◌≡◌, ◌≤◌, ◌∷◌, [], not, length, map, IfOk, OnOk, slice_get, option_copied, option_map};
ghost use Rattle.std.specs.Option.{option_and_then};
ghost use Rattle.ccr_wire.specs.Spelling.{spelling};
ghost use Rattle.ccr_journal.specs.declared.events.Event.TheVariants as events;
ghost use Rattle.ccr_journal.specs.declared.replies.Reply.TheVariants as replies;
ghost use Rattle.ccr_journal.specs.declared.replies.Refusal.TheVariants as refusals;
ghost use Rattle.ccr_model.specs.Outcomes.{answered, guarded};
ghost use Rattle.ccr_model.specs.Copies.{copy_of};
ghost use Rattle.ccr_model.specs.Policies.{sizes_in};
ghost use Rattle.ccr_model.specs.FollowerRows.{follower_receive_row};
ghost use Rattle.ccr_model.specs.World.{start_state, at_leader, for_follower, deliver_row, drop_row, follow_row, same_name, search_row, taken_by_receiver};
ghost use Rattle.ccr_model.specs.Step.{on_side, searched_at, step, woken};
ghost use Rattle.ccr_model.specs.Settled.{is_settled};
ghost use Rattle.ccr_model.specs.Settling.{copies_at, note_of};
ghost use Rattle.ccr_leader.specs.Requests.{IsPlaced};
ghost use Rattle.ccr_law_reached.specs.Reached.{IsReached, IsReadyFor};
ghost use Rattle.ccr_shard.specs.Sides.{follower_part, leader_part, side_of};
ghost use Rattle.ccr_shard.specs.Ends.{EndsRightlyAt, EndsRightlyFor};

use crate::flight::Flight;
use crate::lookups::{are_settled, are_whole, follower_of, goes_to_leader, same_name, uuid_of};
use crate::replies::refused;
use crate::searches::search_copy;
use crate::sides::{follow, lead, side_of};
use crate::{Note, leader_events};
use bytes::Bytes;
use ccr_copies::CopySide;
use ccr_following::FollowerSide;
use ccr_journal::{CopyCount, Event, Params, Refusal, Reply, SearchRequest, Side};
use ccr_law_reached::{fetched_files_are_right, numbers_are_held_once, parts_are_there};
use ccr_leader::{Leader, Start};
use ccr_op::LeaseId;
use ccr_policy::{PartSize, Picks};
use ccr_wire::Message;
use std::alloc::{AllocError, Global};
use std::marker::Model;

/// The most followers that a world has.
const MOST_FOLLOWERS: usize = 8;

/// The state of a shard world: the leader, its followers in the order in which they were made, at most eight, and the
/// messages in flight, oldest first.
#[derive(Drop)]
pub struct Shard {
    alloc: Global,
    leader: Leader,
    followers: Vec<FollowerSide>,
    flight: Flight,
}

impl Model for Shard {
    ghost use Rattle.std.specs.Prelude.{◌≤◌, length};
    ghost use Rattle.ccr_model.specs.World.{State, most_followers};

    ghost Value = { State };

    ghost view = { λ a. record { leader = a.leader; followers = a.followers.items; flight = a.flight } };

    ghost invariant = { λ a. length a.followers.items ≤ most_followers };
}

impl Shard {
    /// The state at the start: a leader of this start, which has from 1 to 8 copies, no follower, and nothing in flight.
    pub fn new(alloc: Global, start: Start) -> Result<Shard, AllocError>
        requires some { 1 ≤ start.copies }
        requires few { start.copies ≤ 8 }
        ensures { IfOk result (λ shard. shard ≡ start_state start) }
    {
        let leader = Leader::new(alloc, start)?;
        Ok(Shard {
            alloc,
            leader,
            followers: Vec::new(alloc),
            flight: Flight::new(alloc),
        })
    }

    /// The leader's side.
    pub fn leader(&self) -> &Leader
        ensures { result.now ≡ self.now.leader }
    {
        &self.leader
    }

    /// The side of the follower of a number.
    pub fn follower(&self, f: u32) -> Option<&FollowerSide>
        ensures { option_copied result ≡ slice_get self.now.followers f }
    {
        self.followers.get(f as usize)
    }

    /// How many followers there are: at most eight.
    pub fn followers(&self) -> u32
        ensures { result ≡ length self.now.followers }
    {
        self.followers.len() as u32
    }

    /// How many messages are in flight.
    pub fn in_flight(&self) -> u64
        ensures { result ≡ length self.now.flight }
    {
        self.flight.len() as u64
    }

    /// The bytes of the message in flight at a place.
    pub fn frame(&self, at: usize) -> Option<&Bytes>
        ensures { option_copied result ≡ option_map spelling (slice_get self.now.flight at) }
    {
        self.flight.frame(at)
    }

    /// For each closed part of a copy, in their order, how many operations it has and how many bytes their segment
    /// takes; `None` exactly where there is no such copy. The cost goes with the number of parts.
    pub fn sizes(&self, side: Side, copy: u64) -> Result<Option<Vec<PartSize>>, AllocError>
        ensures { IfOk result (λ sizes. option_map (λ s. s.items) sizes ≡ option_map (λ c. sizes_in c.store) (option_and_then (λ copies. copy_of copies copy) (copies_at self.now side))) }
    {
        let Some(found) = self.copy_at(side, copy) else {
            return Ok(None);
        };
        let sizes = found.store().sizes(self.alloc)?;
        Ok(Some(sizes))
    }

    /// The copy of a number of a side's.
    fn copy_at(&self, side: Side, copy: u64) -> Option<&CopySide>
        ensures { option_copied result ≡ option_and_then (λ copies. copy_of copies copy) (copies_at self.now side) }
    {
        match side {
            Side::Leader => self.leader.copy_of(copy),
            Side::Follower(f) => self.followers.get(f as usize)?.copy_of(copy),
        }
    }

    /// Whether nothing is left to be done. It looks at each copy of each side, whatever the history is.
    pub fn is_settled(&self) -> bool
        ensures { result ≡ is_settled self.now }
    {
        let count = self.leader.copies().primary().count();
        self.leader.not_ready().is_none()
            && are_whole(self.leader.copies(), count)
            && self.flight.is_empty()
            && are_settled(self.followers.as_slice(), self.leader.history(), count)
    }

    /// The leader's primary, and what a worker has to know of a follower.
    pub fn note(&self, of: u64) -> Note
        ensures { result ≡ note_of self.now of }
    {
        let follower = match self.followers.get(of as usize) {
            Some(own) => Some(own.note()),
            None => None,
        };
        Note {
            primary: self.leader.primary(),
            follower,
        }
    }
}

impl Shard {
    /// Does one event, and answers it. The picks are those of a merge, and matter for nothing else. After want of memory
    /// nothing is said of the state.
    pub fn step(&mut self, event: &Event, picks: &Picks) -> Result<Reply, AllocError>
        requires { IsReadyFor self.old event.now }
        ensures reply { IfOk result (λ reply. reply ≡ (step self.old event.now picks.now).reply) }
        ensures after { OnOk result (self.new ≡ (step self.old event.now picks.now).next) }
    {
        match event {
            Event::Deliver { at, copy, keep } => self.deliver(*at, *copy, *keep),
            Event::Drop { at } => self.lose(*at),
            Event::Wake { f, at } => self.wake(*f, *at),
            Event::Follow {
                params,
                copies,
                name,
            } => self.follow(params.get(), copies, name),
            Event::Search {
                side,
                copy,
                request,
            } => self.search(*side, *copy, request.get()),
            Event::Settle => self.settle(),
            _ => self.on_side(event, picks),
        }
    }

    /// An event of one side.
    fn on_side(&mut self, event: &Event, picks: &Picks) -> Result<Reply, AllocError>
        ensures reply { IfOk result (λ reply. reply ≡ (on_side self.old (side_of event.now) (leader_part event.now picks.now) (follower_part event.now picks.now)).reply) }
        ensures after { OnOk result (self.new ≡ (on_side self.old (side_of event.now) (leader_part event.now picks.now) (follower_part event.now picks.now)).next) }
    {
        match side_of(event) {
            Side::Leader => self.at_leader(event, picks),
            Side::Follower(f) => self.at_follower(f, event, picks),
        }
    }

    /// An event of the leader's side.
    fn at_leader(&mut self, event: &Event, picks: &Picks) -> Result<Reply, AllocError>
        ensures reply { IfOk result (λ reply. reply ≡ (at_leader self.old (leader_part event.now picks.now self.old.leader)).reply) }
        ensures after { OnOk result (self.new ≡ (at_leader self.old (leader_part event.now picks.now self.old.leader)).next) }
    {
        let told = lead(self.alloc, &mut self.leader, event, picks)?;
        let reply = self.flight.tell(self.alloc, told)?;
        Ok(reply)
    }

    /// An event of a follower's side.
    fn at_follower(&mut self, f: u32, event: &Event, picks: &Picks) -> Result<Reply, AllocError>
        ensures reply { IfOk result (λ reply. reply ≡ (for_follower self.old f (follower_part event.now picks.now) (slice_get self.old.followers f)).reply) }
        ensures after { OnOk result (self.new ≡ (for_follower self.old f (follower_part event.now picks.now) (slice_get self.old.followers f)).next) }
    {
        let Some(own) = self.followers.get_mut(f as usize) else {
            let reply = refused(self.alloc, Refusal::NoFollower { f })?;
            return Ok(reply);
        };
        let told = follow(self.alloc, own, event, picks)?;
        let reply = self.flight.tell(self.alloc, told)?;
        Ok(reply)
    }

    /// The message at a place comes to its receiver, which of the leader is a copy. Refused are `NoFrame` and `NoCopy`.
    fn deliver(&mut self, at: u64, copy: u64, keep: bool) -> Result<Reply, AllocError>
        requires { IsReadyFor self.old (events.Deliver at copy keep) }
        ensures reply { IfOk result (λ reply. reply ≡ (deliver_row self.old at copy keep (slice_get self.old.flight at) (copy_of self.old.leader.copies copy)).reply) }
        ensures after { OnOk result (self.new ≡ (deliver_row self.old at copy keep (slice_get self.old.flight at) (copy_of self.old.leader.copies copy)).next) }
    {
        if at as usize >= self.flight.len() {
            let reply = refused(self.alloc, Refusal::NoFrame { at })?;
            return Ok(reply);
        }
        let Some(_receiver) = self.leader.copy_of(copy) else {
            let reply = refused(self.alloc, Refusal::NoCopy { copy })?;
            return Ok(reply);
        };
        parts_are_there();
        fetched_files_are_right();
        let message = self.flight.deliver(self.alloc, at as usize, keep)?;
        let reply = self.hear(copy, message)?;
        Ok(reply)
    }

    /// A message is taken by its receiver, which of the leader is a copy. One that names no follower is lost.
    fn hear(&mut self, copy: u64, message: Message) -> Result<Reply, AllocError>
        requires placed { IsPlaced self.old.leader message.content }
        requires ends { EndsRightlyAt self.old.followers message }
        ensures reply { IfOk result (λ reply. reply ≡ (taken_by_receiver self.old copy message).reply) }
        ensures after { OnOk result (self.new ≡ (taken_by_receiver self.old copy message).next) }
    {
        if goes_to_leader(message.content()) {
            let told = leader_events::receive(self.alloc, &mut self.leader, copy, &message)?;
            let reply = self.flight.tell(self.alloc, told)?;
            return Ok(reply);
        }
        match follower_of(self.followers.as_slice(), &message.follower()) {
            Some(f) => self.hear_at(f, message),
            None => Ok(Reply::Done),
        }
    }

    /// A message is taken by the follower of a number.
    fn hear_at(&mut self, f: u32, message: Message) -> Result<Reply, AllocError>
        requires { EndsRightlyFor self.old.followers f message }
        ensures reply { IfOk result (λ reply. reply ≡ (for_follower self.old f (λ own. follower_receive_row own message) (slice_get self.old.followers f)).reply) }
        ensures after { OnOk result (self.new ≡ (for_follower self.old f (λ own. follower_receive_row own message) (slice_get self.old.followers f)).next) }
    {
        let Some(own) = self.followers.get_mut(f as usize) else {
            let reply = refused(self.alloc, Refusal::NoFollower { f })?;
            return Ok(reply);
        };
        let told = own.receive(message)?;
        let reply = self.flight.tell(self.alloc, told)?;
        Ok(reply)
    }

    /// The message at a place is lost. Refused is `NoFrame`.
    fn lose(&mut self, at: u64) -> Result<Reply, AllocError>
        ensures reply { IfOk result (λ reply. reply ≡ (drop_row self.old at (slice_get self.old.flight at)).reply) }
        ensures after { OnOk result (self.new ≡ (drop_row self.old at (slice_get self.old.flight at)).next) }
    {
        if self.flight.lose(at as usize) {
            return Ok(Reply::Done);
        }
        let reply = refused(self.alloc, Refusal::NoFrame { at })?;
        Ok(reply)
    }

    /// The read at a place among a follower's that wait, oldest first, is answered. Refused are `NoFollower`, `NoPoll`
    /// and `Wait`.
    fn wake(&mut self, f: u32, at: u64) -> Result<Reply, AllocError>
        ensures reply { IfOk result (λ reply. reply ≡ (woken self.old f at (slice_get self.old.followers f)).reply) }
        ensures after { OnOk result (self.new ≡ (woken self.old f at (slice_get self.old.followers f)).next) }
    {
        let Some(_own) = self.follower(f) else {
            let reply = refused(self.alloc, Refusal::NoFollower { f })?;
            return Ok(reply);
        };
        let told = leader_events::wake(self.alloc, &mut self.leader, &uuid_of(f), at)?;
        let reply = self.flight.tell(self.alloc, told)?;
        Ok(reply)
    }

    /// A new follower is made, which asks for its lease. Refused are `SameName`, where a follower has the lease id, and
    /// `TooMany`, where there are eight.
    #[tactic(auto, unfolding(ccr_model::specs::World::follow_row, ccr_model::specs::Outcomes::guarded))]
    fn follow(
        &mut self,
        params: &Params,
        copies: &CopyCount,
        name: &LeaseId,
    ) -> Result<Reply, AllocError>
        ensures reply { IfOk result (λ reply. reply ≡ (follow_row self.old params.now copies.now name.now (same_name self.old.followers name.now)).reply) }
        ensures after { OnOk result (self.new ≡ (follow_row self.old params.now copies.now name.now (same_name self.old.followers name.now)).next) }
    {
        if let Some(f) = same_name(self.followers.as_slice(), name) {
            let reply = refused(self.alloc, Refusal::SameName { f })?;
            return Ok(reply);
        }
        if self.followers.len() >= MOST_FOLLOWERS {
            let reply = refused(self.alloc, Refusal::TooMany)?;
            return Ok(reply);
        }
        let f = self.followers.len() as u32;
        let lease = name.copy(self.alloc)?;
        let history = *self.leader.history();
        let retention = retention_of(self.leader.start());
        let (own, sent) = FollowerSide::new(
            self.alloc,
            f,
            params.copy(),
            copies.copy(),
            lease,
            history,
            retention,
        )?;
        self.followers.push(own)?;
        self.flight.send_all(self.alloc, &sent)?;
        Ok(Reply::Done)
    }

    /// A copy is searched. Refused are `NoFollower` and `NoCopy`.
    #[tactic(auto, unfolding(ccr_model::specs::World::search_row))]
    fn search(&self, side: Side, copy: u64, request: &SearchRequest) -> Result<Reply, AllocError>
        requires { IsReached self.now }
        ensures { IfOk result (λ reply. searched_at self.now side copy (search_row self.now copy request.now.query request.now.sort) ≡ answered reply self.now) }
    {
        numbers_are_held_once();
        match side {
            Side::Leader => {
                let Some(found) = self.leader.copy_of(copy) else {
                    let reply = refused(self.alloc, Refusal::NoCopy { copy })?;
                    return Ok(reply);
                };
                let reply = search_copy(self.alloc, found, request)?;
                Ok(reply)
            }
            Side::Follower(f) => {
                let Some(own) = self.follower(f) else {
                    let reply = refused(self.alloc, Refusal::NoFollower { f })?;
                    return Ok(reply);
                };
                let Some(found) = own.copy_of(copy) else {
                    let reply = refused(self.alloc, Refusal::NoCopy { copy })?;
                    return Ok(reply);
                };
                let reply = search_copy(self.alloc, found, request)?;
                Ok(reply)
            }
        }
    }

    /// Whether the world is settled, as a reply. Refused is `NotSettled`.
    #[tactic(auto, unfolding(ccr_model::specs::Outcomes::guarded))]
    fn settle(&self) -> Result<Reply, AllocError>
        ensures { IfOk result (λ reply. guarded self.now ((not (is_settled self.now), refusals.NotSettled) ∷ []) (answered replies.Settled self.now) ≡ answered reply self.now) }
    {
        if self.is_settled() {
            return Ok(Reply::Settled);
        }
        let reply = refused(self.alloc, Refusal::NotSettled)?;
        Ok(reply)
    }
}

/// How many operations a leader of this start keeps beyond the global count.
fn retention_of(start: &Start) -> u64
    ensures { result ≡ start.now.retention }
{
    start.retention
}
