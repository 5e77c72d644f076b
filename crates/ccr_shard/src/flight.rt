ghost use Rattle.std.specs.Prelude.{◌≡◌, ◌<◌, ◌++◌, ◌∷◌, [], ◌==◌, length, remove, is_some, if◌then◌else◌, IfOk, OnOk, OnErr, Some, MatchBool, slice_get, option_copied, option_map};
ghost use Rattle.ccr_wire.specs.Spelling.{spelling};
ghost use Rattle.ccr_model.specs.Operations.{is_empty};
ghost use Rattle.ccr_shard.specs.InFlight.{message_in, IsSpelled};

use bytes::Bytes;
use ccr_following::Told;
use ccr_journal::Reply;
use ccr_net::Net;
use ccr_wire::{BadFrame, Message, Messages, decode, encode};
use std::alloc::{AllocError, Global};
use std::marker::Model;

/// The messages in flight, oldest first, each kept as the bytes of its frame.
#[derive(Drop)]
pub(crate) struct Flight {
    net: Net,
}

impl Model for Flight {
    ghost use Rattle.std.specs.Prelude.{List, map};
    ghost use Rattle.std.specs.List.{AllByRecursion};
    ghost use Rattle.ccr_wire.specs.Message.{Frame};
    ghost use Rattle.ccr_shard.specs.InFlight.{message_in, IsSpelled};

    ghost Value = { List Frame };

    ghost view = { λ a. map message_in a.net };

    ghost invariant = { λ a. AllByRecursion IsSpelled a.net };
}

impl Flight {
    /// No message is in flight.
    pub(crate) fn new(alloc: Global) -> Flight
        ensures { result ≡ [] }
    {
        Flight {
            net: Net::new(alloc),
        }
    }

    /// Sends a message, behind the others. After want of memory those in flight are as before.
    fn send(&mut self, alloc: Global, message: &Message) -> Result<(), AllocError>
        ensures ok { OnOk result (self.new ≡ self.old ++ message.now ∷ []) }
        ensures err { OnErr result (self.new ≡ self.old) }
    {
        let frame = encode(alloc, message)?;
        self.net.send(frame)?;
        Ok(())
    }

    /// Sends messages, behind the others, in their order.
    pub(crate) fn send_all(&mut self, alloc: Global, messages: &Messages) -> Result<(), AllocError>
        ensures { OnOk result (self.new ≡ self.old ++ messages.now) }
    {
        let messages = messages.as_slice();
        for message in messages {
            self.send(alloc, message)?;
        }
        Ok(())
    }

    /// Sends what an event sends, behind the others, and answers what it is answered.
    pub(crate) fn tell(&mut self, alloc: Global, told: Told) -> Result<Reply, AllocError>
        ensures reply { IfOk result (λ reply. reply ≡ told.reply) }
        ensures sent { OnOk result (self.new ≡ self.old ++ told.sent) }
    {
        let Told { reply, sent } = told;
        self.send_all(alloc, &sent)?;
        Ok(reply)
    }

    /// The message at a place, which leaves those in flight unless it is kept. Without `keep` those behind it move up,
    /// which costs time with the number of messages before it or behind it, whichever are fewer.
    pub(crate) fn deliver(
        &mut self,
        alloc: Global,
        at: usize,
        keep: bool,
    ) -> Result<Message, AllocError>
        requires { at < length self.old }
        ensures message { IfOk result (λ message. slice_get self.old at ≡ Some message) }
        ensures after { OnOk result (self.new ≡ (if keep then self.old else remove self.old at)) }
    {
        if keep {
            let message = self.read(alloc, at)?;
            return Ok(message);
        }
        let message = self.take(alloc, at)?;
        Ok(message)
    }

    /// The message at a place, read from its frame.
    fn read(&self, alloc: Global, at: usize) -> Result<Message, AllocError>
        requires { at < length self.now }
        ensures { IfOk result (λ message. slice_get self.now at ≡ Some message) }
    {
        let Some(frame) = self.net.get(at) else {
            unreachable!()
        };
        let message = read_frame(alloc, frame)?;
        Ok(message)
    }

    /// Takes the message at a place out.
    fn take(&mut self, alloc: Global, at: usize) -> Result<Message, AllocError>
        requires { at < length self.old }
        ensures message { IfOk result (λ message. slice_get self.old at ≡ Some message) }
        ensures after { OnOk result (self.new ≡ remove self.old at) }
    {
        let Some(frame) = self.net.take(at) else {
            unreachable!()
        };
        let message = read_frame(alloc, &frame)?;
        Ok(message)
    }

    /// Loses the message at a place, and says whether there was one. The cost is that of a delivery without `keep`.
    pub(crate) fn lose(&mut self, at: usize) -> bool
        ensures lost { result ≡ is_some (slice_get self.old at) }
        ensures after { MatchBool result (self.new ≡ remove self.old at) (self.new ≡ self.old) }
    {
        let frame = self.net.take(at);
        frame.is_some()
    }

    /// The bytes of the message at a place.
    pub(crate) fn frame(&self, at: usize) -> Option<&Bytes>
        ensures { option_copied result ≡ option_map spelling (slice_get self.now at) }
    {
        self.net.get(at)
    }

    /// How many messages are in flight.
    pub(crate) fn len(&self) -> usize
        ensures { result ≡ length self.now }
    {
        self.net.len()
    }

    /// Whether none is in flight.
    pub(crate) fn is_empty(&self) -> bool
        ensures { result ≡ is_empty self.now }
    {
        self.net.len() == 0
    }
}

/// The message of a frame that spells one.
fn read_frame(alloc: Global, frame: &Bytes) -> Result<Message, AllocError>
    requires { IsSpelled frame.now }
    ensures { IfOk result (λ message. message ≡ message_in frame.now) }
{
    match decode(alloc, frame.as_slice()) {
        Ok(message) => Ok(message),
        Err(BadFrame::Memory) => Err(AllocError),
        Err(_) => unreachable!(),
    }
}
