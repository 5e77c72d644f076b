ghost use Rattle.std.specs.Prelude.{◌≡◌, [], ◌∷◌, ◌++◌, IfOk, OnErr};

use crate::Message;
use std::alloc::{AllocError, Global};
use std::marker::Model;

/// Messages that are to be sent, in their order. Contracts see the list of them.
#[derive(Debug, Drop)]
pub struct Messages {
    list: Vec<Message>,
}

impl Model for Messages {
    ghost use Rattle.std.specs.Prelude.{List};
    ghost use Rattle.ccr_wire.specs.Message.{Frame};

    ghost Value = { List Frame };

    ghost view = { λ a. a.list.items };
}

impl Messages {
    /// These messages.
    pub fn new(list: Vec<Message>) -> Self
        ensures { result ≡ list.items }
    {
        Messages { list }
    }

    /// No message. It takes no memory.
    pub fn none(alloc: Global) -> Self
        ensures { result ≡ [] }
    {
        Messages {
            list: Vec::new(alloc),
        }
    }

    /// One message.
    pub fn one(alloc: Global, message: Message) -> Result<Self, AllocError>
        ensures { IfOk result (λ messages. messages ≡ message ∷ []) }
    {
        let mut messages = Messages::none(alloc);
        messages.push(message)?;
        Ok(messages)
    }

    /// One more message, the last. At want of memory they are as before.
    pub fn push(&mut self, message: Message) -> Result<(), AllocError>
        ensures ok { IfOk result (λ _. self.new ≡ self.old ++ message ∷ []) }
        ensures err { OnErr result (self.new ≡ self.old) }
    {
        self.list.push(message)?;
        Ok(())
    }

    /// The messages.
    pub fn as_slice(&self) -> &[Message]
        ensures { result.now ≡ self.now }
    {
        self.list.as_slice()
    }

    /// The messages, with their memory.
    pub fn into_vec(self) -> Vec<Message>
        ensures { result.items ≡ self }
    {
        self.list
    }
}
