ghost use Rattle.std.specs.Prelude.{◌≡◌, [], IfOk};
ghost use Rattle.ccr_journal.specs.declared.replies.Reply.TheVariants as replies;
ghost use Rattle.ccr_leader.specs.Faults.{IsRefusal, refusal_of};

use ccr_following::Told;
use ccr_journal::{Boxed, Refusal, Reply};
use ccr_leader::LeaderFault;
use ccr_wire::Messages;
use std::alloc::{AllocError, Global};

/// A refusal as a reply.
pub(crate) fn refused(alloc: Global, why: Refusal) -> Result<Reply, AllocError>
    ensures { IfOk result (λ reply. reply ≡ replies.Refused why) }
{
    let why = Boxed::new(alloc, why)?;
    Ok(Reply::Refused(why))
}

/// An event that is answered so and sends nothing.
pub(crate) fn quiet(alloc: Global, reply: Reply) -> Told
    ensures { result ≡ record { reply = reply; sent = [] } }
{
    Told {
        reply,
        sent: Messages::none(alloc),
    }
}

/// What a fault of the leader's is told as. Want of memory stays what it is.
pub(crate) fn refused_by(alloc: Global, fault: LeaderFault) -> Result<Told, AllocError>
    ensures refusal { IfOk result (λ _. IsRefusal fault) }
    ensures told { IfOk result (λ told. told ≡ record { reply = replies.Refused (refusal_of fault); sent = [] }) }
{
    let why = refusal_of(fault)?;
    let reply = refused(alloc, why)?;
    Ok(quiet(alloc, reply))
}

/// The refusal that a fault of the leader's is.
fn refusal_of(fault: LeaderFault) -> Result<Refusal, AllocError>
    ensures refusal { IfOk result (λ _. IsRefusal fault) }
    ensures why { IfOk result (λ why. why ≡ refusal_of fault) }
{
    match fault {
        LeaderFault::NoCopy { copy } => Ok(Refusal::NoCopy { copy }),
        LeaderFault::IsPrimary { copy } => Ok(Refusal::IsPrimary { copy }),
        LeaderFault::LastCopy { copy } => Ok(Refusal::LastCopy { copy }),
        LeaderFault::NotReady { copy } => Ok(Refusal::NotReady { copy }),
        LeaderFault::NoOperation { seq } => Ok(Refusal::NoOperation { seq }),
        LeaderFault::TooMany => Ok(Refusal::TooMany),
        LeaderFault::NoStale { copy } => Ok(Refusal::NoStale { copy }),
        LeaderFault::NoPoll { at } => Ok(Refusal::NoPoll { at }),
        LeaderFault::Wait { global } => Ok(Refusal::Wait { global }),
        LeaderFault::Conflict { last } => Ok(Refusal::Conflict { last }),
        LeaderFault::Exists { seq } => Ok(Refusal::Exists { seq }),
        LeaderFault::BadSource(fault) => Ok(Refusal::BadSource(fault)),
        LeaderFault::Memory => Err(AllocError),
    }
}
