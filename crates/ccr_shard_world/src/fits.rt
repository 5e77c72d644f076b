// What the types of events keep.
ghost use Rattle.std.specs.Prelude.{IfSome};
ghost use Rattle.ccr_op.specs.Ids.{IsIdText};
ghost use Rattle.ccr_model.specs.Fit.{IsFitEvent};

use ccr_journal::Event;
use ccr_op::DocId;

/// The ids of an event are texts of 1 to 512 bytes, its parameters lie in their ranges, and it makes 1 to 8 copies.
pub(crate) fn know_fit(event: &Event)
    ensures { IsFitEvent event.now }
{
    match event {
        Event::Write { request } => {
            let _id = request.get().id.as_str();
            know_routing(&request.get().routing);
        }
        Event::Follow {
            params,
            copies,
            name,
        } => {
            let _values = params.get().values();
            let _copies = copies.get();
            let _name = name.as_str();
        }
        _ => {}
    }
}

// A routing is a text of 1 to 512 bytes.
fn know_routing(routing: &Option<DocId>)
    ensures { IfSome routing.now IsIdText }
{
    if let Some(text) = routing {
        let _text = text.as_str();
    }
}
