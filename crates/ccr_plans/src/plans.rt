// What a command comes to.

use ccr_answers::Answer;
use ccr_deeds::{Deed, WorldStart};
use std::marker::Model;

/// What a command comes to: the worlds that are made, what is then done in them, one after another, and the form of
/// the answer.
#[derive(Debug, Drop)]
pub struct Plan {
    pub made: Vec<WorldStart>,
    pub deeds: Vec<Deed>,
    pub answer: Answer,
}

impl Model for Plan {
    ghost use Rattle.std.specs.Coded.{codes};
    ghost use Rattle.ccr_query.specs.contracts.queries.Query as query;
    ghost use Rattle.ccr_plans.specs.Planned.{Planned};

    ghost Value = { Planned };

    ghost coded = { Prim.hlevel (codes, query.the_row.coded) };

    ghost view = { λ a. record { made = a.made.items; deeds = a.deeds.items; answer = a.answer } };
}
