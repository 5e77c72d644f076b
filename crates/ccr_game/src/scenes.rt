// What contracts see of a run.

use std::marker::Model;

/// The names and the journals of a run, as contracts see them. No value of it is made.
pub struct SceneOf {
    _none: (),
}

impl Model for SceneOf {
    ghost use Rattle.std.specs.Coded.{codes};
    ghost use Rattle.ccr_query.specs.contracts.queries.Query as query;
    ghost use Rattle.ccr_plans.specs.Scenes.{Scene};
    ghost use Rattle.ccr_game.specs.Games.{start_scene};

    ghost Value = { Scene };

    ghost coded = { Prim.hlevel (codes, query.the_row.coded) };

    ghost view = { λ a. start_scene };
}
