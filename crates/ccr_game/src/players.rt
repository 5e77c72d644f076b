// A game as the player of a script.

use crate::game::Game;
use crate::scenes::SceneOf;
use ccr_deeds::{Settles, Worlds};
use ccr_plans::is_settle;
use ccr_playing::{Player, Whole};
use ccr_script::{BadLine, Command, read_command};
use std::alloc::{AllocError, Global};

impl<W: Worlds> Player for Game<W> {
    ghost use Rattle.ccr_script.specs.Commands.{AsksFor, fault_of};
    ghost use Rattle.ccr_plans.specs.Scenes.{Begins, Does, is_settle};
    ghost use Rattle.ccr_game.specs.Begun.{all_begun};

    type Command = Command;

    type Journal = SceneOf;

    ghost asks = { AsksFor };

    ghost fault = { fault_of };

    ghost journal = { λ p. record { names = p.meta; logs = W.logs p.worlds } };

    ghost does = { Does };

    ghost begins = { Begins };

    ghost is_left = { is_settle };

    fn read(alloc: Global, line: &[u8]) -> Result<Option<Command>, BadLine> {
        read_command(alloc, line)
    }

    fn is_left(command: &Command) -> bool {
        is_settle(command)
    }

    fn perform(&mut self, command: Command) -> Result<String, AllocError> {
        self.happens(command)
    }

    ghost all_begun = { all_begun };
}

impl<W: Settles> Whole for Game<W> {
    fn perform_left(&mut self, _command: Command) -> Result<String, AllocError> {
        self.settle()
    }
}
