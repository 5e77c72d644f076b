//! Commands, done in shard worlds.
ghost use Rattle.std.specs.Prelude.{◌≡◌, [], true, false, length, IfOk, OnErr, string_bytes};
ghost use Rattle.ccr_answers.specs.Answers.{AreOrderedFor};
ghost use Rattle.ccr_plans.specs.Scenes.{Begins, Does, is_settle};
ghost use Rattle.ccr_game.specs.Games.{DoesWith, start_scene};

use crate::making::carry_out;
use crate::planning::plan_for;
use ccr_answers::{Answer, text};
use ccr_deeds::{Settles, Worlds};
use ccr_journal::Reply;
use ccr_meta::Meta;
use ccr_script::Command;
use std::alloc::{AllocError, Global};

/// How a command is answered: the form of the answer, and the reply to the last event of each of its deeds.
#[derive(Drop)]
pub struct Told {
    pub answer: Answer,
    pub told: Vec<Reply>,
}

/// The names that a script has made, and the worlds that it plays in. After want of memory amid the names or the deeds
/// of a command it does no further one, since names and worlds may no longer fit.
#[derive(Drop)]
pub struct Game<W: Worlds> {
    alloc: Global,
    pub meta: Meta,
    pub worlds: W,
    broken: bool,
    ghost fits: { broken ≡ false → meta.worlds ≡ length (W.logs worlds) },
}

impl<W: Worlds> Game<W> {
    /// No names, in no worlds.
    pub fn new(alloc: Global, worlds: W) -> Self
        requires { W.logs worlds ≡ [] }
        ensures { record { names = result.meta; logs = W.logs result.worlds } ≡ start_scene }
    {
        Game {
            alloc,
            meta: Meta::new(alloc),
            worlds,
            broken: false,
        }
    }

    /// Does a command that is no settle, and gives how it is answered. It fails for want of memory alone, and every
    /// further command then fails: some of its worlds may have been made then, and a front of its deeds been done.
    pub fn does(&mut self, command: Command) -> Result<Told, AllocError>
        requires { is_settle command ≡ false }
        ensures done { IfOk result (λ it. DoesWith (record { names = self.old.meta; logs = W.logs self.old.worlds }) command
            (record { names = self.new.meta; logs = W.logs self.new.worlds }) it.answer it.told.items) }
        ensures ordered { IfOk result (λ it. AreOrderedFor it.answer it.told.items) }
        ensures begun { OnErr result (Begins (record { names = self.old.meta; logs = W.logs self.old.worlds }) command
            (record { names = self.new.meta; logs = W.logs self.new.worlds })) }
    {
        if self.broken {
            return Err(AllocError);
        }
        self.broken = true;
        let planned = plan_for(self.alloc, &mut self.meta, &mut self.worlds, command)?;
        let told = carry_out(self.alloc, &mut self.worlds, planned)?;
        self.broken = false;
        Ok(told)
    }

    /// Does a command that is no settle, and gives the text of its answer. It fails for want of memory alone: some of
    /// its worlds may have been made then, and a front of its deeds been done.
    #[tactic(auto, using(crate::proofs::Playing::telling))]
    pub fn happens(&mut self, command: Command) -> Result<String, AllocError>
        requires { is_settle command ≡ false }
        ensures done { IfOk result (λ text. Does (record { names = self.old.meta; logs = W.logs self.old.worlds }) command
            (record { names = self.new.meta; logs = W.logs self.new.worlds }) (string_bytes text)) }
        ensures begun { OnErr result (Begins (record { names = self.old.meta; logs = W.logs self.old.worlds }) command
            (record { names = self.new.meta; logs = W.logs self.new.worlds })) }
    {
        let Told { answer, told } = self.does(command)?;
        let printed = text(self.alloc, &answer, told)?;
        Ok(printed)
    }

    /// The worlds.
    pub fn into_worlds(self) -> W
        ensures { result ≡ self.worlds }
    {
        let Game { worlds, .. } = self;
        worlds
    }
}

impl<W: Settles> Game<W> {
    /// Settles all worlds, and gives the text of the answer. It fails for want of memory alone: some worlds may be
    /// settled then, and of one a part of what settles it may be done.
    #[tactic(auto, using(crate::proofs::Playing::settling))]
    pub fn settle(&mut self) -> Result<String, AllocError>
        ensures done { IfOk result (λ text. Does (record { names = self.old.meta; logs = W.logs self.old.worlds }) Command.Settle
            (record { names = self.new.meta; logs = W.logs self.new.worlds }) (string_bytes text)) }
        ensures begun { OnErr result (Begins (record { names = self.old.meta; logs = W.logs self.old.worlds }) Command.Settle
            (record { names = self.new.meta; logs = W.logs self.new.worlds })) }
    {
        if self.broken {
            return Err(AllocError);
        }
        self.broken = true;
        self.worlds.settle()?;
        let text = String::from_str(self.alloc, "settled")?;
        self.broken = false;
        Ok(text)
    }
}
