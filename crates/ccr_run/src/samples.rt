// A script that is made from a seed is done, and summed up in one line.
ghost use Rattle.std.specs.Prelude.{ℕ, [], ◌∷◌, ◌++◌, false, ◌≡◌, ◌-◌, ◌<◌, ◌^◌, map, slice_get, count_by, IfOk, OnOk, OnErr, string_bytes};
ghost use Rattle.ccr_op.specs.Sameness.{same_routing};
ghost use Rattle.ccr_model.specs.Policies.{picks_of};
ghost use Rattle.ccr_script.specs.Generated.{generated};
ghost use Rattle.ccr_search.specs.Joined.{said_by};
ghost use Rattle.ccr_answers.specs.Answers.{AreOrderedFor};
ghost use Rattle.ccr_plans.specs.Scenes.{Begins, is_settle as is_settle_of};
ghost use Rattle.ccr_playing.specs.Tells.{AreTold};
ghost use Rattle.ccr_worlds.specs.Fated.{AreLeft};
ghost use Rattle.ccr_run.specs.Samples.{AreBegun, AreDone, EndInSearches, EndsFinding, EndsInSearch, Finds, HasSummary, IsDone, Sampled, Sums, SumsUp, found_by as found_in, is_change as is_change_of, is_delete as is_delete_of, same_found, same_hit as is_same_hit, same_hits as are_same_hits, summary_text, yes_or_no as yes_or_no_of};

use ccr_answers::{Answer, found};
use ccr_deeds::Settles;
use ccr_game::{Game, Told};
use ccr_io::{Failed, Sink, write_all};
use ccr_op::DocId;
use ccr_plans::is_settle;
use ccr_playing::Status;
use ccr_query::Hit;
use ccr_reports::Report;
use ccr_script::{Command, generate};
use ccr_search::Answer as SearchAnswer;
use ccr_shard_world::Chooser;
use ccr_worlds::{Bare, Handed};
use std::alloc::{AllocError, Global};
use std::marker::Brand;

/// A generated script is done in worlds of which merges ask the policies that are handed in.
pub(crate) fn sample_in<P: Chooser, O: Sink>(
    alloc: Global,
    seed: u32,
    writes: u32,
    out: &mut O,
    policies: Vec<P>,
) -> Report
    requires { O.faults out.old < 2 ^ 64 - 1 }
    ensures report { Sampled (λ n. picks_of P.fate (slice_get policies.items n)) (generated seed writes) result.status result.journals.items (O.taken out.old) (O.taken out.new) }
    ensures told { (reads : ℕ) → AreTold result.status reads reads (O.faults out.old) (O.faults out.new) }
{
    sample_handed::<P, Brand, O>(alloc, seed, writes, out, policies)
}

// The same, where the policies are told by a type.
fn sample_handed<P: Chooser, K: Handed, O: Sink>(
    alloc: Global,
    seed: u32,
    writes: u32,
    out: &mut O,
    policies: Vec<P>,
) -> Report
    requires handed { AreLeft K.fates 0 (map P.fate policies.items) }
    requires sink { O.faults out.old < 2 ^ 64 - 1 }
    ensures report { Sampled K.fates (generated seed writes) result.status result.journals.items (O.taken out.old) (O.taken out.new) }
    ensures told { (reads : ℕ) → AreTold result.status reads reads (O.faults out.old) (O.faults out.new) }
{
    let bare: Bare<P, K> = Bare::new(alloc, policies);
    let mut game = Game::new(alloc, bare);
    let status = sum_up(alloc, &mut game, seed, writes, out);
    let worlds = game.into_worlds();
    let journals = worlds.into_journals();
    Report { status, journals }
}

// Does a generated script, and writes its summary.
fn sum_up<W: Settles, O: Sink>(
    alloc: Global,
    game: &mut Game<W>,
    seed: u32,
    writes: u32,
    out: &mut O,
) -> Status
    requires { O.faults out.old < 2 ^ 64 - 1 }
    ensures sums { Sums result (generated seed writes) (record { names = game.old.meta; logs = W.logs game.old.worlds })
        (record { names = game.new.meta; logs = W.logs game.new.worlds }) (O.taken out.old) (O.taken out.new) }
    ensures told { (reads : ℕ) → AreTold result reads reads (O.faults out.old) (O.faults out.new) }
{
    let Ok(text) = summary(alloc, game, seed, writes) else {
        return Status::OutOfMemory;
    };
    match write_all(out, text.as_bytes()) {
        Ok(()) => Status::Done,
        Err(Failed) => Status::WriteFault,
    }
}

// Does a generated script, and gives its summary.
fn summary<W: Settles>(
    alloc: Global,
    game: &mut Game<W>,
    seed: u32,
    writes: u32,
) -> Result<String, AllocError>
    ensures done { IfOk result (λ text. HasSummary (generated seed writes) (record { names = game.old.meta; logs = W.logs game.old.worlds })
        (record { names = game.new.meta; logs = W.logs game.new.worlds }) (string_bytes text)) }
    ensures begun { OnErr result (AreBegun (record { names = game.old.meta; logs = W.logs game.old.worlds }) (generated seed writes)
        (record { names = game.new.meta; logs = W.logs game.new.worlds })) }
{
    let commands = generate(alloc, seed, writes)?;
    let text = do_and_sum_up(alloc, game, commands)?;
    Ok(text)
}

// Does the commands, of which the last two are searches, and sums them up.
fn do_and_sum_up<W: Settles>(
    alloc: Global,
    game: &mut Game<W>,
    mut commands: Vec<Command>,
) -> Result<String, AllocError>
    requires { EndInSearches commands.items }
    ensures done { IfOk result (λ text. HasSummary commands.items (record { names = game.old.meta; logs = W.logs game.old.worlds })
        (record { names = game.new.meta; logs = W.logs game.new.worlds }) (string_bytes text)) }
    ensures begun { OnErr result (AreBegun (record { names = game.old.meta; logs = W.logs game.old.worlds }) commands.items
        (record { names = game.new.meta; logs = W.logs game.new.worlds })) }
{
    let changes = changes_in(commands.as_slice());
    let deletes = deletes_in(commands.as_slice());
    let last = pop_search(&mut commands);
    let leader = search_last(alloc, game, commands)?;
    let text = search_and_sum_up(alloc, game, changes, deletes, &leader, last)?;
    Ok(text)
}

// Does the commands, of which the last is a search, and gives what it found.
fn search_last<W: Settles>(
    alloc: Global,
    game: &mut Game<W>,
    mut commands: Vec<Command>,
) -> Result<SearchAnswer, AllocError>
    requires { EndsInSearch commands.items }
    ensures done { IfOk result (λ it. EndsFinding (record { names = game.old.meta; logs = W.logs game.old.worlds }) commands.items
        (record { names = game.new.meta; logs = W.logs game.new.worlds }) (said_by it)) }
    ensures begun { OnErr result (AreBegun (record { names = game.old.meta; logs = W.logs game.old.worlds }) commands.items
        (record { names = game.new.meta; logs = W.logs game.new.worlds })) }
{
    let command = pop_search(&mut commands);
    do_all(game, commands)?;
    let answer = search(alloc, game, command)?;
    Ok(answer)
}

// Does a search at the follower, and sums up what it found, what was found at the leader, and so many changes and deletes.
fn search_and_sum_up<W: Settles>(
    alloc: Global,
    game: &mut Game<W>,
    changes: usize,
    deletes: usize,
    leader: &SearchAnswer,
    command: Command,
) -> Result<String, AllocError>
    requires { is_settle_of command ≡ false }
    ensures done { IfOk result (λ text. SumsUp changes deletes (said_by leader.now) (record { names = game.old.meta; logs = W.logs game.old.worlds }) command
        (record { names = game.new.meta; logs = W.logs game.new.worlds }) (string_bytes text)) }
    ensures begun { OnErr result (Begins (record { names = game.old.meta; logs = W.logs game.old.worlds }) command
        (record { names = game.new.meta; logs = W.logs game.new.worlds })) }
{
    let follower = search(alloc, game, command)?;
    let text = summary_line(alloc, changes, deletes, leader, &follower)?;
    Ok(text)
}

// The line that tells of so many changes, of which so many were deletes, and of what the two searches found.
fn summary_line(
    alloc: Global,
    changes: usize,
    deletes: usize,
    leader: &SearchAnswer,
    follower: &SearchAnswer,
) -> Result<String, AllocError>
    ensures { IfOk result (λ text. string_bytes text ≡ summary_text changes deletes (said_by leader.now) (said_by follower.now)) }
{
    let live = leader.total;
    let same = yes_or_no(is_same(leader, follower));
    format!(in alloc; "writes={changes} deletes={deletes} live={live} same={same}\n")
}

fn yes_or_no(same: bool) -> &'static str
    ensures { result.now ≡ yes_or_no_of same }
{
    if same { "yes" } else { "no" }
}

fn changes_in(commands: &[Command]) -> usize
    ensures { result ≡ count_by is_change_of commands.now }
{
    let mut changes = 0;
    for command in commands {
        if is_change(command) {
            changes += 1;
        }
    }
    changes
}

fn deletes_in(commands: &[Command]) -> usize
    ensures { result ≡ count_by is_delete_of commands.now }
{
    let mut deletes = 0;
    for command in commands {
        if is_delete(command) {
            deletes += 1;
        }
    }
    deletes
}

fn is_change(command: &Command) -> bool
    ensures { result ≡ is_change_of command.now }
{
    matches!(command, Command::Write { .. } | Command::Delete { .. })
}

fn is_delete(command: &Command) -> bool
    ensures { result ≡ is_delete_of command.now }
{
    matches!(command, Command::Delete { .. })
}

// Does a search, and gives what it found.
fn search<W: Settles>(
    alloc: Global,
    game: &mut Game<W>,
    command: Command,
) -> Result<SearchAnswer, AllocError>
    requires { is_settle_of command ≡ false }
    ensures done { IfOk result (λ it. Finds (record { names = game.old.meta; logs = W.logs game.old.worlds }) command
        (record { names = game.new.meta; logs = W.logs game.new.worlds }) (said_by it)) }
    ensures begun { OnErr result (Begins (record { names = game.old.meta; logs = W.logs game.old.worlds }) command
        (record { names = game.new.meta; logs = W.logs game.new.worlds })) }
{
    let told = game.does(command)?;
    let answer = found_by(alloc, told)?;
    Ok(answer)
}

// Takes the last command off, which is a search.
fn pop_search(commands: &mut Vec<Command>) -> Command
    requires { EndsInSearch commands.old.items }
    ensures split { commands.old.items ≡ commands.new.items ++ result ∷ [] }
    ensures search { is_settle_of result ≡ false }
{
    let Some(search) = commands.pop() else {
        unreachable!()
    };
    search
}

// Does commands one after another.
#[tactic(auto, using(crate::proofs::Ends::going_on))]
fn do_all<W: Settles>(game: &mut Game<W>, commands: Vec<Command>) -> Result<(), AllocError>
    ensures done { OnOk result (AreDone (record { names = game.old.meta; logs = W.logs game.old.worlds }) commands.items
        (record { names = game.new.meta; logs = W.logs game.new.worlds })) }
    ensures begun { OnErr result (AreBegun (record { names = game.old.meta; logs = W.logs game.old.worlds }) commands.items
        (record { names = game.new.meta; logs = W.logs game.new.worlds })) }
{
    for command in commands {
        do_one(game, command)?;
    }
    Ok(())
}

// Does a command. What it is answered is not told.
#[tactic(auto, using(crate::proofs::Ends::doing))]
fn do_one<W: Settles>(game: &mut Game<W>, command: Command) -> Result<(), AllocError>
    ensures done { OnOk result (IsDone (record { names = game.old.meta; logs = W.logs game.old.worlds }) command
        (record { names = game.new.meta; logs = W.logs game.new.worlds })) }
    ensures begun { OnErr result (Begins (record { names = game.old.meta; logs = W.logs game.old.worlds }) command
        (record { names = game.new.meta; logs = W.logs game.new.worlds })) }
{
    if is_settle(&command) {
        drop(command);
        return settle(game);
    }
    do_other(game, command)
}

// Settles all worlds.
#[tactic(auto, using(crate::proofs::Ends::done_with))]
fn settle<W: Settles>(game: &mut Game<W>) -> Result<(), AllocError>
    ensures done { OnOk result (IsDone (record { names = game.old.meta; logs = W.logs game.old.worlds }) Command.Settle
        (record { names = game.new.meta; logs = W.logs game.new.worlds })) }
    ensures begun { OnErr result (Begins (record { names = game.old.meta; logs = W.logs game.old.worlds }) Command.Settle
        (record { names = game.new.meta; logs = W.logs game.new.worlds })) }
{
    let _settled = game.settle()?;
    Ok(())
}

// Does a command that is no settle.
#[tactic(auto, using(crate::proofs::Ends::told_done))]
fn do_other<W: Settles>(game: &mut Game<W>, command: Command) -> Result<(), AllocError>
    requires { is_settle_of command ≡ false }
    ensures done { OnOk result (IsDone (record { names = game.old.meta; logs = W.logs game.old.worlds }) command
        (record { names = game.new.meta; logs = W.logs game.new.worlds })) }
    ensures begun { OnErr result (Begins (record { names = game.old.meta; logs = W.logs game.old.worlds }) command
        (record { names = game.new.meta; logs = W.logs game.new.worlds })) }
{
    let _told = game.does(command)?;
    Ok(())
}

// What a search found: nothing where it was refused.
fn found_by(alloc: Global, it: Told) -> Result<SearchAnswer, AllocError>
    requires { AreOrderedFor it.answer it.told.items }
    ensures { IfOk result (λ found. said_by found ≡ found_in it.answer it.told.items) }
{
    let Told { answer, told } = it;
    match answer {
        Answer::Found { sort, from, size } => found(alloc, sort.as_slice(), from, size, told),
        _ => Ok(SearchAnswer {
            checkpoints: Vec::new(alloc),
            gaps: Vec::new(alloc),
            hits: Vec::new(alloc),
            total: 0,
        }),
    }
}

// Whether two searches found the same hits, and as many in all.
fn is_same(a: &SearchAnswer, b: &SearchAnswer) -> bool
    ensures { result ≡ same_found (said_by a.now) (said_by b.now) }
{
    a.total == b.total && same_hits(a.hits.as_slice(), b.hits.as_slice())
}

fn same_hits(a: &[Hit], b: &[Hit]) -> bool
    ensures { result ≡ are_same_hits a.now b.now }
{
    if a.len() != b.len() {
        return false;
    }
    for i in 0..a.len() {
        if !same_hit(&a[i], &b[i]) {
            return false;
        }
    }
    true
}

fn same_hit(a: &Hit, b: &Hit) -> bool
    ensures { result ≡ is_same_hit a.now b.now }
{
    a.id == b.id && same_routings(&a.routing, &b.routing) && a.body.is(&b.body)
}

fn same_routings(a: &Option<DocId>, b: &Option<DocId>) -> bool
    ensures { result ≡ same_routing a.now b.now }
{
    match (a, b) {
        (Some(a), Some(b)) => a == b,
        (None, None) => true,
        _ => false,
    }
}
