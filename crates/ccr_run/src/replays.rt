// A script is replayed.
ghost use Rattle.std.specs.Prelude.{ℕ, ◌≡◌, ◌≢◌, ◌↔◌, ◌-◌, ◌<◌, ◌^◌, [], None, Some, map, slice_get, string_bytes};
ghost use Rattle.ccr_model.specs.Policies.{picks_of};
ghost use Rattle.ccr_script.specs.Generated.{generated};
ghost use Rattle.ccr_playing.specs.Tells.{AreQuiet, AreTold};
ghost use Rattle.ccr_worlds.specs.Fated.{AreLeft};
ghost use Rattle.ccr_words.specs.Forms.{form_of as form_of_words};
ghost use Rattle.ccr_reports.specs.Faultless.{EndsWell, IsFaultless};
ghost use Rattle.ccr_reports.specs.Reports.{Reported};
ghost use Rattle.ccr_run.specs.Samples.{Sampled};

use crate::samples::sample_in;
use ccr_game::Game;
use ccr_io::{Sink, Source};
use ccr_playing::{Status, play};
use ccr_policy::MergePolicy;
use ccr_reports::Report;
use ccr_shard_world::Chooser;
use ccr_words::{Form, form_of};
use ccr_worlds::{Bare, Handed};
use std::alloc::Global;
use std::marker::Brand;

// The script is played in worlds whose policies are told by a type.
fn replay_handed<P: Chooser, K: Handed, S: Source, O: Sink>(
    alloc: Global,
    script: &mut S,
    out: &mut O,
    policies: Vec<P>,
) -> Report
    requires handed { AreLeft K.fates 0 (map P.fate policies.items) }
    requires source { S.faults script.old < 2 ^ 64 - 1 }
    requires sink { O.faults out.old < 2 ^ 64 - 1 }
    ensures report { Reported K.fates result.status (S.left script.old) (S.left script.new) result.journals.items (O.taken out.old) (O.taken out.new) }
    ensures told { AreTold result.status (S.faults script.old) (S.faults script.new) (O.faults out.old) (O.faults out.new) }
{
    let bare: Bare<P, K> = Bare::new(alloc, policies);
    let mut game = Game::new(alloc, bare);
    let status = play(alloc, &mut game, script, out);
    let worlds = game.into_worlds();
    let journals = worlds.into_journals();
    Report { status, journals }
}

// The script is played, and merges ask the policies that are handed in.
fn replay_in<P: Chooser, S: Source, O: Sink>(
    alloc: Global,
    script: &mut S,
    out: &mut O,
    policies: Vec<P>,
) -> Report
    requires source { S.faults script.old < 2 ^ 64 - 1 }
    requires sink { O.faults out.old < 2 ^ 64 - 1 }
    ensures report { Reported (λ n. picks_of P.fate (slice_get policies.items n)) result.status (S.left script.old) (S.left script.new) result.journals.items (O.taken out.old) (O.taken out.new) }
    ensures told { AreTold result.status (S.faults script.old) (S.faults script.new) (O.faults out.old) (O.faults out.new) }
{
    replay_handed::<P, Brand, S, O>(alloc, script, out, policies)
}

/// Does what the words ask for. `replay` reads a script of JSON lines, does their commands one after another, and writes
/// the answer line of each when it is done. `sample SEED WRITES` reads nothing: it does a script of so many writes and
/// deletes that is made from the seed, and writes one line that sums it up.
///
/// Each created leader shard takes the next of the policies, which picks what its merges join, and none where they are
/// used up. The first failure of the source or of the sink ends the run.
///
/// A replay takes memory by what its commands keep, and not by its script; the work goes with the bytes of the script
/// and with what its commands read and move. A sample keeps its whole script.
#[tactic(auto, using(crate::proofs::Completeness::ending))]
pub fn replay<S: Source, K: Sink>(
    alloc: Global,
    words: &Vec<String>,
    script: &mut S,
    out: &mut K,
    policies: Vec<Box<dyn MergePolicy>>,
) -> Report
    requires source { S.faults script.old < 2 ^ 64 - 1 }
    requires sink { K.faults out.old < 2 ^ 64 - 1 }

    // Usage comes exactly where the words are of no form: nothing is read or written then, and there is no journal.
    ensures usage { (result.status ≡ Status.Usage) ↔ (form_of_words (map string_bytes words.now.items) ≡ None) }
    ensures unread { result.status ≡ Status.Usage → (S.left script.new ≡ S.left script.old) × (S.faults script.new ≡ S.faults script.old) }
    ensures unwritten { result.status ≡ Status.Usage → (K.taken out.new ≡ K.taken out.old) × (K.faults out.new ≡ K.faults out.old) }
    ensures none { result.status ≡ Status.Usage → result.journals.items ≡ [] }

    // Only what ended the run failed.
    ensures faults { result.status ≢ Status.Usage → AreTold result.status (S.faults script.old) (S.faults script.new) (K.faults out.old) (K.faults out.new) }

    // One scene tells what was done and written, and its journals are those of the report.
    ensures replay { form_of_words (map string_bytes words.now.items) ≡ Some Form.Replay →
        Reported (λ n. picks_of ⟦<Box<dyn MergePolicy> as Chooser>⟧.fate (slice_get policies.items n)) result.status
        (S.left script.old) (S.left script.new) result.journals.items (K.taken out.old) (K.taken out.new) }

    // So it is with a script that is made from a seed, of which nothing is read.
    ensures sample { (seed writes : ℕ) → form_of_words (map string_bytes words.now.items) ≡ Some (Form.Sample seed writes) →
        Sampled (λ n. picks_of ⟦<Box<dyn MergePolicy> as Chooser>⟧.fate (slice_get policies.items n)) (generated seed writes) result.status
        result.journals.items (K.taken out.old) (K.taken out.new) }
    ensures sample_unread { (seed writes : ℕ) → form_of_words (map string_bytes words.now.items) ≡ Some (Form.Sample seed writes) →
        S.left script.new ≡ S.left script.old }

    // What the words ask for is done to its end, where nothing fails, memory suffices, and no line of a script that is read is bad.
    ensures complete { result.status ≢ Status.Usage → (form_of_words (map string_bytes words.now.items) ≡ Some Form.Replay → IsFaultless (S.left script.old))
        → AreQuiet (S.faults script.old) (S.faults script.new) (K.faults out.old) (K.faults out.new) → EndsWell result.status }
{
    match form_of(words.as_slice()) {
        None => Report {
            status: Status::Usage,
            journals: Vec::new(alloc),
        },
        Some(Form::Replay) => replay_in(alloc, script, out, policies),
        Some(Form::Sample { seed, writes }) => sample_in(alloc, seed, writes, out, policies),
    }
}
