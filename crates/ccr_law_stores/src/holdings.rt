//! What the copies of a leader hold, at every place of a legal journal, and laws of what one copy holds, whether a
//! leader's or a follower's.

ghost use Rattle.std.specs.Prelude.{List, ℕ, ◌≡◌, ◌+◌, ◌<◌, ◌≤◌, ◌==◌, ◌^◌, true, false, max, Option, Some, is_some, slice_get, flat_map, length};
ghost use Rattle.ccr_op.specs.Operation.{Operation};
ghost use Rattle.ccr_tracker.specs.Numbers.{has};
ghost use Rattle.ccr_journal.specs.Params.{IsCopyCount};
ghost use Rattle.ccr_journal.specs.declared.journals.Entry.{Entry};
ghost use Rattle.ccr_model.specs.Outcomes.{Outcome};
ghost use Rattle.ccr_model.specs.Operations.{cut_of, IsCut};
ghost use Rattle.ccr_model.specs.Stores.{flushed, files_below};
ghost use Rattle.ccr_model.specs.Copies.{Copy, copy_of, taking, knowing};
ghost use Rattle.ccr_model.specs.CopyRows.{after_merge};
ghost use Rattle.ccr_model.specs.CopyFacts.{HoldsEnough};
ghost use Rattle.ccr_model.specs.FrameFacts.{HoldsHistory};
ghost use Rattle.ccr_model.specs.Leaders.{Start, Session};
ghost use Rattle.ccr_model.specs.LeaderFrames.{new_session, read_ops};
ghost use Rattle.ccr_model.specs.Followers.{restored_copy};
ghost use Rattle.ccr_model.specs.World.{State, start_state};
ghost use Rattle.ccr_model.specs.Step.{IsLegal};
ghost use Rattle.ccr_model.specs.Given.{gaining, front_of};
ghost use Rattle.ccr_model.specs.Past.{Line, Past, start_past, past_with, past_of};
ghost use Rattle.ccr_model.specs.Headline.{Retention, KeepsLeased};
ghost use Rattle.ccr_model.specs.LeaderRows.{leader_merge};
ghost use Rattle.ccr_model.specs.Invariants.{IsTrueLeader};
ghost use Rattle.ccr_law_copies.specs.Cores.{PrimaryOk, IsCore, IsFront};
ghost use Rattle.ccr_law_stores.specs.TrueStores.{IsTrueStore, AreNumbered, HasTrueStores, HoldEnough, IsTrueHistory, ShowsLine, CanBeSpelled, IsTrueSession, Brings, BringsCommitted};

/// At each place of a legal journal what each of the leader's copies holds serves for what it was given: it holds
/// each operation that it was given at or above its floor, and from the global count that it knows on it shows
/// the documents of all that it was given. It holds each operation that it was given at or above what an unbroken
/// lease retains. With what was proved of the line and of the leases this is all that is stated of the leader.
pub fn leader_stores()
    ensures truth { (start : Start) → IsCopyCount start.copies → (entries : List Entry) → IsLegal (start_state start) entries → HasTrueStores (past_of (start_past start) entries) }
    ensures enough { (start : Start) → IsCopyCount start.copies → (entries : List Entry) → IsLegal (start_state start) entries → HoldEnough (past_of (start_past start) entries) }
    ensures leader { (start : Start) → IsCopyCount start.copies → (entries : List Entry) → IsLegal (start_state start) entries → IsTrueLeader (past_of (start_past start) entries) }
    ensures retention { (start : Start) → IsCopyCount start.copies → (entries : List Entry) → IsLegal (start_state start) entries → Retention (past_of (start_past start) entries) }
{}

/// What a copy holds goes on serving for what it was given where it takes an operation, flushes, merges or learns
/// a global count; and then it holds enough.
pub fn copy_changes()
    ensures takes { (ops : ℕ → Option Operation) → (restored : ℕ) → (c : Copy) → (seq : ℕ) → (op : Operation) → AreNumbered ops → op.seq ≡ seq
        → ((n : ℕ) → has c.seen n ≡ is_some (ops n)) → ((n : ℕ) → n < c.global → is_some (ops n) ≡ true)
        → IsTrueStore ops restored c → IsTrueStore (gaining ops seq (Some op)) restored (taking c seq (Some op)) }
    ensures flushes { (ops : ℕ → Option Operation) → (restored : ℕ) → (c : Copy) → IsTrueStore ops restored c
        → IsTrueStore ops restored (record c { store = flushed c.store; commit = c.global }) }
    ensures merges { (ops : ℕ → Option Operation) → (restored : ℕ) → (retention : ℕ) → (picks : List ℕ) → (c : Copy) → IsTrueStore ops restored c
        → IsTrueStore ops restored (after_merge retention picks c) }
    ensures knows { (ops : ℕ → Option Operation) → (restored : ℕ) → (c : Copy) → (global : ℕ) → IsTrueStore ops restored c → IsTrueStore ops restored (knowing global c) }
    ensures enough { (ops : ℕ → Option Operation) → (restored : ℕ) → (c : Copy) → ((n : ℕ) → n < c.global → is_some (ops n) ≡ true) → IsTrueStore ops restored c
        → HoldsEnough ops restored c }
{}

/// What the primary holds below the global count that it knows serves for the line up to there, and shows its
/// documents; so does what a copy holds that was restored from it. A session that the primary opens has such
/// operations in its files, as long as the line's operations can be spelled in bytes.
pub fn session_files()
    ensures files { (line : Line) → (ops : ℕ → Option Operation) → (c : Copy) → PrimaryOk line ops c.seen c.global → IsTrueStore ops 0 c
        → IsTrueHistory line c.global (flat_map {X = List Operation} {A = Operation} (λ part. part) (files_below c.global c.store)) }
    ensures stays { (line : Line) → (later : Line) → (count : ℕ) → (xs : List Operation) → ((n : ℕ) → (op : Operation) → slice_get line.ops n ≡ Some op → op.seq ≡ n)
        → ((n : ℕ) → n < line.cut → slice_get later.ops n ≡ slice_get line.ops n) → line.cut ≤ later.cut
        → IsTrueHistory line count xs → IsTrueHistory later count xs }
    ensures shows { (line : Line) → (count : ℕ) → (xs : List Operation) → ((n : ℕ) → (op : Operation) → slice_get line.ops n ≡ Some op → op.seq ≡ n)
        → IsTrueHistory line count xs → ShowsLine line count xs }
    ensures restored { (line : Line) → (count : ℕ) → (files : List (List Operation)) → (c : Copy) → c.floor ≡ 0 → c.commit ≡ 0
        → IsTrueHistory line count (flat_map {X = List Operation} {A = Operation} (λ part. part) files)
        → IsTrueStore (front_of count line.ops) count (restored_copy count files c) }
    ensures opens { (p : Past) → IsCore p → HasTrueStores p → CanBeSpelled p.line → p.state.leader.copies.primary.global < 2 ^ 32
        → IsTrueSession p.line (new_session p.state.leader) }
    ensures onward { (line : Line) → (later : Line) → (session : Session) → ((n : ℕ) → (op : Operation) → slice_get line.ops n ≡ Some op → op.seq ≡ n)
        → IsFront line later → IsTrueSession line session → IsTrueSession later session }
    ensures holds { (line : Line) → (session : Session) → ((n : ℕ) → (op : Operation) → slice_get line.ops n ≡ Some op → op.seq ≡ n)
        → IsTrueSession line session → HoldsHistory line session }
{}

/// A read of a copy from a number at or above its floor, and at or above the count that it was restored with,
/// brings the operations that it was given from that number on; a read of a leader's copy brings committed ones.
pub fn reads()
    ensures copy { (ops : ℕ → Option Operation) → (restored : ℕ) → (c : Copy) → (from : ℕ) → (max_ops : ℕ) → (max_bytes : ℕ)
        → ((n : ℕ) → n < c.global → is_some (ops n) ≡ true) → max c.floor restored ≤ from → IsTrueStore ops restored c
        → Brings ops from c.global max_ops max_bytes (read_ops c from max_ops max_bytes) }
    ensures leader { (p : Past) → (copy : ℕ) → (c : Copy) → (from : ℕ) → (max_ops : ℕ) → (max_bytes : ℕ) → IsCore p → HasTrueStores p
        → copy_of p.state.leader.copies copy ≡ Some c → c.floor ≤ from
        → BringsCommitted p.line from c.global max_ops max_bytes (read_ops c from max_ops max_bytes) }
{}

/// What is cut of a list of operations, for a batch or for the answer to a read, is the longest front within a
/// number of operations and a number of bytes, and one operation where not even the first is within both.
pub fn longest_cut()
    ensures { (max_ops : ℕ) → (max_bytes : ℕ) → (ops : List Operation) → IsCut max_ops max_bytes ops (cut_of max_ops max_bytes ops) }
{}

/// A merge of a leader's copy drops no operation at or above the number of a lease of that copy.
pub fn leased_stays()
    ensures { (p : Past) → (copy : ℕ) → (picks : List ℕ) → HasTrueStores p → KeepsLeased p.state.leader.copies (leader_merge p.state.leader copy picks).next.copies copy }
{}
