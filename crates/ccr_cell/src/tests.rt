//! A counter in a cell, alone, under two threads, and with a boxed policy.
ghost use Rattle.std.specs.Prelude.{◌≡◌, ℕ, ◌+◌, [], sum_by};
ghost use Rattle.ccr_cell.specs.Passes.{view_of, IsOf};

use crate::{Cell, Machine, Pass};
use std::alloc::{AllocError, Global};
use std::process::Abort;
use std::sync::Wait;
use std::test::*;
use std::thread;
use std::thread::Threads;

/// How much a counter counts by when it is asked for what comes next.
trait Policy: Send + Drop {
    ghost amount: { Self → ℕ → ℕ };

    fn pick(&self, hint: u64) -> u64
        ensures { result ≡ amount self.now hint };
}

/// The same for a counter, which may be generic in it.
trait Chooser: Drop {
    ghost amount: { Self → ℕ → ℕ };

    fn next(&self, hint: u64) -> u64
        ensures { result ≡ amount self.now hint };
}

impl Chooser for Box<dyn Policy> {
    ghost amount = { λ any hint. (Policy-box any).amount any.value hint };

    fn next(&self, hint: u64) -> u64 {
        (**self).pick(hint)
    }
}

/// Counts by one.
#[derive(Drop)]
struct One;

impl Chooser for One {
    ghost amount = { λ _ _. 1 };

    fn next(&self, _hint: u64) -> u64 {
        1
    }
}

/// Counts by the hint.
#[derive(Drop)]
struct Hinted;

impl Policy for Hinted {
    ghost amount = { λ _ hint. hint };

    fn pick(&self, hint: u64) -> u64 {
        hint
    }
}

/// What a counter keeps of a step: by how much it counted, and the sum then.
#[derive(Clone, Copy)]
pub struct Count {
    pub by: u64,
    pub sum: u64,
}

/// Counts up to a goal, and keeps at most `room` entries.
#[derive(Drop)]
struct Counter<P> {
    goal: u64,
    sum: u64,
    room: usize,
    entries: Vec<Count>,
    policy: P,
    ghost sum_is: { sum ≡ sum_by (λ e. e.by) entries.items },
}

impl<P> Counter<P> {
    fn new(alloc: Global, goal: u64, room: usize, policy: P) -> Counter<P>
        ensures { result.entries.items ≡ [] }
    {
        Counter {
            goal,
            sum: 0,
            room,
            entries: Vec::new(alloc),
            policy,
        }
    }
}

impl<P: Chooser + Send> Machine for Counter<P> {
    ghost use Rattle.std.specs.Prelude.{◌==◌, ◌≤◌, if◌then◌else◌, false, length, sum_by};
    ghost use Rattle.ccr_cell.specs.declared.tests.Count.{Count};

    type Start = u64;

    type Event = u64;

    type Reply = u64;

    type Entry = Count;

    type Note = u64;

    ghost start = { λ c. c.goal };

    ghost journal = { λ c. c.entries.items };

    ghost is_broken = { λ _. false };

    ghost entry_of = { λ by sum. record { by = by; sum = sum } };

    ghost may_reply = { λ goal entries by sum. sum ≡ sum_by (λ e. e.by) entries + by };

    ghost may_choose = { λ goal entries by. Unit {0} };

    ghost is_idle = { λ goal entries. goal ≤ sum_by (λ e. e.by) entries };

    ghost note_of = { λ goal entries of. if of == 0 then sum_by (λ e. e.by) entries else length entries };

    fn step(&mut self, event: &u64) -> Result<u64, AllocError> {
        let by = *event;
        let Some(sum) = self.sum.checked_add(by) else {
            return Err(AllocError);
        };
        if self.entries.len() >= self.room {
            return Err(AllocError);
        }
        self.entries.push(Count { by, sum })?;
        self.sum = sum;
        Ok(sum)
    }

    fn choose(&self, hint: u64) -> Result<Option<u64>, AllocError> {
        if self.sum >= self.goal {
            return Ok(None);
        }
        Ok(Some(self.policy.next(hint)))
    }

    fn note(&self, of: u64) -> Result<u64, AllocError> {
        if of == 0 {
            return Ok(self.sum);
        }
        Ok(self.entries.len() as u64)
    }

    fn len(&self) -> u64 {
        self.entries.len() as u64
    }
}

fn is_entry(counter: &Counter<One>, place: u64, by: u64, sum: u64) -> bool {
    match counter.entries.get(place as usize) {
        Some(entry) => entry.by == by && entry.sum == sum,
        None => false,
    }
}

#[test]
fn one_pass_acts_and_looks(rt: HostRuntime) -> Result<(), Fail> {
    let counter = Counter::new(rt.alloc(), 5, 8, One);
    let (cell, mut pass) = Cell::new(rt.alloc(), counter).ok().ok_or("a cell")?;
    assert_eq!(rt; pass.share(), 4294967296);
    assert_eq!(rt; cell.act(&rt, &mut pass, &4)?, (4, 0));
    assert_eq!(rt; cell.act_next(&rt, &mut pass, 9)?, Some((1, 5, 1)));
    assert_eq!(rt; cell.act_next(&rt, &mut pass, 9)?, None);
    assert_eq!(rt; cell.look(&rt, &mut pass, 0)?, 5);
    assert_eq!(rt; cell.look(&rt, &mut pass, 1)?, 2);
    let counter = cell.close(pass).ok().ok_or("the whole share")?;
    assert_eq!(rt; counter.len(), 2);
    assert!(rt; is_entry(&counter, 0, 4, 4));
    assert!(rt; is_entry(&counter, 1, 1, 5));
    Ok(())
}

#[test]
fn a_part_of_the_share_does_not_close(rt: HostRuntime) -> Result<(), Fail> {
    let counter = Counter::new(rt.alloc(), 0, 8, One);
    let (cell, mut pass) = Cell::new(rt.alloc(), counter).ok().ok_or("a cell")?;
    let mut other = cell.split(&mut pass);
    assert_eq!(rt; (pass.share(), other.share()), (4294967295, 1));
    assert_eq!(rt; cell.act(&rt, &mut other, &7)?, (7, 0));
    let Err((cell, mut pass)) = cell.close(pass) else {
        return Err(Fail::from("another pass is out"));
    };
    cell.join(&mut pass, other);
    assert_eq!(rt; pass.share(), 4294967296);
    let counter = cell.close(pass).ok().ok_or("the whole share")?;
    assert_eq!(rt; counter.len(), 1);
    assert!(rt; is_entry(&counter, 0, 7, 7));
    Ok(())
}

// Counts `times` times, and returns the places that were told.
fn count_often<R: Wait>(
    rt: &R,
    alloc: Global,
    cell: &Cell<Counter<One>>,
    pass: &mut Pass<Counter<One>>,
    by: u64,
    times: u64,
) -> Result<Vec<u64>, AllocError>
    requires { IsOf cell.now pass.old }
    ensures own { IsOf cell.now pass.new }
    ensures share { (view_of pass.new).share ≡ (view_of pass.old).share }
{
    let mut places = Vec::new(alloc);
    for _ in 0..times {
        let (_sum, place) = cell.act(rt, pass, &by)?;
        places.push(place)?;
    }
    Ok(places)
}

// The same by a pass that is handed in and back.
fn counted<R: Wait>(
    rt: &R,
    alloc: Global,
    cell: &Cell<Counter<One>>,
    mut pass: Pass<Counter<One>>,
    by: u64,
    times: u64,
) -> (Pass<Counter<One>>, Option<Vec<u64>>)
    requires { IsOf cell.now pass }
    ensures { IsOf cell.now result.0 }
{
    let places = count_often(rt, alloc, cell, &mut pass, by, times).ok();
    (pass, places)
}

// Two threads count, each with a pass of its own, which are joined then. Returns the counter, and what each thread was told.
fn count_in_two<R: Threads + Wait + Sync>(
    rt: &R,
    alloc: Global,
    counter: Counter<One>,
    times: u64,
) -> Option<(Counter<One>, Option<Vec<u64>>, Option<Vec<u64>>)> {
    let (cell, mut one) = Cell::new(alloc, counter).ok()?;
    let two = cell.split(&mut one);
    let shared = &cell;
    let (first, second) = thread::join(
        rt,
        move || -> (Pass<Counter<One>>, Option<Vec<u64>>)
            requires { IsOf shared.now one }
            ensures { IsOf shared.entry.now result.0 }
        { counted(rt, alloc, shared, one, 1, times) },
        move || -> (Pass<Counter<One>>, Option<Vec<u64>>)
            requires { IsOf shared.now two }
            ensures { IsOf shared.entry.now result.0 }
        { counted(rt, alloc, shared, two, 3, times) },
    );
    let (mut pass, first) = first;
    let (other, second) = second;
    cell.join(&mut pass, other);
    let counter = cell.close(pass).ok()?;
    Some((counter, first, second))
}

#[test]
fn two_threads_have_one_journal(rt: HostRuntime) -> Result<(), Fail> {
    let counter = Counter::new(rt.alloc(), 0, 1000, One);
    let (counter, first, second) = count_in_two(&rt, rt.alloc(), counter, 200).ok_or("the cell")?;
    let first = first.ok_or("memory")?;
    let second = second.ok_or("memory")?;
    assert_eq!(rt; (first.len(), second.len(), counter.len()), (200, 200, 400));
    assert_eq!(rt; counter.sum, 800);
    assert!(rt; all_by(&counter, first.as_slice(), 1));
    assert!(rt; all_by(&counter, second.as_slice(), 3));
    Ok(())
}

// Whether the places rise, and have entries that count by so much.
fn all_by(counter: &Counter<One>, places: &[u64], by: u64) -> bool {
    let mut least = 0;
    for place in places {
        let found = match counter.entries.get(*place as usize) {
            Some(entry) => entry.by == by,
            None => false,
        };
        if !found || *place < least || *place == u64::MAX {
            return false;
        }
        least = *place + 1;
    }
    true
}

#[test]
fn one_of_two_threads_is_refused_memory(rt: HostRuntime) -> Result<(), Fail> {
    let counter = Counter::new(rt.alloc(), 0, 1, One);
    let (counter, first, second) = count_in_two(&rt, rt.alloc(), counter, 1).ok_or("the cell")?;
    assert_eq!(rt; counter.len(), 1);
    assert!(rt; first.is_some() != second.is_some());
    let by = if first.is_some() { 1 } else { 3 };
    assert!(rt; is_entry(&counter, 0, by, by));
    Ok(())
}

// Settles a counter in a cell, and returns its sum and the number of its steps.
fn settle<P: Chooser + Send, R: Wait>(
    rt: &R,
    alloc: Global,
    counter: Counter<P>,
    hint: u64,
) -> Option<(u64, u64)> {
    let (cell, mut pass) = Cell::new(alloc, counter).ok()?;
    let idle = settle_all(rt, &cell, &mut pass, hint).ok()?;
    let sum = cell.look(rt, &mut pass, 0).ok()?;
    let counter = cell.close(pass).ok()?;
    if idle {
        Some((sum, counter.len()))
    } else {
        None
    }
}

// Whether the counter came to its goal within 100 steps.
fn settle_all<P: Chooser + Send, R: Wait>(
    rt: &R,
    cell: &Cell<Counter<P>>,
    pass: &mut Pass<Counter<P>>,
    hint: u64,
) -> Result<bool, AllocError>
    requires { IsOf cell.now pass.old }
    ensures own { IsOf cell.now pass.new }
    ensures share { (view_of pass.new).share ≡ (view_of pass.old).share }
{
    for _ in 0..100 {
        let next = cell.act_next(rt, pass, hint)?;
        if next.is_none() {
            return Ok(true);
        }
    }
    Ok(false)
}

// A machine with a boxed policy lies in a cell: the type of the cell is named in code that is generic in the policy.
fn settle_boxed<R: Wait>(
    rt: &R,
    alloc: Global,
    counter: Counter<Box<dyn Policy>>,
    hint: u64,
) -> Option<(u64, u64)> {
    settle(rt, alloc, counter, hint)
}

#[test]
fn a_machine_with_a_boxed_policy_settles(rt: HostRuntime) -> Result<(), Fail> {
    let policy: Box<dyn Policy> = Box::new(rt.alloc(), Hinted)?;
    let counter = Counter::new(rt.alloc(), 7, 8, policy);
    assert_eq!(rt;
        settle_boxed(&rt, rt.alloc(), counter, 3).ok_or("settled")?,
        (9, 3)
    );
    let alone = Counter::new(rt.alloc(), 2, 8, One);
    assert_eq!(rt; settle(&rt, rt.alloc(), alone, 3).ok_or("settled")?, (2, 2));
    Ok(())
}
