ghost use Rattle.ccr_model.specs.Invariants.{Invariant};
ghost use Rattle.ccr_model.specs.Headline.{HeadlineHolds, CommittedPrefix};
ghost use Rattle.ccr_law_stores.specs.Spelled.{IsSpelled};
ghost use Rattle.ccr_law.specs.Journals.{AlwaysHolds};

/// At every place of every fit and legal journal:
///
/// - each operation that a copy of a follower holds is the committed operation of that number of the history that it follows;
/// - no copy of the leader discards an operation at or above the number that an unbroken lease retains;
/// - a follower's task asks for no number again that it received in the epoch, and its reads, writes and buffer are
///   bounded by its parameters;
/// - what was answered as written is processed by each of the follower's copies, also by one that was just promoted.
///
/// And of each entry:
///
/// - what was committed of each history before it is committed after it, the same operations at the same numbers, also
///   where a forced promotion ends that history and begins another;
/// - a search is answered by the greatest number per document over what the copy was given; where that is exactly
///   the operations of its history below a count, and the copy is a follower's, the leader's primary, or a replica that
///   was resynced, the answer is that of its history at that count;
/// - a merge of a leader's copy drops no number at or above that of a lease of that copy, and no copy of either side drops an
///   operation by a merge that one of its own leases retains;
/// - a task stops for missing operations only after its lease expired or was removed;
/// - a batch of an old epoch is refused and changes nothing;
/// - a follower's request asks for no number that it received in the epoch, unless it repeats one that was lost;
/// - the count that a follower's primary knows as committed never falls, also over a promotion;
/// - what is sent brings no more operations and bytes than the request asks for that it answers;
/// - a refused event changes nothing but the journal;
/// - a message is ignored exactly where it goes to a follower and answers nothing that it waits for.
///
/// What was committed of each history at any place is committed at any later one, the same operations at the same numbers.
pub fn headline()
    ensures places { HeadlineHolds }
    ensures prefix { CommittedPrefix }
{}

/// What the theorem rests on, at every place of every fit and legal journal: what is true of the leader's copies, of
/// the messages in flight, the polls and the sessions, and of each follower's copies, its task, what its lease
/// retains and what it is told to be missing. Each operation of the line, and each that a leader's copy was given,
/// can be spelled in bytes.
pub fn invariants()
    ensures truth { AlwaysHolds Invariant }
    ensures spelled { AlwaysHolds IsSpelled }
{}
