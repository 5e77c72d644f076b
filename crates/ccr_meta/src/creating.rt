ghost use Rattle.std.specs.Prelude.{◌≡◌, ◌++◌, Err, IfOk, OnOk, OnErr, IsOkUnless, MatchOption, None};
ghost use Rattle.ccr_meta.specs.Guards.{first_refusal};
ghost use Rattle.ccr_meta.specs.NameGuards.{create_guards};
ghost use Rattle.ccr_meta.specs.Created.{created, created_reports, decided, decided_in, follower_in, follower_of, judged, names_after, refusal_of, reports, told};

use crate::{Meta, MetaFault, Settings};
use ccr_auto::{AutoFollow, Decision};
use ccr_op::{IndexName, Name};
use std::alloc::{AllocError, Global};
use std::collections::{BTreeMap, VecDeque};

/// The settings of a follow that gives none.
const NO_SETTINGS: Settings = Settings {
    shards: None,
    replicas: None,
    soft_deletes: None,
    retention: None,
    period: None,
    bad: false,
};

/// What the auto-follow patterns of a cluster decided of a new index of another one.
#[derive(Debug, Drop)]
pub struct Decided {
    /// The cluster of the patterns.
    pub cluster: Name,
    /// What they decided.
    pub decision: Decision,
    /// Why the index is not followed as was decided.
    pub refused: Option<MetaFault>,
}

impl Meta {
    /// Creates an index. Then the auto-follow patterns of each other cluster, in order of name, decide of
    /// it, and it is followed as they say, without settings, where nothing refuses it. What comes back is
    /// what was decided, but for the clusters none of whose patterns matches.
    ///
    /// Refused are what `create_refusal` says, and `Memory`; a refused call changes nothing. It reads the
    /// patterns of every cluster, and every index once for each follower.
    pub fn create(
        &mut self,
        alloc: Global,
        index: IndexName,
        settings: &Settings,
    ) -> Result<Vec<Decided>, MetaFault>
        ensures answer { MatchOption (first_refusal (create_guards self.old index settings.now)) (IsOkUnless result MetaFault.Memory) (λ fault. result ≡ Err fault) }
        ensures names { OnOk result (self.new ≡ created self.old index settings.now) }
        ensures decided { IfOk result (λ list. list.items ≡ created_reports self.old index settings.now) }
        ensures err { OnErr result (self.new ≡ self.old) }
    {
        if let Some(fault) = self.create_refusal(&index, settings) {
            return Err(fault);
        }
        match self.create_and_follow(alloc, index, settings) {
            Ok(list) => Ok(list),
            Err(AllocError) => Err(MetaFault::Memory),
        }
    }

    // Creates an index that can be created, and follows it as is decided.
    fn create_and_follow(
        &mut self,
        alloc: Global,
        index: IndexName,
        settings: &Settings,
    ) -> Result<Vec<Decided>, AllocError>
        requires { first_refusal (create_guards self.old index settings.now) ≡ None }
        ensures names { OnOk result (self.new ≡ created self.old index settings.now) }
        ensures decided { IfOk result (λ list. list.items ≡ created_reports self.old index settings.now) }
        ensures err { OnErr result (self.new ≡ self.old) }
    {
        let mut decisions = self.decisions(alloc, &index)?;
        let leader = index.copy(alloc)?;
        let worlds = self.worlds();
        self.add_leader(index, settings)?;
        let mut list = Vec::new(alloc);
        if self
            .follow_each(&leader, &mut decisions, &mut list)
            .is_err()
        {
            self.forget(&leader, worlds);
            return Err(AllocError);
        }
        Ok(list)
    }

    // What the patterns of the other clusters decide of a new index.
    fn decisions(&self, alloc: Global, index: &IndexName) -> Result<VecDeque<Decided>, AllocError>
        ensures { IfOk result (λ list. list.items ≡ decided index.now self.now.clusters) }
    {
        decisions_of(alloc, &self.clusters, index)
    }

    // Follows the leader as was decided, one decision after another, and says so behind the list. After
    // want of memory all is as before but for the list.
    fn follow_each(
        &mut self,
        leader: &IndexName,
        decisions: &mut VecDeque<Decided>,
        list: &mut Vec<Decided>,
    ) -> Result<(), AllocError>
        ensures names { OnOk result (self.new ≡ names_after leader.now self.old decisions.old.items) }
        ensures list { OnOk result (list.new.items ≡ list.old.items ++ reports leader.now self.old decisions.old.items) }
        ensures err { OnErr result (self.new ≡ self.old) }
    {
        let Some(decision) = decisions.pop_front() else {
            return Ok(());
        };
        let (decided, follower) = self.judge(leader, decision)?;
        list.push(decided)?;
        let Some(index) = follower else {
            return self.follow_each(leader, decisions, list);
        };
        let name = index.copy(self.alloc)?;
        let worlds = self.worlds();
        self.add_follower(index, leader, &NO_SETTINGS)?;
        let rest = self.follow_each(leader, decisions, list);
        if rest.is_err() {
            self.forget(&name, worlds);
        }
        rest
    }

    // Says of a decision whether it is refused, and names the follower that is to be made.
    fn judge(
        &self,
        leader: &IndexName,
        decided: Decided,
    ) -> Result<(Decided, Option<IndexName>), AllocError>
        ensures decided { IfOk result (λ pair. pair.0 ≡ judged leader.now self.now decided) }
        ensures follower { IfOk result (λ pair. pair.1 ≡ follower_of leader.now self.now decided) }
    {
        let follower = follower_in(self.alloc, &decided.cluster, &decided.decision)?;
        let refused = match &follower {
            None => None,
            Some(index) => self.follow_refusal(index, leader, &NO_SETTINGS),
        };
        let decided = Decided {
            cluster: decided.cluster,
            decision: decided.decision,
            refused,
        };
        match refused {
            None => Ok((decided, follower)),
            Some(_) => Ok((decided, None)),
        }
    }
}

// The follower that was decided on.
fn follower_in(
    alloc: Global,
    cluster: &Name,
    decision: &Decision,
) -> Result<Option<IndexName>, AllocError>
    ensures { IfOk result (λ follower. follower ≡ follower_in cluster.now decision.now) }
{
    match decision {
        Decision::None => Ok(None),
        Decision::Follow { name } => {
            let cluster = cluster.copy(alloc)?;
            let index = name.copy(alloc)?;
            Ok(Some(IndexName { cluster, index }))
        }
        Decision::Conflict { .. } => Ok(None),
    }
}

// What the patterns of the clusters decide of a new index.
fn decisions_of(
    alloc: Global,
    clusters: &BTreeMap<Name, AutoFollow>,
    index: &IndexName,
) -> Result<VecDeque<Decided>, AllocError>
    ensures { IfOk result (λ list. list.items ≡ decided index.now clusters.now.entries) }
{
    let mut list = VecDeque::new(alloc);
    for (cluster, patterns) in clusters {
        let decided = decided_in(alloc, cluster, patterns, index)?;
        if let Some(decided) = decided {
            list.push_back(decided)?;
        }
    }
    Ok(list)
}

// What the patterns of a cluster decide of a new index.
fn decided_in(
    alloc: Global,
    cluster: &Name,
    patterns: &AutoFollow,
    index: &IndexName,
) -> Result<Option<Decided>, AllocError>
    ensures { IfOk result (λ one. one ≡ decided_in index.now (cluster.now, patterns.now)) }
{
    if cluster.is(&index.cluster) {
        return Ok(None);
    }
    let decision = patterns.decide(alloc, &index.cluster, &index.index)?;
    told(alloc, cluster, decision)
}

// A decision, where it is one.
fn told(alloc: Global, cluster: &Name, decision: Decision) -> Result<Option<Decided>, AllocError>
    ensures { IfOk result (λ one. one ≡ told cluster.now decision) }
{
    if let Decision::None = &decision {
        return Ok(None);
    }
    let cluster = cluster.copy(alloc)?;
    Ok(Some(Decided {
        cluster,
        decision,
        refused: None,
    }))
}
