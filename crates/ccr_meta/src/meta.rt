ghost use Rattle.std.specs.Prelude.{◌≡◌, ◌≤◌, ◌<◌, ◌+◌, [], IfOk, OnOk, OnErr, IfSome, IsOkUnless, MatchOption, None, Some, Ok, Err, true, is_some, is_ok, length};
ghost use Rattle.std.specs.Option.{option_copied};
ghost use Rattle.std.specs.Result.{result_err};
ghost use Rattle.ccr_op.specs.declared.index_name.IndexName.{IndexName};
ghost use Rattle.ccr_meta.specs.Guards.{first_refusal};
ghost use Rattle.ccr_meta.specs.Names.{AreIn, IsFollowerOf, IsIn, follows, followers_of, has_cluster, has_index, index_at, is_index_name, is_same_index, shards_in, with_cluster, with_follower, with_index, with_leader, without_index};
ghost use Rattle.ccr_meta.specs.NameGuards.{cluster_guards, create_guards, find_guards, follow_guards};

use crate::naming::{index_uuid, is_fit_to_create, is_fit_to_follow};
use crate::{IndexMeta, MetaFault, Settings, is_name};
use ccr_auto::AutoFollow;
use ccr_op::{IndexName, Millis, Name};
use std::alloc::{AllocError, Global};
use std::collections::BTreeMap;
use std::marker::Model;

/// The most clusters, indices and shard worlds, and the most followers of an index.
const MOST_CLUSTERS: usize = 8;

const MOST_INDICES: usize = 64;

const MOST_WORLDS: u32 = 64;

const MOST_FOLLOWERS: u32 = 8;

/// After how many milliseconds a lease expires where no setting says it: 12 hours.
const DEFAULT_PERIOD: Millis = 43200000;

/// The clusters and indices that were made so far. A name is looked up in an ordered map: the cost is a
/// logarithm of how many there are.
#[derive(Drop)]
pub struct Meta {
    pub(crate) alloc: Global,
    pub(crate) clusters: BTreeMap<Name, AutoFollow>,
    pub(crate) indices: BTreeMap<IndexName, IndexMeta>,
    pub(crate) worlds: u32,
}

impl Model for Meta {
    ghost use Rattle.ccr_meta.specs.Names.{Names, AreIn};

    ghost Value = { Names };

    ghost view = { λ a. record { clusters = a.clusters.entries; indices = a.indices.entries; worlds = a.worlds } };

    ghost invariant = { λ a. AreIn (record { clusters = a.clusters.entries; indices = a.indices.entries; worlds = a.worlds }) };
}

impl IndexMeta {
    /// Whether it follows this index.
    pub fn follows(&self, leader: &IndexName) -> bool
        ensures { result ≡ follows leader.now self.now }
    {
        match &self.leader {
            None => false,
            Some(other) => other == leader,
        }
    }
}

impl Meta {
    /// No clusters and no indices.
    pub fn new(alloc: Global) -> Self
        ensures { result ≡ record { clusters = []; indices = []; worlds = 0 } }
    {
        Meta {
            alloc,
            clusters: BTreeMap::new(alloc),
            indices: BTreeMap::new(alloc),
            worlds: 0,
        }
    }

    /// How many shard worlds were made.
    pub fn worlds(&self) -> u32
        ensures value { result ≡ self.now.worlds }
        ensures fits { AreIn self.now }
        ensures few { result ≤ 64 }
    {
        self.worlds
    }

    /// Whether there is a cluster of this name.
    pub fn has_cluster(&self, cluster: &Name) -> bool
        ensures { result ≡ has_cluster self.now cluster.now }
    {
        self.clusters.contains_key(cluster)
    }

    /// Whether there is an index of this name.
    pub fn has_index(&self, index: &IndexName) -> bool
        ensures { result ≡ has_index self.now index.now }
    {
        self.indices.contains_key(index)
    }

    /// The indices, in ascending order of their names.
    pub fn indices(&self) -> &BTreeMap<IndexName, IndexMeta>
        ensures { result.now.entries ≡ self.now.indices }
    {
        &self.indices
    }

    // The index of this name.
    fn get(&self, index: &IndexName) -> Option<&IndexMeta>
        ensures { option_copied result ≡ index_at self.now index.now }
    {
        self.indices.get(index)
    }

    /// Why there is no index of this name: `NoCluster`, `NoIndex`.
    pub fn find_refusal(&self, index: &IndexName) -> Option<MetaFault>
        ensures { result ≡ first_refusal (find_guards self.now index.now) }
    {
        if !self.has_cluster(&index.cluster) {
            return Some(MetaFault::NoCluster);
        }
        if !self.has_index(index) {
            return Some(MetaFault::NoIndex);
        }
        None
    }

    /// How many followers of an index were made. It reads every index.
    pub fn followers_of(&self, leader: &IndexName) -> u32
        ensures value { result ≡ followers_of self.now leader.now }
        ensures few { result ≤ 64 }
    {
        self.indices.values().filter(|x| x.follows(leader)).count() as u32
    }

    /// Why no cluster of this name can be made: `BadSetting` where the name breaks the rule of names,
    /// `ClusterExists`, `TooMany` where there are 8.
    pub fn cluster_refusal(&self, cluster: &Name) -> Option<MetaFault>
        ensures { result ≡ first_refusal (cluster_guards self.now cluster.now) }
    {
        if !is_name(cluster) {
            return Some(MetaFault::BadSetting);
        }
        if self.has_cluster(cluster) {
            return Some(MetaFault::ClusterExists);
        }
        if self.clusters.len() >= MOST_CLUSTERS {
            return Some(MetaFault::TooMany);
        }
        None
    }

    /// Why an index of this name can't be created with these settings: `NoCluster`, `IndexExists`,
    /// `BadSetting` where a setting is out of its range or the name breaks the rule of names, `TooMany`
    /// where there would be more than 64 indices or 64 shards of leaders.
    pub fn create_refusal(&self, index: &IndexName, settings: &Settings) -> Option<MetaFault>
        ensures { result ≡ first_refusal (create_guards self.now index.now settings.now) }
    {
        if !self.has_cluster(&index.cluster) {
            return Some(MetaFault::NoCluster);
        }
        if self.has_index(index) {
            return Some(MetaFault::IndexExists);
        }
        if !is_fit_to_create(index, settings) {
            return Some(MetaFault::BadSetting);
        }
        if self.indices.len() >= MOST_INDICES {
            return Some(MetaFault::TooMany);
        }
        let shards = settings.shards.unwrap_or(1);
        if shards > MOST_WORLDS - self.worlds {
            return Some(MetaFault::TooMany);
        }
        None
    }

    /// Why no follower of this name and leader can be made with these settings: `NoCluster`, `NoIndex` of
    /// the leader, `IndexExists`, `IsFollower` of the leader, `SoftDeletesOff` of the leader, `BadSetting`
    /// where a setting is out of its range or none of a follower's, the leader stands in the same cluster,
    /// or the name breaks the rule of names, `TooMany` where there are 64 indices or 8 followers of the
    /// leader. It reads every index.
    pub fn follow_refusal(
        &self,
        index: &IndexName,
        leader: &IndexName,
        settings: &Settings,
    ) -> Option<MetaFault>
        ensures { result ≡ first_refusal (follow_guards self.now index.now leader.now settings.now) }
    {
        if !self.has_cluster(&index.cluster) || !self.has_cluster(&leader.cluster) {
            return Some(MetaFault::NoCluster);
        }
        let Some(found) = self.get(leader) else {
            return Some(MetaFault::NoIndex);
        };
        if self.has_index(index) {
            return Some(MetaFault::IndexExists);
        }
        if found.leader.is_some() {
            return Some(MetaFault::IsFollower);
        }
        if !found.soft_deletes {
            return Some(MetaFault::SoftDeletesOff);
        }
        if !is_fit_to_follow(index, leader, settings) {
            return Some(MetaFault::BadSetting);
        }
        if self.indices.len() >= MOST_INDICES || self.followers_of(leader) >= MOST_FOLLOWERS {
            return Some(MetaFault::TooMany);
        }
        None
    }

    /// Adds a cluster. Refused are what `cluster_refusal` says, and `Memory`; a refused call changes
    /// nothing.
    pub fn add_cluster(&mut self, name: Name) -> Result<(), MetaFault>
        ensures answer { MatchOption (first_refusal (cluster_guards self.old name)) (IsOkUnless result MetaFault.Memory) (λ fault. result ≡ Err fault) }
        ensures ok { OnOk result (self.new ≡ with_cluster self.old name) }
        ensures err { OnErr result (self.new ≡ self.old) }
    {
        if let Some(fault) = self.cluster_refusal(&name) {
            return Err(fault);
        }
        let patterns = AutoFollow::new(self.alloc);
        if self.clusters.insert(name, patterns).is_err() {
            return Err(MetaFault::Memory);
        }
        Ok(())
    }

    /// The index of this name. Refused are `NoCluster` and `NoIndex`. What is found obeys the rule of names,
    /// as its leader does, so that a text made of these names has a bounded length.
    pub fn find(&self, index: &IndexName) -> Result<&IndexMeta, MetaFault>
        ensures answer { MatchOption (first_refusal (find_guards self.now index.now)) (is_ok result ≡ true) (λ fault. result_err result ≡ Some fault) }
        ensures found { IfOk result (λ x. index_at self.now index.now ≡ Some x.now) }
        ensures within { IfOk result (λ x. IsIn self.now.worlds x.now) }
        ensures named { OnOk result (is_index_name index.now ≡ true) }
        ensures few { self.now.worlds ≤ 64 }
    {
        let _worlds = self.worlds();
        if !self.has_cluster(&index.cluster) {
            return Err(MetaFault::NoCluster);
        }
        match self.get(index) {
            None => Err(MetaFault::NoIndex),
            Some(found) => Ok(found),
        }
    }

    // Adds an index; there are this many worlds then.
    #[tactic(auto)]
    fn put(&mut self, index: IndexName, x: IndexMeta, worlds: u32) -> Result<(), AllocError>
        requires few { length self.old.indices < 64 }
        requires rising { self.old.worlds ≤ worlds }
        requires bound { worlds ≤ 64 }
        requires within { IsIn worlds x }
        requires named { is_index_name index ≡ true }
        requires room { (leader : IndexName) → follows leader x ≡ true → followers_of self.old leader < 8 }
        ensures ok { OnOk result (self.new ≡ record (with_index self.old index x) { worlds = worlds }) }
        ensures err { OnErr result (self.new ≡ self.old) }
    {
        self.indices.insert(index, x)?;
        self.worlds = worlds;
        Ok(())
    }

    // Takes an index away; there are this many worlds then.
    pub(crate) fn forget(&mut self, index: &IndexName, worlds: u32)
        requires { AreIn (record (without_index self.old index.now) { worlds = worlds }) }
        ensures { self.new ≡ record (without_index self.old index.now) { worlds = worlds } }
    {
        let _ = self.indices.remove(index);
        self.worlds = worlds;
    }

    // Adds an index that can be created.
    pub(crate) fn add_leader(
        &mut self,
        index: IndexName,
        settings: &Settings,
    ) -> Result<(), AllocError>
        requires { first_refusal (create_guards self.old index settings.now) ≡ None }
        ensures ok { OnOk result (self.new ≡ with_leader self.old index settings.now) }
        ensures err { OnErr result (self.new ≡ self.old) }
    {
        let shards = settings.shards.unwrap_or(1);
        let first = self.worlds();
        let x = IndexMeta {
            shards,
            replicas: settings.replicas.unwrap_or(1),
            soft_deletes: settings.soft_deletes.unwrap_or(true),
            retention: settings.retention.unwrap_or(0),
            period: settings.period.unwrap_or(DEFAULT_PERIOD),
            uuid: index_uuid(self.alloc, &index)?,
            leader: None,
            first,
            follower: None,
        };
        self.put(index, x, first + shards)
    }

    // Adds a follower that can be made.
    #[tactic(auto, using(crate::proofs::Limits::with_index_of_follower))]
    pub(crate) fn add_follower(
        &mut self,
        index: IndexName,
        leader: &IndexName,
        settings: &Settings,
    ) -> Result<(), AllocError>
        requires { first_refusal (follow_guards self.old index leader.now settings.now) ≡ None }
        ensures ok { OnOk result (self.new ≡ with_follower self.old index leader.now settings.now) }
        ensures err { OnErr result (self.new ≡ self.old) }
    {
        let x = self.new_follower(&index, leader, settings)?;
        let worlds = self.worlds();
        self.put(index, x, worlds)
    }

    // What is known of a follower that can be made.
    fn new_follower(
        &self,
        index: &IndexName,
        leader: &IndexName,
        settings: &Settings,
    ) -> Result<IndexMeta, AllocError>
        requires { first_refusal (follow_guards self.now index.now leader.now settings.now) ≡ None }
        ensures { IfOk result (λ x. IsFollowerOf self.now index.now leader.now settings.now x) }
    {
        let Some(found) = self.get(leader) else {
            unreachable!()
        };
        let number = self.followers_of(leader);
        Ok(IndexMeta {
            shards: found.shards,
            replicas: settings.replicas.unwrap_or(found.replicas),
            soft_deletes: found.soft_deletes,
            retention: found.retention,
            period: found.period,
            uuid: index_uuid(self.alloc, index)?,
            leader: Some(leader.copy(self.alloc)?),
            first: found.first,
            follower: Some(number),
        })
    }

    /// Makes a follower. Refused are what `follow_refusal` says, and `Memory`; a refused call changes
    /// nothing. It reads every index.
    pub fn follow(
        &mut self,
        index: IndexName,
        leader: &IndexName,
        settings: &Settings,
    ) -> Result<(), MetaFault>
        ensures answer { MatchOption (first_refusal (follow_guards self.old index leader.now settings.now)) (IsOkUnless result MetaFault.Memory) (λ fault. result ≡ Err fault) }
        ensures ok { OnOk result (self.new ≡ with_follower self.old index leader.now settings.now) }
        ensures err { OnErr result (self.new ≡ self.old) }
    {
        if let Some(fault) = self.follow_refusal(&index, leader, settings) {
            return Err(fault);
        }
        if self.add_follower(index, leader, settings).is_err() {
            return Err(MetaFault::Memory);
        }
        Ok(())
    }
}
