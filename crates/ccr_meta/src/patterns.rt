ghost use Rattle.std.specs.Prelude.{◌≡◌, Err, OnOk, OnErr};
ghost use Rattle.ccr_meta.specs.Patterns.{IsDeleted, IsPut, with_pattern_put, with_pattern_deleted};

use crate::{AutoRefused, Meta, MetaFault};
use ccr_op::Name;

impl Meta {
    /// Puts an auto-follow pattern of a cluster, as `AutoFollow::put` does. Refused is `NoCluster`, where
    /// the cluster or the remote one isn't there, and else what that call refuses; a refused call changes
    /// nothing.
    pub fn auto_put(
        &mut self,
        cluster: &Name,
        name: Name,
        remote: Name,
        patterns: Vec<Name>,
        exclude: Vec<Name>,
        follow: Name,
    ) -> Result<(), AutoRefused>
        ensures answer { IsPut self.old cluster.now name remote patterns.items exclude.items follow result }
        ensures ok { OnOk result (self.new ≡ with_pattern_put self.old cluster.now (record { name = name; remote = remote; patterns = patterns.items; exclude = exclude.items; follow = follow })) }
        ensures err { OnErr result (self.new ≡ self.old) }
    {
        if !self.has_cluster(&remote) {
            return Err(AutoRefused::Meta(MetaFault::NoCluster));
        }
        let Some(list) = self.clusters.get_mut(cluster) else {
            return Err(AutoRefused::Meta(MetaFault::NoCluster));
        };
        match list.put(name, remote, patterns, exclude, follow) {
            Ok(()) => Ok(()),
            Err(fault) => Err(AutoRefused::Auto(fault)),
        }
    }

    /// Takes an auto-follow pattern of a cluster away, as `AutoFollow::delete` does. Refused is `NoCluster`,
    /// and else what that call refuses; a refused call changes nothing. It takes no memory.
    pub fn auto_delete(&mut self, cluster: &Name, name: &Name) -> Result<(), AutoRefused>
        ensures answer { IsDeleted self.old cluster.now name.now result }
        ensures ok { OnOk result (self.new ≡ with_pattern_deleted self.old cluster.now name.now) }
        ensures err { OnErr result (self.new ≡ self.old) }
    {
        let Some(list) = self.clusters.get_mut(cluster) else {
            return Err(AutoRefused::Meta(MetaFault::NoCluster));
        };
        match list.delete(name) {
            Ok(()) => Ok(()),
            Err(fault) => Err(AutoRefused::Auto(fault)),
        }
    }
}
