//! Offsets and clusters of the guest's disk.

ghost use Rattle.std.specs.Prelude.{◌≡◌, ◌+◌, ◌-◌, ◌*◌, ◌/◌, ◌%◌, ◌^◌, ◌<◌, ◌≤◌, ◌++◌, Some, None, if◌then◌else◌, ◌==◌, nat_lt, false, codes};
ghost use Rattle.std.specs.Fmt.{digits};
ghost use Rattle.qcow2_base.specs.Types.{IsClusterBits};
ghost use Rattle.qcow2_base.specs.declared.types.GuestCluster.{GuestCluster};

use super::{ClusterCount, GuestCluster, GuestOffset};
use std::fmt;
use std::ops::{Add, AddAssign, Sub, SubAssign};

impl GuestOffset {
    /// Returns the offset within the cluster, in bytes.
    #[inline]
    pub fn in_cluster_offset(self, cluster_bits: u32) -> u64
        requires { IsClusterBits cluster_bits }
        ensures { result ≡ self.0 % 2 ^ cluster_bits }
    {
        self.0 % (1 << cluster_bits)
    }

    /// Returns the cluster of the offset.
    #[inline]
    pub fn cluster(self, cluster_bits: u32) -> GuestCluster
        requires { IsClusterBits cluster_bits }
        ensures { result.0 ≡ self.0 / 2 ^ cluster_bits }
    {
        GuestCluster(self.0 >> cluster_bits)
    }

    /// Returns the cluster that begins at the offset, or `None` within a cluster. The offset of a cluster
    /// gives that cluster.
    #[inline]
    #[tactic(auto, using(crate::proofs::TypesLemmas::multiple_quotient))]
    pub fn checked_cluster(self, cluster_bits: u32) -> Option<GuestCluster>
        requires { IsClusterBits cluster_bits }
        ensures value { result ≡ (if self.0 % 2 ^ cluster_bits == 0
            then Some (record { 0 = self.0 / 2 ^ cluster_bits }) else None) }
        ensures own_offset { (c : GuestCluster) →
            self.0 ≡ c.0 * 2 ^ cluster_bits → result ≡ Some c }
    {
        (self.in_cluster_offset(cluster_bits) == 0).then_some(self.cluster(cluster_bits))
    }

    /// Returns the index of the entry of the offset's cluster in its L2 table.
    #[inline]
    pub fn l2_index(self, cluster_bits: u32) -> usize
        requires { IsClusterBits cluster_bits }
        ensures { result ≡ self.0 / 2 ^ cluster_bits % 2 ^ (cluster_bits - 3) }
    {
        self.cluster(cluster_bits).l2_index(cluster_bits)
    }

    /// Returns the index of the offset's L2 table in the L1 table.
    #[inline]
    pub fn l1_index(self, cluster_bits: u32) -> usize
        requires { IsClusterBits cluster_bits }
        ensures { result ≡ self.0 / 2 ^ cluster_bits / 2 ^ (cluster_bits - 3) }
    {
        self.cluster(cluster_bits).l1_index(cluster_bits)
    }

    /// Returns the number of bytes from the offset to the end of its cluster.
    #[inline]
    pub fn remaining_in_cluster(self, cluster_bits: u32) -> u64
        requires { IsClusterBits cluster_bits }
        ensures { result ≡ 2 ^ cluster_bits - self.0 % 2 ^ cluster_bits }
    {
        (1 << cluster_bits) - self.in_cluster_offset(cluster_bits)
    }

    /// Returns the number of bytes from the offset to the end of the range that its L2 table maps.
    #[inline]
    pub fn remaining_in_l2_table(self, cluster_bits: u32) -> u64
        requires { IsClusterBits cluster_bits }
        ensures { let index = self.0 / 2 ^ cluster_bits % 2 ^ (cluster_bits - 3) in
            let after = 2 ^ (cluster_bits - 3) - 1 - index in
            result ≡ 2 ^ cluster_bits - self.0 % 2 ^ cluster_bits + after * 2 ^ cluster_bits }
    {
        let l2_entries: u64 = 1 << (cluster_bits - 3);
        let clusters_after = l2_entries - 1 - self.l2_index(cluster_bits) as u64;
        self.remaining_in_cluster(cluster_bits) + (clusters_after << cluster_bits)
    }
}

/// Returns the offset that many bytes after this one.
impl Add<u64> for GuestOffset {
    type Output = GuestOffset;

    ghost can_add = { λ offset bytes. offset.0 + bytes < 2 ^ 64 };

    ghost add_gives = { λ offset bytes sum. sum.0 ≡ offset.0 + bytes };

    #[inline]
    fn add(self, rhs: u64) -> GuestOffset {
        GuestOffset(self.0 + rhs)
    }
}

/// Returns the offset that many bytes before this one.
impl Sub<u64> for GuestOffset {
    type Output = GuestOffset;

    ghost can_sub = { λ offset bytes. bytes ≤ offset.0 };

    ghost sub_gives = { λ offset bytes difference. difference.0 ≡ offset.0 - bytes };

    #[inline]
    fn sub(self, rhs: u64) -> GuestOffset {
        GuestOffset(self.0 - rhs)
    }
}

/// Returns the number of bytes from the other offset to this one.
impl Sub<GuestOffset> for GuestOffset {
    type Output = u64;

    ghost can_sub = { λ end start. start.0 ≤ end.0 };

    ghost sub_gives = { λ end start bytes. bytes ≡ end.0 - start.0 };

    #[inline]
    fn sub(self, rhs: GuestOffset) -> u64 {
        self.0 - rhs.0
    }
}

/// Prints `0x` and lower-case hexadecimal digits, without leading zeros.
impl fmt::Display for GuestOffset {
    ghost output = { λ offset. Some (codes "0x" ++ digits 16 false offset.0) };

    fn fmt<W: fmt::Write>(&self, f: &mut fmt::Formatter<W>) -> fmt::Result {
        write!(f, "0x{:x}", self.0)
    }
}

impl GuestCluster {
    /// Returns the offset of the cluster's first byte.
    #[inline]
    pub fn offset(self, cluster_bits: u32) -> GuestOffset
        requires bits { IsClusterBits cluster_bits }
        requires fits { self.0 * 2 ^ cluster_bits < 2 ^ 64 }
        ensures { result.0 ≡ self.0 * 2 ^ cluster_bits }
    {
        GuestOffset(self.0 << cluster_bits)
    }

    /// Returns the index of the cluster's entry in its L2 table.
    #[inline]
    pub fn l2_index(self, cluster_bits: u32) -> usize
        requires { IsClusterBits cluster_bits }
        ensures { result ≡ self.0 % 2 ^ (cluster_bits - 3) }
    {
        (self.0 % (1 << (cluster_bits - 3))) as usize
    }

    /// Returns the index of the cluster's L2 table in the L1 table.
    #[inline]
    pub fn l1_index(self, cluster_bits: u32) -> usize
        requires { IsClusterBits cluster_bits }
        ensures { result ≡ self.0 / 2 ^ (cluster_bits - 3) }
    {
        (self.0 >> (cluster_bits - 3)) as usize
    }

    /// Returns the cluster of these indices. The indices of a cluster give that cluster.
    #[inline]
    #[tactic(auto, using(crate::proofs::TypesLemmas::from_parts))]
    pub fn from_l1_l2_indices(l1_index: usize, l2_index: usize, cluster_bits: u32) -> GuestCluster
        requires bits { IsClusterBits cluster_bits }
        requires fits { l1_index * 2 ^ (cluster_bits - 3) + l2_index < 2 ^ 64 }
        ensures value { result.0 ≡ l1_index * 2 ^ (cluster_bits - 3) + l2_index }
        ensures own_indices { (g : GuestCluster) →
            l1_index ≡ g.0 / 2 ^ (cluster_bits - 3) →
            l2_index ≡ g.0 % 2 ^ (cluster_bits - 3) → result ≡ g }
    {
        GuestCluster(((l1_index as u64) << (cluster_bits - 3)) + l2_index as u64)
    }

    /// Returns the next cluster, or `None` if that is in another L2 table.
    #[inline]
    #[tactic(auto, using(crate::proofs::TypesLemmas::next_fits))]
    pub fn next_in_l2(self, cluster_bits: u32) -> Option<GuestCluster>
        requires { IsClusterBits cluster_bits }
        ensures { result ≡ (if nat_lt (self.0 % 2 ^ (cluster_bits - 3) + 1) (2 ^ (cluster_bits - 3))
            then Some (record { 0 = self.0 + 1 }) else None) }
    {
        if self.l2_index(cluster_bits) + 1 < 1 << (cluster_bits - 3) {
            Some(GuestCluster(self.0 + 1))
        } else {
            None
        }
    }

    /// Returns the first cluster of the next L2 table.
    #[inline]
    pub fn first_in_next_l2(self, cluster_bits: u32) -> GuestCluster
        requires bits { IsClusterBits cluster_bits }
        requires fits { (self.0 / 2 ^ (cluster_bits - 3) + 1) * 2 ^ (cluster_bits - 3) < 2 ^ 64 }
        ensures { result.0 ≡ (self.0 / 2 ^ (cluster_bits - 3) + 1) * 2 ^ (cluster_bits - 3) }
    {
        GuestCluster(((self.0 >> (cluster_bits - 3)) + 1) << (cluster_bits - 3))
    }
}

/// Returns the cluster that many clusters after this one.
impl Add<ClusterCount> for GuestCluster {
    type Output = GuestCluster;

    ghost can_add = { λ cluster count. cluster.0 + count.0 < 2 ^ 64 };

    ghost add_gives = { λ cluster count sum. sum.0 ≡ cluster.0 + count.0 };

    #[inline]
    fn add(self, rhs: ClusterCount) -> GuestCluster {
        GuestCluster(self.0 + rhs.0)
    }
}

/// Moves forward by that many clusters.
impl AddAssign<ClusterCount> for GuestCluster {
    ghost can_add_assign = { λ cluster count. cluster.0 + count.0 < 2 ^ 64 };

    ghost add_assign_gives = { λ old count new. new.0 ≡ old.0 + count.0 };

    #[inline]
    fn add_assign(&mut self, rhs: ClusterCount) {
        self.0 += rhs.0;
    }
}

/// Returns the cluster that many clusters before this one.
impl Sub<ClusterCount> for GuestCluster {
    type Output = GuestCluster;

    ghost can_sub = { λ cluster count. count.0 ≤ cluster.0 };

    ghost sub_gives = { λ cluster count difference. difference.0 ≡ cluster.0 - count.0 };

    #[inline]
    fn sub(self, rhs: ClusterCount) -> GuestCluster {
        GuestCluster(self.0 - rhs.0)
    }
}

/// Moves back by that many clusters.
impl SubAssign<ClusterCount> for GuestCluster {
    ghost can_sub_assign = { λ cluster count. count.0 ≤ cluster.0 };

    ghost sub_assign_gives = { λ old count new. new.0 ≡ old.0 - count.0 };

    #[inline]
    fn sub_assign(&mut self, rhs: ClusterCount) {
        self.0 -= rhs.0;
    }
}

/// Returns the number of clusters from the other cluster to this one.
impl Sub<GuestCluster> for GuestCluster {
    type Output = ClusterCount;

    ghost can_sub = { λ end start. start.0 ≤ end.0 };

    ghost sub_gives = { λ end start count. count.0 ≡ end.0 - start.0 };

    #[inline]
    fn sub(self, rhs: GuestCluster) -> ClusterCount {
        ClusterCount(self.0 - rhs.0)
    }
}
