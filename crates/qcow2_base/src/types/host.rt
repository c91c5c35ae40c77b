//! Offsets and clusters of the image, or of its external data file.

ghost use Rattle.std.specs.Prelude.{◌≡◌, ◌+◌, ◌-◌, ◌*◌, ◌/◌, ◌%◌, ◌^◌, ◌<◌, ◌≤◌, ◌++◌, Some, None, if◌then◌else◌, ◌==◌, false, codes};
ghost use Rattle.std.specs.Fmt.{digits};
ghost use Rattle.qcow2_base.specs.Types.{IsClusterBits, IsRefblockBits};
ghost use Rattle.qcow2_base.specs.declared.types.HostCluster.{HostCluster};

use super::{ClusterCount, GuestOffset, HostCluster, HostOffset};
use std::fmt;
use std::ops::{Add, AddAssign, Sub, SubAssign};

impl HostOffset {
    /// Returns the offset within the cluster, in bytes.
    #[inline]
    pub fn in_cluster_offset(self, cluster_bits: u32) -> u64
        requires { IsClusterBits cluster_bits }
        ensures { result ≡ self.0 % 2 ^ cluster_bits }
    {
        self.0 % (1 << cluster_bits)
    }

    /// Returns the cluster of the offset.
    #[inline]
    pub fn cluster(self, cluster_bits: u32) -> HostCluster
        requires { IsClusterBits cluster_bits }
        ensures { result.0 ≡ self.0 / 2 ^ cluster_bits }
    {
        HostCluster(self.0 >> cluster_bits)
    }

    /// Returns the cluster that begins at the offset, or `None` within a cluster. The offset of a cluster
    /// gives that cluster.
    #[inline]
    #[tactic(auto, using(crate::proofs::TypesLemmas::multiple_quotient))]
    pub fn checked_cluster(self, cluster_bits: u32) -> Option<HostCluster>
        requires { IsClusterBits cluster_bits }
        ensures value { result ≡ (if self.0 % 2 ^ cluster_bits == 0
            then Some (record { 0 = self.0 / 2 ^ cluster_bits }) else None) }
        ensures own_offset { (c : HostCluster) →
            self.0 ≡ c.0 * 2 ^ cluster_bits → result ≡ Some c }
    {
        (self.in_cluster_offset(cluster_bits) == 0).then_some(self.cluster(cluster_bits))
    }
}

/// Returns the offset that many bytes after this one.
impl Add<u64> for HostOffset {
    type Output = HostOffset;

    ghost can_add = { λ offset bytes. offset.0 + bytes < 2 ^ 64 };

    ghost add_gives = { λ offset bytes sum. sum.0 ≡ offset.0 + bytes };

    #[inline]
    fn add(self, rhs: u64) -> HostOffset {
        HostOffset(self.0 + rhs)
    }
}

/// Returns the offset that many bytes before this one.
impl Sub<u64> for HostOffset {
    type Output = HostOffset;

    ghost can_sub = { λ offset bytes. bytes ≤ offset.0 };

    ghost sub_gives = { λ offset bytes difference. difference.0 ≡ offset.0 - bytes };

    #[inline]
    fn sub(self, rhs: u64) -> HostOffset {
        HostOffset(self.0 - rhs)
    }
}

/// Returns the number of bytes from the other offset to this one.
impl Sub<HostOffset> for HostOffset {
    type Output = u64;

    ghost can_sub = { λ end start. start.0 ≤ end.0 };

    ghost sub_gives = { λ end start bytes. bytes ≡ end.0 - start.0 };

    #[inline]
    fn sub(self, rhs: HostOffset) -> u64 {
        self.0 - rhs.0
    }
}

/// Prints `0x` and lower-case hexadecimal digits, without leading zeros.
impl fmt::Display for HostOffset {
    ghost output = { λ offset. Some (codes "0x" ++ digits 16 false offset.0) };

    fn fmt<W: fmt::Write>(&self, f: &mut fmt::Formatter<W>) -> fmt::Result {
        write!(f, "0x{:x}", self.0)
    }
}

impl HostCluster {
    /// Returns the offset of the cluster's first byte.
    #[inline]
    pub fn offset(self, cluster_bits: u32) -> HostOffset
        requires bits { IsClusterBits cluster_bits }
        requires fits { self.0 * 2 ^ cluster_bits < 2 ^ 64 }
        ensures { result.0 ≡ self.0 * 2 ^ cluster_bits }
    {
        HostOffset(self.0 << cluster_bits)
    }

    /// Returns the index of the cluster's refcount in its refcount block.
    #[inline]
    pub fn rb_index(self, rb_bits: u32) -> usize
        requires { IsRefblockBits rb_bits }
        ensures { result ≡ self.0 % 2 ^ rb_bits }
    {
        (self.0 % (1 << rb_bits)) as usize
    }

    /// Returns the index of the cluster's refcount block in the refcount table.
    #[inline]
    pub fn rt_index(self, rb_bits: u32) -> usize
        requires { IsRefblockBits rb_bits }
        ensures { result ≡ self.0 / 2 ^ rb_bits }
    {
        (self.0 >> rb_bits) as usize
    }

    /// Returns both indices: in the refcount table, then in the block.
    #[inline]
    pub fn rt_rb_indices(self, rb_bits: u32) -> (usize, usize)
        requires { IsRefblockBits rb_bits }
        ensures rt { result.0 ≡ self.0 / 2 ^ rb_bits }
        ensures rb { result.1 ≡ self.0 % 2 ^ rb_bits }
    {
        (self.rt_index(rb_bits), self.rb_index(rb_bits))
    }

    /// Returns the cluster whose refcount has these indices. The indices of a cluster give that cluster.
    #[inline]
    #[tactic(auto, using(crate::proofs::TypesLemmas::from_parts))]
    pub fn from_ref_indices(rt_index: usize, rb_index: usize, rb_bits: u32) -> HostCluster
        requires bits { IsRefblockBits rb_bits }
        requires fits { rt_index * 2 ^ rb_bits + rb_index < 2 ^ 64 }
        ensures value { result.0 ≡ rt_index * 2 ^ rb_bits + rb_index }
        ensures own_indices { (c : HostCluster) →
            rt_index ≡ c.0 / 2 ^ rb_bits → rb_index ≡ c.0 % 2 ^ rb_bits → result ≡ c }
    {
        HostCluster(((rt_index as u64) << rb_bits) + rb_index as u64)
    }

    /// Returns the host offset of a guest byte whose cluster is mapped to this one.
    #[inline]
    pub fn relative_offset(self, guest_offset: GuestOffset, cluster_bits: u32) -> HostOffset
        requires bits { IsClusterBits cluster_bits }
        requires fits { self.0 * 2 ^ cluster_bits + guest_offset.0 % 2 ^ cluster_bits < 2 ^ 64 }
        ensures { result.0 ≡ self.0 * 2 ^ cluster_bits + guest_offset.0 % 2 ^ cluster_bits }
    {
        self.offset(cluster_bits) + guest_offset.in_cluster_offset(cluster_bits)
    }
}

/// Returns the cluster that many clusters after this one.
impl Add<ClusterCount> for HostCluster {
    type Output = HostCluster;

    ghost can_add = { λ cluster count. cluster.0 + count.0 < 2 ^ 64 };

    ghost add_gives = { λ cluster count sum. sum.0 ≡ cluster.0 + count.0 };

    #[inline]
    fn add(self, rhs: ClusterCount) -> HostCluster {
        HostCluster(self.0 + rhs.0)
    }
}

/// Moves forward by that many clusters.
impl AddAssign<ClusterCount> for HostCluster {
    ghost can_add_assign = { λ cluster count. cluster.0 + count.0 < 2 ^ 64 };

    ghost add_assign_gives = { λ old count new. new.0 ≡ old.0 + count.0 };

    #[inline]
    fn add_assign(&mut self, rhs: ClusterCount) {
        self.0 += rhs.0;
    }
}

/// Returns the cluster that many clusters before this one.
impl Sub<ClusterCount> for HostCluster {
    type Output = HostCluster;

    ghost can_sub = { λ cluster count. count.0 ≤ cluster.0 };

    ghost sub_gives = { λ cluster count difference. difference.0 ≡ cluster.0 - count.0 };

    #[inline]
    fn sub(self, rhs: ClusterCount) -> HostCluster {
        HostCluster(self.0 - rhs.0)
    }
}

/// Moves back by that many clusters.
impl SubAssign<ClusterCount> for HostCluster {
    ghost can_sub_assign = { λ cluster count. count.0 ≤ cluster.0 };

    ghost sub_assign_gives = { λ old count new. new.0 ≡ old.0 - count.0 };

    #[inline]
    fn sub_assign(&mut self, rhs: ClusterCount) {
        self.0 -= rhs.0;
    }
}

/// Returns the number of clusters from the other cluster to this one.
impl Sub<HostCluster> for HostCluster {
    type Output = ClusterCount;

    ghost can_sub = { λ end start. start.0 ≤ end.0 };

    ghost sub_gives = { λ end start count. count.0 ≡ end.0 - start.0 };

    #[inline]
    fn sub(self, rhs: HostCluster) -> ClusterCount {
        ClusterCount(self.0 - rhs.0)
    }
}
