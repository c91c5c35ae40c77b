//! Types for offsets, clusters and counts, and conversions between them.
//!
//! A cluster has `2^cluster_bits` bytes, and an L2 table an eighth as many entries, one for each guest
//! cluster. A refcount block has `2^rb_bits` refcounts, one for each host cluster. Each call requires
//! `cluster_bits` from 9 to 21, or `rb_bits` from 6 to 24, and a result that fits.

ghost use Rattle.std.specs.Prelude.{◌≡◌, ◌+◌, ◌-◌, ◌*◌, ◌/◌, ◌%◌, ◌^◌, ◌<◌, ◌≤◌, Some, None, if◌then◌else◌, ◌==◌};
ghost use Rattle.std.specs.Fmt.{decimal};
ghost use Rattle.std.specs.Int.{div_ceil};
ghost use Rattle.qcow2_base.specs.Types.{IsClusterBits};

mod guest;
mod host;

use std::fmt;
use std::ops::{Add, AddAssign, Sub, SubAssign};

/// The offset of a byte on the guest's disk.
#[derive(Clone, Copy, Debug, PartialEq, Eq, PartialOrd, Ord, Hash)]
pub struct GuestOffset(pub u64);

/// The number of a cluster on the guest's disk.
#[derive(Clone, Copy, Debug, PartialEq, Eq, PartialOrd, Ord, Hash)]
pub struct GuestCluster(pub u64);

/// The offset of a byte in the image or in its external data file.
#[derive(Clone, Copy, Debug, PartialEq, Eq, PartialOrd, Ord, Hash)]
pub struct HostOffset(pub u64);

/// The number of a cluster in the image or in its external data file.
#[derive(Clone, Copy, Debug, PartialEq, Eq, PartialOrd, Ord, Hash)]
pub struct HostCluster(pub u64);

/// A number of clusters.
#[derive(Clone, Copy, Debug, PartialEq, Eq, PartialOrd, Ord)]
pub struct ClusterCount(pub u64);

impl ClusterCount {
    /// Returns the number of clusters that `size` bytes take, rounded up.
    #[inline]
    pub fn from_byte_size(size: u64, cluster_bits: u32) -> ClusterCount
        requires { IsClusterBits cluster_bits }
        ensures { result.0 ≡ div_ceil size (2 ^ cluster_bits) }
    {
        ClusterCount(size.div_ceil(1 << cluster_bits))
    }

    /// Returns the number of clusters of `size` bytes, or `None` if the last one is partial.
    #[inline]
    pub fn checked_from_byte_size(size: u64, cluster_bits: u32) -> Option<ClusterCount>
        requires { IsClusterBits cluster_bits }
        ensures { result ≡ (if size % 2 ^ cluster_bits == 0
            then Some (record { 0 = size / 2 ^ cluster_bits }) else None) }
    {
        (size % (1 << cluster_bits) == 0).then_some(ClusterCount(size >> cluster_bits))
    }

    /// Returns the size of these clusters in bytes.
    #[inline]
    pub fn byte_size(self, cluster_bits: u32) -> u64
        requires bits { IsClusterBits cluster_bits }
        requires fits { self.0 * 2 ^ cluster_bits < 2 ^ 64 }
        ensures { result ≡ self.0 * 2 ^ cluster_bits }
    {
        self.0 << cluster_bits
    }
}

impl Add<ClusterCount> for ClusterCount {
    type Output = ClusterCount;

    ghost can_add = { λ count more. count.0 + more.0 < 2 ^ 64 };

    ghost add_gives = { λ count more sum. sum.0 ≡ count.0 + more.0 };

    #[inline]
    fn add(self, rhs: ClusterCount) -> ClusterCount {
        ClusterCount(self.0 + rhs.0)
    }
}

impl AddAssign<ClusterCount> for ClusterCount {
    ghost can_add_assign = { λ count more. count.0 + more.0 < 2 ^ 64 };

    ghost add_assign_gives = { λ old more new. new.0 ≡ old.0 + more.0 };

    #[inline]
    fn add_assign(&mut self, rhs: ClusterCount) {
        self.0 += rhs.0;
    }
}

impl Sub<ClusterCount> for ClusterCount {
    type Output = ClusterCount;

    ghost can_sub = { λ count less. less.0 ≤ count.0 };

    ghost sub_gives = { λ count less difference. difference.0 ≡ count.0 - less.0 };

    #[inline]
    fn sub(self, rhs: ClusterCount) -> ClusterCount {
        ClusterCount(self.0 - rhs.0)
    }
}

impl SubAssign<ClusterCount> for ClusterCount {
    ghost can_sub_assign = { λ count less. less.0 ≤ count.0 };

    ghost sub_assign_gives = { λ old less new. new.0 ≡ old.0 - less.0 };

    #[inline]
    fn sub_assign(&mut self, rhs: ClusterCount) {
        self.0 -= rhs.0;
    }
}

/// Prints decimal digits.
impl fmt::Display for ClusterCount {
    ghost output = { λ count. Some (decimal count.0) };

    fn fmt<W: fmt::Write>(&self, f: &mut fmt::Formatter<W>) -> fmt::Result {
        write!(f, "{}", self.0)
    }
}
