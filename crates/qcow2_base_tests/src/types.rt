//! Conversions, operators and texts of offsets, clusters and counts.

use qcow2_base::{ClusterCount, GuestCluster, GuestOffset, HostCluster, HostOffset};
use qcow2_testing::{all_same, same_text};
use std::test::Fail;

/// The largest offset of all.
const LAST: u64 = u64::MAX;

#[test]
fn an_offset_has_its_place_in_a_cluster_and_in_the_tables() -> Result<(), Fail> {
    let (guest, host, second) = (GuestOffset(LAST), HostOffset(LAST), GuestOffset(0x20000000));
    all_same! {
        "the last offset",
        guest.in_cluster_offset(9) => 511, guest.cluster(9).0 => 36028797018963967,
        host.in_cluster_offset(9) => 511, host.cluster(9).0 => 36028797018963967,
        guest.l1_index(9) => 562949953421311, guest.l2_index(9) => 63,
        guest.remaining_in_cluster(9) => 1, guest.remaining_in_l2_table(9) => 1,
    }?;
    all_same! {
        "the first offset of the second L2 table",
        second.l1_index(16) => 1, second.l2_index(16) => 0, second.remaining_in_l2_table(16) => 536870912,
    }
}

#[test]
fn only_a_cluster_s_start_is_a_checked_cluster_or_count() -> Result<(), Fail> {
    all_same! {
        "clusters",
        GuestOffset(1024).checked_cluster(9) => Some(GuestCluster(2)),
        GuestOffset(1543).checked_cluster(9) => None,
        HostOffset(1024).checked_cluster(9) => Some(HostCluster(2)),
        HostOffset(1543).checked_cluster(9) => None,
    }?;
    all_same! {
        "counts",
        ClusterCount::from_byte_size(0, 9).0 => 0, ClusterCount::from_byte_size(513, 9).0 => 2,
        ClusterCount::from_byte_size(LAST, 9).0 => 36028797018963968,
        ClusterCount::checked_from_byte_size(513, 9) => None,
        ClusterCount::checked_from_byte_size(1024, 9) => Some(ClusterCount(2)),
    }
}

#[test]
fn a_cluster_and_its_places_tell_each_other() -> Result<(), Fail> {
    let (guest, host) = (GuestCluster(127), HostCluster(511));
    all_same! {
        "the last cluster of the second L2 table",
        guest.l1_index(9) => 1, guest.l2_index(9) => 63, guest.first_in_next_l2(9).0 => 128,
        GuestCluster::from_l1_l2_indices(1, 63, 9) => guest,
        GuestCluster(62).next_in_l2(9) => Some(GuestCluster(63)), GuestCluster(63).next_in_l2(9) => None,
    }?;
    all_same! {
        "the last cluster of the second refcount block",
        host.rt_index(8) => 1, host.rb_index(8) => 255, host.rt_rb_indices(8) => (1, 255),
        HostCluster::from_ref_indices(1, 255, 8) => host,
    }
}

#[test]
fn a_cluster_begins_at_its_offset_and_a_mapped_byte_keeps_its_place() -> Result<(), Fail> {
    all_same! {
        "cluster 5",
        GuestCluster(5).offset(9).0 => 2560, HostCluster(5).offset(9).0 => 2560,
        ClusterCount(5).byte_size(9) => 2560,
        HostCluster(5).relative_offset(GuestOffset(1543), 9).0 => 2567,
        HostCluster(36028797018963967).relative_offset(GuestOffset(LAST), 9).0 => LAST,
    }
}

#[test]
fn a_sum_is_so_much_further_on_and_a_difference_so_much_before() -> Result<(), Fail> {
    let count = ClusterCount(5);
    all_same! {
        "sums and differences",
        GuestOffset(LAST - 5) + 5 => GuestOffset(LAST), GuestOffset(LAST) - 5 => GuestOffset(LAST - 5),
        HostOffset(LAST - 5) + 5 => HostOffset(LAST), HostOffset(LAST) - 5 => HostOffset(LAST - 5),
        GuestCluster(3) + count => GuestCluster(8), GuestCluster(8) - count => GuestCluster(3),
        HostCluster(3) + count => HostCluster(8), HostCluster(8) - count => HostCluster(3),
        ClusterCount(3) + count => ClusterCount(8), ClusterCount(8) - count => ClusterCount(3),
    }?;
    all_same! {
        "distances",
        GuestOffset(LAST) - GuestOffset(7) => LAST - 7, HostOffset(LAST) - HostOffset(7) => LAST - 7,
        GuestCluster(8) - GuestCluster(3) => count, HostCluster(8) - HostCluster(3) => count,
    }
}

#[test]
fn clusters_and_counts_move_in_place() -> Result<(), Fail> {
    let (mut guest, mut host, mut count) = (GuestCluster(3), HostCluster(3), ClusterCount(3));
    guest += ClusterCount(5);
    host += ClusterCount(5);
    count += ClusterCount(5);
    all_same! { "on", guest => GuestCluster(8), host => HostCluster(8), count => ClusterCount(8) }?;
    guest -= ClusterCount(7);
    host -= ClusterCount(7);
    count -= ClusterCount(7);
    all_same! { "back", guest => GuestCluster(1), host => HostCluster(1), count => ClusterCount(1) }
}

#[test]
fn offsets_print_in_hexadecimal_and_counts_in_decimal(rt: HostRuntime) -> Result<(), Fail> {
    same_text(rt.alloc(), GuestOffset(2567), "0xa07")?;
    same_text(rt.alloc(), HostOffset(2567), "0xa07")?;
    same_text(rt.alloc(), HostOffset(LAST), "0xffffffffffffffff")?;
    same_text(rt.alloc(), ClusterCount(LAST), "18446744073709551615")
}

#[test]
fn places_and_counts_are_ordered_by_number() -> Result<(), Fail> {
    all_same! {
        "255 and 256",
        GuestOffset(255) < GuestOffset(256) => true, HostOffset(255) < HostOffset(256) => true,
        GuestCluster(255) < GuestCluster(256) => true, HostCluster(255) < HostCluster(256) => true,
        ClusterCount(255) < ClusterCount(256) => true,
    }
}
