//! The number of guest clusters that an image's L2 entries map, and how many of them are compressed or
//! fragmented.

ghost use Rattle.std.specs.Prelude.{◌≡◌, ◌+◌, ◌<◌, ◌≤◌, ◌*◌, ◌^◌, ◌==◌, IfOk, IsOkUnless, Option, Some, None, length, not, slice_index};
ghost use Rattle.qcow2_base.specs.Storage.{OnImage};
ghost use Rattle.qcow2_base.specs.declared.fault.Fault.TheVariants.{NoMemory};
ghost use Rattle.qcow2_metadata.specs.Header.{geometry_of};
ghost use Rattle.qcow2_metadata.specs.Results.{Reads, result_map};
ghost use Rattle.qcow2_metadata.specs.Table.{IsEntryFault, IsTableFault};
ghost use Rattle.qcow2_summary.specs.EntryCounts.{counted_entries, counted_tables, is_apart, l1_entry_counts, no_entries, table_counts};
ghost use Rattle.qcow2_check.specs.NamedTables.{l1_cluster, l1_layout};
ghost use Rattle.qcow2_check.specs.Repeats.{AreTimesOf, table_names};
ghost use Rattle.qcow2_check.specs.Uses.{l1_entry_loads};

use qcow2_base::{Fault, HostCluster, Storage};
use qcow2_check::{Repeats, flagged_cluster, load_l1_table, load_l2_table, named_cluster};
use qcow2_metadata::{Header, L1Table, L2Table, Table};
use std::alloc::Global;

/// Numbers of mapped guest clusters. Those of an L2 table that two L1 entries name count twice.
#[derive(Clone, Copy, Debug, PartialEq, Eq)]
pub struct EntryCounts {
    /// Guest clusters that are mapped to a host cluster or to compressed data.
    pub allocated: u64,
    /// Those of them that are compressed.
    pub compressed: u64,
    /// Those of them that are compressed, or whose host cluster doesn't follow that of the previous standard
    /// entry with a cluster in the same table.
    pub fragmented: u64,
}

// The sum of two numbers. No image has enough entries to overflow it.
fn sum(total: u64, more: u64) -> Result<u64, Fault>
    ensures fault { IsOkUnless result NoMemory }
    ensures sum { IfOk result (λ sum. sum ≡ total + more) }
{
    total.checked_add(more).ok_or(Fault::NoMemory)
}

// A number that many times over. No image has enough entries to overflow it.
fn product(times: u32, number: u64) -> Result<u64, Fault>
    ensures fault { IsOkUnless result NoMemory }
    ensures product { IfOk result (λ product. product ≡ times * number) }
{
    u64::from(times).checked_mul(number).ok_or(Fault::NoMemory)
}

impl EntryCounts {
    // The counts of no entries.
    fn new() -> EntryCounts
        ensures { result ≡ no_entries }
    {
        EntryCounts {
            allocated: 0,
            compressed: 0,
            fragmented: 0,
        }
    }

    // The sums of these counts and others.
    fn plus(self, more: EntryCounts) -> Result<EntryCounts, Fault>
        ensures fault { IsOkUnless result NoMemory }
        ensures sums { IfOk result (λ counts. counts ≡ record {
          allocated = self.allocated + more.allocated;
          compressed = self.compressed + more.compressed;
          fragmented = self.fragmented + more.fragmented;
        }) }
    {
        Ok(EntryCounts {
            allocated: sum(self.allocated, more.allocated)?,
            compressed: sum(self.compressed, more.compressed)?,
            fragmented: sum(self.fragmented, more.fragmented)?,
        })
    }
}

// These counts that many times over.
fn counts_times(counts: EntryCounts, times: u32) -> Result<EntryCounts, Fault>
    ensures fault { IsOkUnless result NoMemory }
    ensures products { IfOk result (λ more. more ≡ record {
      allocated = times * counts.allocated;
      compressed = times * counts.compressed;
      fragmented = times * counts.fragmented;
    }) }
{
    Ok(EntryCounts {
        allocated: product(times, counts.allocated)?,
        compressed: product(times, counts.compressed)?,
        fragmented: product(times, counts.fragmented)?,
    })
}

// Whether a cluster doesn't follow the last one. False if there is no last one.
#[inline]
fn is_apart(last: Option<HostCluster>, cluster: HostCluster) -> bool
    ensures { result ≡ is_apart last cluster }
{
    match last {
        Some(last) => cluster.0 == 0 || cluster.0 - 1 != last.0,
        None => false,
    }
}

// Counts the entries of an L2 table.
fn count_table(table: &L2Table) -> EntryCounts
    ensures { result ≡ table_counts table.now.geometry table.now.numbers }
{
    let (cluster_bits, external) = (table.cluster_bits(), table.external_data_file());
    let mut counts = EntryCounts::new();
    let mut last = None;
    for index in 0..table.entries() {
        let entry = table.get(index);
        if entry.is_compressed() {
            counts.allocated += 1;
            counts.compressed += 1;
            counts.fragmented += 1;
        } else if let Some(cluster) = flagged_cluster(entry, cluster_bits, external) {
            counts.allocated += 1;
            counts.fragmented += u64::from(is_apart(last, cluster));
            last = Some(cluster);
        }
    }
    counts
}

// Loads the L2 table that an L1 entry names, and counts its entries.
fn count_l1_entry<S: Storage>(
    image: &mut S,
    header: &Header,
    l1_table: &L1Table,
    index: usize,
) -> Result<EntryCounts, Fault>
    requires { l1_table.now.geometry ≡ geometry_of header.now }
    ensures reads { let g = geometry_of header.now in
        let v = slice_index l1_table.now.numbers index in
        Reads (λ counts. counts) result
        (λ bytes. result_map (λ _. l1_entry_counts g bytes v) (l1_entry_loads g bytes v)) IsEntryFault
        (S.state image.old) (S.state image.new) }
{
    let Some(cluster) = named_cluster(l1_table, index) else {
        return Ok(EntryCounts::new());
    };
    let table = load_l2_table(l1_table.allocator(), image, header, cluster)?;
    Ok(count_table(&table))
}

// Counts the entries of all L2 tables that an L1 table with these repeats names. Reads each table once.
fn count_tables<S: Storage>(
    image: &mut S,
    header: &Header,
    l1_table: &L1Table,
    repeats: &Repeats,
) -> Result<EntryCounts, Fault>
    requires geometry { l1_table.now.geometry ≡ geometry_of header.now }
    requires repeats { AreTimesOf (table_names l1_table.now.numbers) repeats.now }
    ensures { Reads (λ counts. counts) result (counted_tables (geometry_of header.now) l1_table.now.numbers)
        IsEntryFault (S.state image.old) (S.state image.new) }
{
    let mut counts = EntryCounts::new();
    for index in 0..l1_table.entries() {
        let times = repeats.times(index);
        if times > 0 {
            let more = count_l1_entry(image, header, l1_table, index)?;
            counts = counts.plus(counts_times(more, times)?)?;
        }
    }
    Ok(counts)
}

/// Counts the entries of all L2 tables of an image with this header, each table once for every L1 entry that
/// names it.
///
/// Returns the fault of the L1 table, or else of the first L2 table that is refused. Changes no byte.
pub fn count_entries<S: Storage>(
    alloc: Global,
    image: &mut S,
    header: &Header,
) -> Result<EntryCounts, Fault>
    ensures { Reads (λ counts. counts) result (counted_entries header.now)
        (IsTableFault (l1_layout header.now) (l1_cluster header.now))
        (S.state image.old) (S.state image.new) }
{
    let l1_table = load_l1_table(alloc, image, header)?;
    let repeats = Repeats::new(alloc, &l1_table)?;
    count_tables(image, header, &l1_table, &repeats)
}
