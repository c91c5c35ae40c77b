//! L1 and L2 entries whose copied flag contradicts their cluster's refcount.

ghost use Rattle.std.specs.Prelude.{◌≡◌, ℕ, ◌%◌, ◌+◌, ◌*◌, ◌/◌, ◌^◌, ◌<◌, ◌≤◌, false, true, IsTrue, IfErr, IfOk, IfSome, Ok, length, slice_index};
ghost use Rattle.qcow2_base.specs.Format.{most_l1_entries};
ghost use Rattle.qcow2_base.specs.Storage.{OnImage, OnlyReads};
ghost use Rattle.qcow2_base.specs.Types.{IsClusterBits};
ghost use Rattle.qcow2_metadata.specs.Header.{geometry};
ghost use Rattle.qcow2_metadata.specs.Results.{IsFromOutside, Reads};
ghost use Rattle.qcow2_metadata.specs.Table.{l2_entries};
ghost use Rattle.qcow2_check.specs.Counters.{IsKeptBlockOf, IsSameButBlock, counter_of};
ghost use Rattle.qcow2_check.specs.Flags.{HasNoFlag, TakesFlag, data_counter, flagged_cluster, l2_flag, l2_flags_from, wrong_flag};
ghost use Rattle.qcow2_check.specs.Soles.{AreSoles};

mod marks;

use crate::counters::Counters;
use crate::groups::TOGETHER;
use crate::named_tables::{load_l2_table, named_cluster};
use crate::repeats::Repeats;
use crate::soles::Soles;
pub(crate) use marks::Marks;
use marks::starts_right;
use qcow2_base::{Fault, GuestCluster, GuestOffset, HostCluster, Storage};
use qcow2_metadata::{Header, L1Table, L2Entry, L2Table, Table, TableEntry};
use std::marker::Model;

/// The entry that has a copied flag.
#[derive(Clone, Copy, Debug, PartialEq, Eq)]
pub enum FlagPlace {
    /// The L1 entry at an index.
    L1Index(usize),
    /// The L2 entry of the guest cluster at an offset.
    Offset(GuestOffset),
}

/// A wrong copied flag. If it is set, the cluster's refcount isn't 1: a program that writes there in place
/// destroys data that others refer to. If it isn't set, the refcount is 1 or the cluster has none: this only
/// costs a copy.
#[derive(Clone, Copy, Debug, PartialEq, Eq)]
pub struct WrongFlag {
    pub place: FlagPlace,
    /// The cluster that the entry names.
    pub cluster: HostCluster,
    /// The refcount of the cluster. `None` in an external data file, whose clusters have no refcounts.
    pub counter: Option<u64>,
    pub is_set: bool,
}

/// A reader of an image's wrong copied flags, one after another: in the order of L1 entries, each followed by
/// the flags of its L2 table, unless an entry before it names that table too. It holds the L1 table, the
/// refcount table, a refcount block, an L2 table, and what is known of flags before each is tested. Contracts
/// see these and the entry that the reader has reached.
#[derive(Drop)]
pub struct Flags<'a> {
    header: &'a Header,
    l1_table: L1Table,
    repeats: Repeats,
    counters: Counters<'a>,
    marks: Marks,
    index: usize,
    table: Option<L2Table>,
    position: usize,
}

impl<'a> Model for Flags<'a> {
    ghost use Rattle.std.specs.Prelude.{◌≡◌, ◌<◌, ◌≤◌, IfSome, length};
    ghost use Rattle.qcow2_base.specs.Format.{most_l1_entries};
    ghost use Rattle.qcow2_metadata.specs.Header.{geometry_of};
    ghost use Rattle.qcow2_metadata.specs.Table.{l2_entries};
    ghost use Rattle.qcow2_check.specs.Flags.{FlagsState};
    ghost use Rattle.qcow2_check.specs.Repeats.{AreTimesOf, table_names};

    ghost Value = { FlagsState };

    ghost view = { λ f. record {
      header = f.header.now;
      l1 = f.l1_table.numbers;
      counters = f.counters;
      marks = f.marks;
      index = f.index;
      table = f.table;
      position = f.position;
    } };

    ghost invariant = { λ f. (f.l1_table.geometry ≡ geometry_of f.header.now)
        × (length f.l1_table.numbers ≤ most_l1_entries)
        × AreTimesOf (table_names f.l1_table.numbers) f.repeats
        × (f.counters.header ≡ f.header.now)
        × (f.index ≤ length f.l1_table.numbers)
        × IfSome f.table (λ table. (table.geometry ≡ geometry_of f.header.now)
        × (length table.numbers ≡ l2_entries table.geometry.cluster_bits)
        × (f.index < length f.l1_table.numbers)) };
}

// The copied flag of the entry at a place, if it contradicts the refcount of the cluster that the entry
// names.
#[inline]
fn wrong_flag(
    place: FlagPlace,
    cluster: HostCluster,
    counter: Option<u64>,
    is_set: bool,
) -> Option<WrongFlag>
    ensures { result ≡ wrong_flag place cluster counter is_set }
{
    let is_sole = match counter {
        Some(counter) => counter == 1,
        None => true,
    };
    (is_set != is_sole).then_some(WrongFlag {
        place,
        cluster,
        counter,
        is_set,
    })
}

/// The cluster that an L2 entry names, if the entry has a copied flag. `None` for a compressed entry, and for
/// one that names no cluster.
#[inline]
pub fn flagged_cluster(
    entry: L2Entry,
    cluster_bits: u32,
    external_data_file: bool,
) -> Option<HostCluster>
    requires { IsClusterBits cluster_bits }
    ensures { result ≡ flagged_cluster (geometry cluster_bits external_data_file) entry }
{
    if entry.is_compressed() {
        return None;
    }
    let offset = entry.cluster_offset(external_data_file)?;
    Some(offset.cluster(cluster_bits))
}

// The refcount of a guest data cluster. `None` in an external data file.
#[inline]
fn data_counter<S: Storage>(
    counters: &mut Counters<'_>,
    image: &mut S,
    table: &L2Table,
    cluster: HostCluster,
) -> Result<Option<u64>, Fault>
    requires reader { OnImage (S.state image.old) (λ bytes.
        IsKeptBlockOf counters.old.header bytes counters.old.block) }
    ensures reads { Reads (λ counter. counter) result
        (λ bytes. Ok (data_counter table.now.geometry
        (counter_of counters.old.header counters.old.reftable bytes) cluster))
        (λ _. ⊥) (S.state image.old) (S.state image.new) }
    ensures reader { IsSameButBlock (S.state image.old) counters.old counters.new }
{
    if table.external_data_file() {
        return Ok(None);
    }
    Ok(Some(counters.get(image, cluster)?))
}

// The copied flag of an L2 entry, if it is wrong.
#[inline]
#[tactic(auto, using(crate::proofs::FlagsLemmas::guest_offset_fits))]
fn entry_flag<S: Storage>(
    counters: &mut Counters<'_>,
    image: &mut S,
    table: &L2Table,
    l1_index: usize,
    index: usize,
) -> Result<Option<WrongFlag>, Fault>
    requires l1_index { l1_index < most_l1_entries }
    requires index { index < l2_entries table.now.geometry.cluster_bits }
    requires reader { OnImage (S.state image.old) (λ bytes.
        IsKeptBlockOf counters.old.header bytes counters.old.block) }
    ensures reads { let guest = l1_index * l2_entries table.now.geometry.cluster_bits + index in
        let v = slice_index table.now.numbers index in
        Reads (λ flag. flag) result
        (λ bytes. Ok (l2_flag table.now.geometry
        (counter_of counters.old.header counters.old.reftable bytes) guest v))
        (λ _. ⊥) (S.state image.old) (S.state image.new) }
    ensures reader { IsSameButBlock (S.state image.old) counters.old counters.new }
{
    let (cluster_bits, external) = (table.cluster_bits(), table.external_data_file());
    let entry = table.get(index);
    let Some(cluster) = flagged_cluster(entry, cluster_bits, external) else {
        return Ok(None);
    };
    let counter = data_counter(counters, image, table, cluster)?;
    let guest_cluster = GuestCluster::from_l1_l2_indices(l1_index, index, cluster_bits);
    let place = FlagPlace::Offset(guest_cluster.offset(cluster_bits));
    Ok(wrong_flag(place, cluster, counter, entry.is_copied()))
}

// The next wrong flag in an L2 table, from the entry at `position` on. Moves `position` past its entry, or to
// the table's end.
fn next_in_table<S: Storage>(
    counters: &mut Counters<'_>,
    soles: &Soles,
    image: &mut S,
    table: &L2Table,
    l1_index: usize,
    position: &mut usize,
) -> Result<Option<WrongFlag>, Fault>
    requires table { length table.now.numbers ≡ l2_entries table.now.geometry.cluster_bits }
    requires l1_index { l1_index < most_l1_entries }
    requires reader { OnImage (S.state image.old) (λ bytes.
        IsKeptBlockOf counters.old.header bytes counters.old.block) }
    requires soles { OnImage (S.state image.old) (λ bytes.
        AreSoles (counter_of counters.old.header counters.old.reftable bytes) soles.now) }
    ensures flag { OnImage (S.state image.old) (λ bytes.
        let counter = counter_of counters.old.header counters.old.reftable bytes in
        let left = l2_flags_from table.now.geometry counter l1_index table.now.numbers in
        TakesFlag (left position.old) (left position.new) result) }
    ensures reader { IsSameButBlock (S.state image.old) counters.old counters.new }
    ensures fault { IfErr result IsFromOutside }
    ensures further { (position.old ≤ position.new) × IfOk result (λ found. IfSome found (λ flag.
        (position.old < position.new) × (position.new ≤ length table.now.numbers))) }
    ensures storage { OnlyReads result (S.state image.old) (S.state image.new) }
{
    let entries = table.entries();
    while *position < entries {
        if starts_right(soles, table, *position) {
            *position += TOGETHER;
        } else {
            let found = entry_flag(counters, image, table, l1_index, *position)?;
            *position += 1;
            if found.is_some() {
                return Ok(found);
            }
        }
    }
    Ok(None)
}

impl<'a> Flags<'a> {
    ghost use Rattle.std.specs.Prelude.{◌≡◌, ◌<◌, ◌≤◌, [], None, IfErr, IsSome, length};
    ghost use Rattle.qcow2_base.specs.Format.{most_l1_entries};
    ghost use Rattle.qcow2_base.specs.Storage.{OnImage, OnlyReads};
    ghost use Rattle.qcow2_metadata.specs.Header.{geometry_of};
    ghost use Rattle.qcow2_check.specs.Findings.{IsLaterFault};
    ghost use Rattle.qcow2_check.specs.Repeats.{AreTimesOf, table_names};
    ghost use Rattle.qcow2_check.specs.Flags.{GoesFurther, IsFlagsOf, MovesFlags, PassesFlag, StepsFurther, TakesFlag, flags_left};

    /// A reader before the first wrong flag. The L1 table, its repeats, the refcounts and the marks must be
    /// those of one image with this header.
    pub(crate) fn new(
        header: &'a Header,
        l1_table: L1Table,
        repeats: Repeats,
        counters: Counters<'a>,
        marks: Marks,
    ) -> Flags<'a>
        requires geometry { l1_table.geometry ≡ geometry_of header.now }
        requires entries { length l1_table.numbers ≤ most_l1_entries }
        requires repeats { AreTimesOf (table_names l1_table.numbers) repeats }
        requires counters { counters.header ≡ header.now }
        ensures { result ≡ record {
          header = header.now;
          l1 = l1_table.numbers;
          counters = counters.entry;
          marks = marks;
          index = 0;
          table = None;
          position = 0;
        } }
    {
        Flags {
            header,
            l1_table,
            repeats,
            counters,
            marks,
            index: 0,
            table: None,
            position: 0,
        }
    }

    /// Returns the next wrong flag, or `None` after the last.
    ///
    /// Fails if the storage fails or memory runs out, and can be called again then. The image must be the one
    /// that the reader was made for, unchanged since. Changes no byte.
    pub fn next<S: Storage>(&mut self, image: &mut S) -> Result<Option<WrongFlag>, Fault>
        requires { OnImage (S.state image.old) (λ bytes. IsFlagsOf bytes self.old) }
        ensures flag { OnImage (S.state image.old) (λ bytes.
            TakesFlag (flags_left self.old bytes) (flags_left self.new bytes) result) }
        ensures further { GoesFurther result self.old self.new }
        ensures reader { MovesFlags (S.state image.old) self.old self.new }
        ensures fault { IfErr result (IsLaterFault (S.state image.old)) }
        ensures storage { OnlyReads result (S.state image.old) (S.state image.new) }
    {
        while self.index < self.l1_table.entries() {
            if let Some(flag) = self.step(image)? {
                return Ok(Some(flag));
            }
        }
        Ok(None)
    }

    /// The reader of refcounts. Frees the memory of the tables.
    pub fn into_counters(self) -> Counters<'a>
        ensures { result ≡ self.entry.counters }
    {
        self.counters
    }

    // Opens the L2 table of the reader's L1 entry, or goes on within it if it is open.
    fn step<S: Storage>(&mut self, image: &mut S) -> Result<Option<WrongFlag>, Fault>
        requires index { self.old.index < length self.old.l1 }
        requires reader { OnImage (S.state image.old) (λ bytes. IsFlagsOf bytes self.old) }
        ensures flag { OnImage (S.state image.old) (λ bytes.
            PassesFlag (flags_left self.old bytes) (flags_left self.new bytes) result) }
        ensures further { StepsFurther result self.old self.new }
        ensures reader { MovesFlags (S.state image.old) self.old self.new }
        ensures fault { IfErr result (IsLaterFault (S.state image.old)) }
        ensures storage { OnlyReads result (S.state image.old) (S.state image.new) }
    {
        if self.table.is_some() {
            self.pass_entries(image)
        } else {
            self.open_table(image)
        }
    }

    // Moves the reader past the open table's next wrong flag and returns it, or past the table if there is
    // none.
    fn pass_entries<S: Storage>(&mut self, image: &mut S) -> Result<Option<WrongFlag>, Fault>
        requires table { IsSome self.old.table }
        requires reader { OnImage (S.state image.old) (λ bytes. IsFlagsOf bytes self.old) }
        ensures flag { OnImage (S.state image.old) (λ bytes.
            PassesFlag (flags_left self.old bytes) (flags_left self.new bytes) result) }
        ensures further { StepsFurther result self.old self.new }
        ensures reader { MovesFlags (S.state image.old) self.old self.new }
        ensures fault { IfErr result IsFromOutside }
        ensures storage { OnlyReads result (S.state image.old) (S.state image.new) }
    {
        let table = self.table.as_ref().unwrap();
        let found = next_in_table(
            &mut self.counters,
            self.marks.soles(),
            image,
            table,
            self.index,
            &mut self.position,
        )?;
        if found.is_none() {
            // Free its memory before the next table takes as much.
            self.table = None;
            self.index += 1;
        }
        Ok(found)
    }

    // Opens the L2 table of the reader's L1 entry, unless an entry before it names the table too, and returns
    // the entry's own copied flag if it is wrong. Skips an entry that names no table, and one that is known
    // to be clean.
    fn open_table<S: Storage>(&mut self, image: &mut S) -> Result<Option<WrongFlag>, Fault>
        requires table { self.old.table ≡ None }
        requires index { self.old.index < length self.old.l1 }
        requires reader { OnImage (S.state image.old) (λ bytes. IsFlagsOf bytes self.old) }
        ensures flag { OnImage (S.state image.old) (λ bytes.
            PassesFlag (flags_left self.old bytes) (flags_left self.new bytes) result) }
        ensures further { StepsFurther result self.old self.new }
        ensures reader { MovesFlags (S.state image.old) self.old self.new }
        ensures fault { IfErr result (IsLaterFault (S.state image.old)) }
        ensures storage { OnlyReads result (S.state image.old) (S.state image.new) }
    {
        if self.index < self.marks.clean() {
            self.index += 1;
            return Ok(None);
        }
        let Some(cluster) = named_cluster(&self.l1_table, self.index) else {
            self.index += 1;
            return Ok(None);
        };
        let counter = self.counters.get(image, cluster)?;
        let is_set = self.l1_table.get(self.index).is_copied();
        let place = FlagPlace::L1Index(self.index);
        let flag = wrong_flag(place, cluster, Some(counter), is_set);
        if self.repeats.times(self.index) == 0 {
            self.index += 1;
            return Ok(flag);
        }
        let alloc = self.l1_table.allocator();
        self.table = Some(load_l2_table(alloc, image, self.header, cluster)?);
        self.position = 0;
        Ok(flag)
    }
}
