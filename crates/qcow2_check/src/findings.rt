//! Clusters whose refcount isn't their number of references, or whose references exclude each other.

ghost use Rattle.std.specs.Prelude.{◌≡◌, ◌↔◌, ℕ, ◌+◌, ◌/◌, ◌^◌, ◌<◌, ◌≤◌, IfErr, IfOk, IfSome, IsTrue, None, false, length, slice_index};
ghost use Rattle.qcow2_base.specs.Format.{max_file_length};
ghost use Rattle.qcow2_base.specs.Storage.{OnImage, OnlyReads};
ghost use Rattle.qcow2_metadata.specs.Header.{geometry_of};
ghost use Rattle.qcow2_metadata.specs.Results.{IsFromOutside, Reads};
ghost use Rattle.qcow2_metadata.specs.Table.{IsEntryFault};
ghost use Rattle.qcow2_check.specs.Findings.{CountsAll, is_leaked, is_missing, is_sought, is_wrong};
ghost use Rattle.qcow2_check.specs.Tally.{cell_at, is_shared_cell};
ghost use Rattle.qcow2_check.specs.Uses.{all_load, image_tables};

use crate::counters::Counters;
use crate::file_end::file_clusters;
use crate::flags::{Flags, Marks};
use crate::image_tables::{ImageTables, OpenTables, open_tables};
use crate::repeats::Repeats;
use crate::soles::Soles;
use crate::tally::{Tally, count_of, is_shared};
use crate::windows::Windows;
use qcow2_base::{ClusterCount, Device, Fault, HostCluster, MAX_FILE_LENGTH, Storage};
use qcow2_metadata::{Header, L1Table, RefBlock, RefTable, Table};
use std::alloc::Global;
use std::marker::Model;

// The number of clusters that are compared as one group.
const TOGETHER: usize = 64;

/// A host cluster whose refcount isn't its number of references, or whose references exclude each other. Or
/// one that begins past the end of the image's file, and has references.
#[derive(Clone, Copy, Debug, PartialEq, Eq)]
pub struct Finding {
    pub cluster: HostCluster,
    /// Its refcount: 0 if no refcount block counts it.
    pub counter: u64,
    /// The number of references to it.
    pub uses: u64,
    /// Whether its references exclude each other.
    pub shared: bool,
}

/// The clusters that a reader of findings returns.
#[derive(Clone, Copy, Debug)]
pub enum Sought {
    /// Those whose refcount isn't their number of references, or whose references exclude each other.
    Wrong,
    /// Those that have references.
    Used,
}

impl Finding {
    // Whether a reader of such clusters returns this one.
    #[inline]
    fn is_sought(&self, sought: Sought) -> bool
        ensures { result ≡ is_sought sought self.now }
    {
        match sought {
            Sought::Wrong => self.is_wrong(),
            Sought::Used => self.uses > 0,
        }
    }

    // Whether the refcount is wrong or the references exclude each other.
    #[inline]
    fn is_wrong(&self) -> bool
        ensures { result ≡ is_wrong self.now }
    {
        self.counter != self.uses || self.shared
    }

    /// Whether the refcount is greater than the number of references.
    pub fn is_leaked(&self) -> bool
        ensures { result ≡ is_leaked self.now }
    {
        self.uses < self.counter
    }

    /// Whether the refcount is smaller than the number of references.
    pub fn is_missing(&self) -> bool
        ensures { result ≡ is_missing self.now }
    {
        self.counter < self.uses
    }
}

/// A reader of an image's findings, one after another. It holds the L1 table, the refcount table, a refcount
/// block, the reference counts of some of the image's clusters, and what their count found out about copied
/// flags. Contracts see these, the cluster that the reader has reached, and which clusters it returns.
#[derive(Drop)]
pub struct Findings<'a> {
    header: &'a Header,
    l1_table: L1Table,
    repeats: Repeats,
    counters: Counters<'a>,
    tally: Option<Tally>,
    marks: Marks,
    position: u64,
    sought: Sought,
    windows: Windows,
}

impl<'a> Model for Findings<'a> {
    ghost use Rattle.std.specs.Prelude.{◌≡◌, ◌<◌, ◌≤◌, false, IfSome, None, Some, length};
    ghost use Rattle.qcow2_base.specs.Format.{max_file_length, most_l1_entries};
    ghost use Rattle.qcow2_metadata.specs.Header.{geometry_of};
    ghost use Rattle.qcow2_metadata.specs.Placed.{place_fault};
    ghost use Rattle.qcow2_check.specs.Findings.{FindingsState};
    ghost use Rattle.qcow2_check.specs.NamedTables.{l1_cluster, l1_layout};
    ghost use Rattle.qcow2_check.specs.Repeats.{AreTimesOf, table_names};

    ghost Value = { FindingsState };

    ghost view = { λ f. record {
      header = f.header.now;
      l1 = f.l1_table.numbers;
      counters = f.counters;
      tally = f.tally;
      marks = f.marks;
      position = f.position;
      sought = f.sought;
    } };

    ghost invariant = { λ f. (f.l1_table.geometry ≡ geometry_of f.header.now)
        × (length f.l1_table.numbers ≤ most_l1_entries)
        × (length f.l1_table.numbers ≡ f.header.now.v2.l1_size)
        × AreTimesOf (table_names f.l1_table.numbers) f.repeats
        × (f.l1_table.cluster ≡ Some (l1_cluster f.header.now))
        × (f.l1_table.modified ≡ false)
        × (place_fault (l1_layout f.header.now) (l1_cluster f.header.now) ≡ None)
        × (f.counters.header ≡ f.header.now)
        × (f.position ≤ max_file_length)
        × IfSome f.tally (λ tally. (tally.first ≤ f.position) × (f.position ≤ tally.end)
        × (tally.end ≤ max_file_length)) };
}

// `TOGETHER` refcounts of a block, from an index on.
fn counters_from(block: &RefBlock, index: usize) -> [u64; TOGETHER]
    requires { index + 64 ≤ length block.now.numbers }
    ensures { (k : ℕ) → k < 64 → slice_index result k ≡ slice_index block.now.numbers (index + k) }
{
    prove!(index < block.entries());
    let mut counters = [0; TOGETHER];
    for k in 0..TOGETHER {
        counters[k] = block.get(index + k);
    }
    counters
}

// Returns a number of clusters from `first` on, at most `count`, that are right, all referenced by guest data
// alone or not at all. Their refcounts begin at `index` of the block. Counts whole groups of `TOGETHER`, so
// more may be right.
#[tactic(auto, using(crate::proofs::FindingsLemmas::plain_is_right))]
fn plain_clusters(block: &RefBlock, tally: &Tally, first: u64, index: usize, count: usize) -> usize
    requires first { tally.now.first ≤ first }
    requires fits { first + count < 2 ^ 64 }
    requires index { index + count ≤ length block.now.numbers }
    ensures within { result ≤ count }
    ensures right { (k : ℕ) → k < result → let cell = cell_at tally.now (first + k) in
        (slice_index block.now.numbers (index + k) ≡ cell / 8) × (is_shared_cell cell ≡ false) }
{
    prove!(count <= block.entries());
    for chunk in 0..count / TOGETHER {
        let start = TOGETHER * chunk;
        if !tally.are_plain(first + start as u64, &counters_from(block, index + start)) {
            return start;
        }
    }
    count / TOGETHER * TOGETHER
}

// The same, and then up to one more group, cluster by cluster, whatever refers to them. More may be right.
fn right_clusters(block: &RefBlock, tally: &Tally, first: u64, index: usize, count: usize) -> usize
    requires first { tally.now.first ≤ first }
    requires fits { first + count < 2 ^ 64 }
    requires index { index + count ≤ length block.now.numbers }
    ensures within { result ≤ count }
    ensures right { (k : ℕ) → k < result → let cell = cell_at tally.now (first + k) in
        (slice_index block.now.numbers (index + k) ≡ cell / 8) × (is_shared_cell cell ≡ false) }
{
    prove!(count <= block.entries());
    let plain = plain_clusters(block, tally, first, index, count);
    let end = count.min(plain + TOGETHER);
    for k in plain..end {
        if !is_right(block.get(index + k), tally.cell(first + k as u64)) {
            return k;
        }
    }
    end
}

// Whether a cluster with this refcount and this cell is right.
#[inline]
fn is_right(counter: u64, cell: u64) -> bool
    ensures { IsTrue result ↔ (counter ≡ cell / 8) × (is_shared_cell cell ≡ false) }
{
    counter == count_of(cell) && !is_shared(cell)
}

impl<'a> Findings<'a> {
    ghost use Rattle.std.specs.Prelude.{◌≡◌, ◌<◌, ◌≤◌, [], Ok, Err, None, Some, false, IfErr, IfOk, IfSome, IsOkUnless, IsSome, IsSomeAnd, IsTrue, OnOk, is_some, length, ◌+◌, ◌↔◌};
    ghost use Rattle.qcow2_base.specs.Format.{max_file_length, most_l1_entries, most_reftable_entries};
    ghost use Rattle.qcow2_base.specs.Storage.{Image, OnImage, OnlyReads};
    ghost use Rattle.qcow2_check.specs.Counters.{block_of_cluster, blocks_fault, counter_of};
    ghost use Rattle.qcow2_base.specs.declared.fault.Fault.TheVariants.{Storage as StorageFailed, Uncounted};
    ghost use Rattle.qcow2_check.specs.FileEnd.{file_clusters};
    ghost use Rattle.qcow2_metadata.specs.Header.{uncounted_part};
    ghost use Rattle.qcow2_metadata.specs.Placed.{place_fault};
    ghost use Rattle.qcow2_check.specs.Findings.{AreRight, GoesPast, IsBegun, IsCheckFault, IsFindingsOf, IsLaterFault, MovesFindings, NoneSought, PassesFinding, TakesFinding, checked_tables, finding_at, findings_left, past_findings, tables_of};
    ghost use Rattle.qcow2_check.specs.declared.findings.Sought.TheVariants.{Used};
    ghost use Rattle.qcow2_check.specs.Flags.{IsFlagsOf, flags_left, image_flags};
    ghost use Rattle.qcow2_check.specs.NamedTables.{l1_cluster, l1_layout};

    /// Reads the tables of an image with this header, counts the references to its first clusters, and
    /// returns a reader before the first finding.
    ///
    /// Returns the first of these faults: 37 if `Header::uncounted_part` returns a part, that of the L1
    /// table, that of the refcount table, 21 if a refcount block would end past 2^56, or that of an L2 table.
    /// Changes no byte.
    pub fn new<S: Storage>(
        alloc: Global,
        image: &mut S,
        header: &'a Header,
    ) -> Result<Findings<'a>, Fault>
        ensures uncounted { IfSome (uncounted_part header.now) (λ part. result ≡ Err (Uncounted part)) }
        ensures reads { Reads tables_of result (checked_tables header.now) (IsCheckFault header.now)
            (S.state image.old) (S.state image.new) }
        ensures begun { IfOk result (λ findings. (findings.header ≡ header.now) × IsBegun findings) }
        ensures reader { IfOk result (λ findings. OnImage (S.state image.old) (λ bytes.
            IsFindingsOf bytes findings)) }
    {
        let OpenTables {
            l1_table,
            mut counters,
        } = open_tables(alloc, image, header)?;
        let mut marks = Marks::new(Soles::load(alloc, image, &mut counters)?);
        let tables = ImageTables {
            header,
            l1_table: &l1_table,
            reftable: counters.reftable(),
        };
        let repeats = Repeats::new(alloc, &l1_table)?;
        let mut windows = Windows::new(&tables, counters.bytes());
        let tally = windows.count_and_mark(image, &tables, &repeats, 0, &mut marks)?;
        Ok(Findings {
            header,
            l1_table,
            repeats,
            counters,
            tally: Some(tally),
            marks,
            position: 0,
            sought: Sought::Wrong,
            windows,
        })
    }

    /// Returns the next finding, or `None` after the last. Findings come in the order of clusters, at most
    /// one for each.
    ///
    /// Fails if the storage fails or memory runs out, and can be called again then. The image must be the one
    /// that the reader was made for, unchanged since. Changes no byte.
    pub fn next<S: Storage>(&mut self, image: &mut S) -> Result<Option<Finding>, Fault>
        requires { OnImage (S.state image.old) (λ bytes. IsFindingsOf bytes self.old) }
        ensures finding { OnImage (S.state image.old) (λ bytes.
            TakesFinding (findings_left self.old bytes) (findings_left self.new bytes) result) }
        ensures further { GoesPast self.old.position result self.new.position }
        ensures reader { MovesFindings (S.state image.old) self.old self.new }
        ensures fault { IfErr result (IsLaterFault (S.state image.old)) }
        ensures storage { OnlyReads result (S.state image.old) (S.state image.new) }
    {
        prove!(self.position <= MAX_FILE_LENGTH);
        while self.position < MAX_FILE_LENGTH {
            if let Some(finding) = self.step(image)? {
                return Ok(Some(finding));
            }
        }
        Ok(None)
    }

    /// Turns the reader into one of the clusters that have references though they begin past the end of the
    /// image's file, whether their refcounts are right or not. It is before the first of them, and finds none
    /// if the file's length isn't known. The image must be the one that the reader was made for.
    ///
    /// Fails if the storage fails. Changes no byte.
    pub fn into_past_end<S: Device>(self, image: &mut S) -> Result<Findings<'a>, Fault>
        ensures left { IfOk result (λ past. OnImage (S.state image.old) (λ bytes. findings_left past bytes
            ≡ past_findings (file_clusters (S.state image.old).len self.entry.header)
            (tables_of self.entry) bytes)) }
        ensures tables { IfOk result (λ past. tables_of past ≡ tables_of self.entry) }
        ensures reader { IfOk result (λ past. (bytes : Image) →
            IsFindingsOf bytes self.entry → IsFindingsOf bytes past) }
        ensures fault { IsOkUnless result StorageFailed }
        ensures storage { OnlyReads result (S.state image.old) (S.state image.new) }
    {
        let clusters = file_clusters(image, self.header)?;
        Ok(self.past(clusters))
    }

    // The same for a file of that many clusters.
    #[tactic(auto, using(crate::proofs::FindingsListLemmas::past_left))]
    fn past(self, clusters: ClusterCount) -> Findings<'a>
        ensures same { result
            ≡ record self.entry { tally = result.tally; position = result.position; sought = Used } }
        ensures left { (image : Image) →
            findings_left result image ≡ past_findings clusters.0 (tables_of self.entry) image }
        ensures reader { (image : Image) → IsFindingsOf image self.entry → IsFindingsOf image result }
    {
        let mut past = self;
        let position = clusters.0.min(MAX_FILE_LENGTH);
        if !past.can_go_on_from(position) {
            past.tally = None;
        }
        past.position = position;
        past.sought = Sought::Used;
        past
    }

    /// Turns the reader into one of the same image's wrong copied flags, before the first of them. It takes
    /// over the L1 table and the reader of refcounts. Frees the memory of the reference counts.
    pub fn into_flags(self) -> Flags<'a>
        ensures flags { result ≡ record {
          header = self.entry.header;
          l1 = self.entry.l1;
          counters = self.entry.counters;
          marks = self.entry.marks;
          index = 0;
          table = None;
          position = 0;
        } }
        ensures left { (image : Image) → flags_left result image ≡ image_flags (tables_of self.entry) image }
        ensures reader { (image : Image) → IsFindingsOf image self.entry → IsFlagsOf image result }
    {
        Flags::new(
            self.header,
            self.l1_table,
            self.repeats,
            self.counters,
            self.marks,
        )
    }

    /// The L1 table and the refcount table of the image, and the last counted references if any are held.
    /// Frees all other memory.
    pub fn into_parts(self) -> (L1Table, RefTable, Option<Tally>)
        ensures numbers { (result.0.numbers ≡ self.entry.l1)
            × (result.1.numbers ≡ self.entry.counters.reftable) × (result.2 ≡ self.entry.tally) }
        ensures geometry { (result.0.geometry ≡ geometry_of self.entry.header)
            × (result.1.geometry ≡ geometry_of self.entry.header) }
        ensures entries { (length self.entry.l1 ≤ most_l1_entries)
            × (length self.entry.counters.reftable ≤ most_reftable_entries) }
        ensures placed { blocks_fault self.entry.header self.entry.counters.reftable ≡ None }
        ensures l1_table { (length result.0.numbers ≡ self.entry.header.v2.l1_size)
            × (result.0.cluster ≡ Some (l1_cluster self.entry.header)) × (result.0.modified ≡ false)
            × (place_fault (l1_layout self.entry.header) (l1_cluster self.entry.header) ≡ None) }
    {
        (self.l1_table, self.counters.into_reftable(), self.tally)
    }

    /// The header of the image.
    #[inline]
    pub fn header(&self) -> &Header
        ensures { result.now ≡ self.now.header }
    {
        self.header
    }

    /// Whether the refcount table names a block for a cluster.
    pub fn has_block(&self, cluster: HostCluster) -> bool
        ensures { let reader = self.now in
            result ≡ is_some (block_of_cluster reader.header reader.counters.reftable cluster.0) }
    {
        self.counters.has_block(cluster)
    }

    // The refcount and the references of a cluster whose references are counted.
    fn look_at<S: Storage>(&mut self, image: &mut S, cluster: u64) -> Result<Finding, Fault>
        requires counted { IfSome self.old.tally (λ tally. (tally.first ≤ cluster) × (cluster < tally.end)) }
        requires some { IsSome self.old.tally }
        requires reader { OnImage (S.state image.old) (λ bytes. IsFindingsOf bytes self.old) }
        ensures found { IfOk result (λ finding. OnImage (S.state image.old) (λ bytes.
            finding ≡ finding_at (tables_of self.old) bytes cluster)) }
        ensures cluster { IfOk result (λ finding. finding.cluster.0 ≡ cluster) }
        ensures fault { IfErr result IsFromOutside }
        ensures reader { MovesFindings (S.state image.old) self.old self.new
            × (self.new.position ≡ self.old.position) × (self.new.tally ≡ self.old.tally) }
        ensures storage { OnlyReads result (S.state image.old) (S.state image.new) }
    {
        let cell = self.tally.as_ref().unwrap().cell(cluster);
        let counter = if count_of(cell) == 0 {
            self.counters.get_unused(image, HostCluster(cluster))?
        } else {
            self.counters.get_in_order(image, HostCluster(cluster))?
        };
        Ok(Finding {
            cluster: HostCluster(cluster),
            counter,
            uses: count_of(cell),
            shared: is_shared(cell),
        })
    }

    // A counted cluster before which, from the reader's position on, none is sought, or the end of the
    // counted ones. It may not be sought itself.
    fn candidate(&self) -> u64
        requires some { IsSome self.now.tally }
        requires before { IfSome self.now.tally (λ tally. self.now.position < tally.end) }
        ensures from { self.now.position ≤ result }
        ensures within { IfSome self.now.tally (λ tally. result ≤ tally.end) }
        ensures none { (image : Image) → IsFindingsOf image self.now →
            NoneSought self.now.sought (tables_of self.now) image self.now.position result }
    {
        match self.sought {
            Sought::Wrong => self.wrong_candidate(),
            Sought::Used => {
                let tally = self.tally.as_ref().unwrap();
                tally.next_used(self.position, tally.end())
            }
        }
    }

    // A counted cluster before which, from the reader's position on, all are right, or the end of the counted
    // ones. It may be right itself.
    fn wrong_candidate(&self) -> u64
        requires some { IsSome self.now.tally }
        requires before { IfSome self.now.tally (λ tally. self.now.position < tally.end) }
        ensures from { self.now.position ≤ result }
        ensures within { IfSome self.now.tally (λ tally. result ≤ tally.end) }
        ensures right { (image : Image) → IsFindingsOf image self.now →
            AreRight (tables_of self.now) image self.now.position result }
    {
        let tally = self.tally.as_ref().unwrap();
        if !tally.is_dense(self.position) {
            let next = tally.next_used(self.position, tally.end());
            return self.counters.free_end(HostCluster(self.position), next);
        }
        let position = HostCluster(self.position);
        match self.counters.kept_for(position) {
            Some(block) if !self.counters.is_counted_again(position) => {
                let index = position.rb_index(self.header.rb_bits());
                prove!(index < block.entries());
                let left = (tally.end() - position.0) as usize;
                let count = left.min(block.entries() - index);
                position.0 + right_clusters(block, tally, position.0, index, count) as u64
            }
            _ => {
                let free = self.counters.free_end(position, tally.end());
                tally.next_used(position.0, free)
            }
        }
    }

    // Moves the reader past a counted cluster that may be sought, and returns the cluster's finding if it is.
    // Stops at the end of the counted clusters.
    #[tactic(auto, using(crate::proofs::FindingsLemmas::none_more))]
    fn pass_counted<S: Storage>(&mut self, image: &mut S) -> Result<Option<Finding>, Fault>
        requires some { IsSome self.old.tally }
        requires before { IfSome self.old.tally (λ tally. self.old.position < tally.end) }
        requires reader { OnImage (S.state image.old) (λ bytes. IsFindingsOf bytes self.old) }
        ensures finding { PassesFinding (S.state image.old) self.old result self.new.position }
        ensures further { (self.new.position ≤ max_file_length)
            × OnOk result (self.old.position < self.new.position) }
        ensures reader { MovesFindings (S.state image.old) self.old self.new }
        ensures fault { IfErr result IsFromOutside }
        ensures storage { OnlyReads result (S.state image.old) (S.state image.new) }
    {
        let cluster = self.candidate();
        if cluster == self.tally.as_ref().unwrap().end() {
            self.position = cluster;
            return Ok(None);
        }
        let finding = self.look_at(image, cluster)?;
        self.position = cluster + 1;
        if finding.is_sought(self.sought) {
            return Ok(Some(finding));
        }
        Ok(None)
    }

    // Moves the reader past one or more clusters, and returns the finding of the last if it is sought. Counts
    // their references first unless they are counted.
    fn step<S: Storage>(&mut self, image: &mut S) -> Result<Option<Finding>, Fault>
        requires before { self.old.position < max_file_length }
        requires reader { OnImage (S.state image.old) (λ bytes. IsFindingsOf bytes self.old) }
        ensures finding { PassesFinding (S.state image.old) self.old result self.new.position }
        ensures further { (self.new.position ≤ max_file_length)
            × OnOk result (self.old.position < self.new.position) }
        ensures reader { MovesFindings (S.state image.old) self.old self.new }
        ensures fault { IfErr result (IsLaterFault (S.state image.old)) }
        ensures storage { OnlyReads result (S.state image.old) (S.state image.new) }
    {
        self.keep_window(image)?;
        self.pass_counted(image)
    }

    // Whether the reader can go on from a cluster with the references that it has counted.
    fn can_go_on_from(&self, cluster: u64) -> bool
        ensures { IsTrue result → IfSome self.now.tally (λ tally.
            (tally.first ≤ cluster) × (cluster ≤ tally.end)) }
    {
        match &self.tally {
            Some(tally) => tally.first() <= cluster && cluster <= tally.end(),
            None => false,
        }
    }

    // Whether the references to the reader's cluster are counted.
    fn is_counted(&self) -> bool
        ensures { IsTrue result ↔ IsSomeAnd self.now.tally (λ tally. self.now.position < tally.end) }
    {
        match &self.tally {
            Some(tally) => self.position < tally.end(),
            None => false,
        }
    }

    // Counts the references to the reader's cluster and to those after it, unless they are counted.
    fn keep_window<S: Storage>(&mut self, image: &mut S) -> Result<(), Fault>
        requires before { self.old.position < max_file_length }
        requires reader { OnImage (S.state image.old) (λ bytes. IsFindingsOf bytes self.old) }
        ensures window { OnOk result (IsSomeAnd self.new.tally (λ tally. self.old.position < tally.end)) }
        ensures reader { MovesFindings (S.state image.old) self.old self.new }
        ensures position { self.new.position ≡ self.old.position }
        ensures fault { IfErr result (IsLaterFault (S.state image.old)) }
        ensures storage { OnlyReads result (S.state image.old) (S.state image.new) }
    {
        if self.is_counted() {
            return Ok(());
        }
        // Free its memory before the next window takes as much.
        self.tally = None;
        let tables = ImageTables {
            header: self.header,
            l1_table: &self.l1_table,
            reftable: self.counters.reftable(),
        };
        let mut marks = Marks::none(self.l1_table.allocator());
        let tally = self
            .windows
            .count_and_mark(image, &tables, &self.repeats, self.position, &mut marks)?;
        self.tally = Some(tally);
        Ok(())
    }
}
