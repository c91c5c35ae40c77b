//! The layout of an image: what each host cluster is, in runs.

ghost use Rattle.std.specs.Prelude.{◌≡◌, ℕ, ◌+◌, ◌<◌, ◌≤◌, ◌*◌, ◌^◌, IfErr, IfOk, IfSome, length};
ghost use Rattle.qcow2_base.specs.Storage.{OnImage, OnlyReads};
ghost use Rattle.qcow2_metadata.specs.Header.{geometry_of};
ghost use Rattle.qcow2_metadata.specs.Results.{IsFromOutside, Reads};

use crate::parts::{Part, Run};
use crate::window::Window;
use crate::windows::Windows;
use qcow2_base::{ClusterCount, Fault, HostCluster, Storage};
use qcow2_check::{Counters, ImageTables, OpenTables, Repeats, open_tables};
use qcow2_metadata::{Header, L1Table, Table};
use qcow2_summary::most_clusters;
use std::alloc::Global;
use std::marker::Model;

// The number of clusters with consecutive cells whose refcounts are tested at once. Testing more would cost
// too much if a reference comes soon.
const TOGETHER: u64 = 64;

/// A reader of an image's layout, run by run. It holds the L1 table, the refcount table, a refcount block and
/// a window of clusters with their parts. Contracts see these and the cluster that the reader has reached.
#[derive(Drop)]
pub struct Layout<'a> {
    header: &'a Header,
    l1_table: L1Table,
    repeats: Repeats,
    counters: Counters<'a>,
    window: Option<Window>,
    position: u64,
    windows: Windows,
}

impl<'a> Model for Layout<'a> {
    ghost use Rattle.std.specs.Prelude.{◌≡◌, ◌<◌, ◌≤◌, IfSome, length};
    ghost use Rattle.qcow2_base.specs.Format.{max_file_length, most_l1_entries};
    ghost use Rattle.qcow2_metadata.specs.Header.{geometry_of};
    ghost use Rattle.qcow2_check.specs.Repeats.{AreTimesOf, table_names};
    ghost use Rattle.qcow2_summary.specs.ImageEnd.{most_clusters};
    ghost use Rattle.qcow2_layout.specs.Layout.{LayoutState};

    ghost Value = { LayoutState };

    ghost view = { λ r. record {
      header = r.header.now;
      l1 = r.l1_table.numbers;
      counters = r.counters;
      window = r.window;
      position = r.position;
    } };

    ghost invariant = { λ r. (r.l1_table.geometry ≡ geometry_of r.header.now)
        × (length r.l1_table.numbers ≤ most_l1_entries)
        × AreTimesOf (table_names r.l1_table.numbers) r.repeats
        × (r.counters.header ≡ r.header.now)
        × (r.position ≤ most_clusters r.header.now)
        × IfSome r.window (λ window. window.end ≤ max_file_length) };
}

impl<'a> Layout<'a> {
    ghost use Rattle.std.specs.Prelude.{◌≡◌, ℕ, ◌<◌, ◌≤◌, Ok, Err, IfErr, IfOk, IfSome, IsSome, IsSomeAnd, IsTrue, MatchResult, OnOk, ◌+◌, ◌↔◌};
    ghost use Rattle.qcow2_base.specs.Storage.{Image, OnImage, OnlyReads};
    ghost use Rattle.qcow2_base.specs.declared.fault.Fault.TheVariants.{Uncounted};
    ghost use Rattle.qcow2_metadata.specs.Header.{uncounted_part};
    ghost use Rattle.qcow2_metadata.specs.Results.{result_map};
    ghost use Rattle.qcow2_check.specs.Counters.{ReportNone};
    ghost use Rattle.qcow2_check.specs.Findings.{IsCheckFault, IsLaterFault, checked_tables};
    ghost use Rattle.qcow2_check.specs.Tally.{cell_at};
    ghost use Rattle.qcow2_summary.specs.ImageEnd.{most_clusters};
    ghost use Rattle.qcow2_layout.specs.declared.parts.Part.TheVariants.{Free};
    ghost use Rattle.qcow2_layout.specs.Layout.{IsLayoutOf, IsStretch, IsWholeRun, MovesLayout, PassesRun, parts_for, layout_tables};

    /// Reads the tables of an image with this header and all references to its first clusters, and returns a
    /// reader before the first run.
    ///
    /// Returns the first of these faults: 37 if `Header::uncounted_part` returns a part, that of the L1
    /// table, that of the refcount table, 21 if a refcount block would end past 2^56, or that of an L2 table.
    /// Changes no byte.
    pub fn new<S: Storage>(
        alloc: Global,
        image: &mut S,
        header: &'a Header,
    ) -> Result<Layout<'a>, Fault>
        ensures uncounted { IfSome (uncounted_part header.now) (λ part. result ≡ Err (Uncounted part)) }
        ensures reads { Reads layout_tables result (checked_tables header.now) (IsCheckFault header.now)
            (S.state image.old) (S.state image.new) }
        ensures begun { IfOk result (λ layout. (layout.header ≡ header.now) × (layout.position ≡ 0)) }
        ensures reader { IfOk result (λ layout. OnImage (S.state image.old) (λ bytes.
            IsLayoutOf bytes layout)) }
    {
        let OpenTables { l1_table, counters } = open_tables(alloc, image, header)?;
        let tables = ImageTables {
            header,
            l1_table: &l1_table,
            reftable: counters.reftable(),
        };
        let repeats = Repeats::new(alloc, &l1_table)?;
        let mut windows = Windows::new(&tables, counters.bytes());
        let window = windows.place(image, &tables, &repeats, 0)?;
        Ok(Layout {
            header,
            l1_table,
            repeats,
            counters,
            window: Some(window),
            position: 0,
            windows,
        })
    }

    /// Returns the next run, or `None` at the image's end, which is after the last cluster that isn't free.
    /// Runs follow one another from cluster 0 on. Each is as long as its clusters are the same part, and
    /// clusters of guest data also follow one another on the guest's disk.
    ///
    /// Fails if the storage fails or memory runs out. The reader then stays before the run, and the call can
    /// be made again. The image must be the one that the reader was made for, unchanged since. Changes no
    /// byte.
    pub fn next<S: Storage>(&mut self, image: &mut S) -> Result<Option<Run>, Fault>
        requires { OnImage (S.state image.old) (λ bytes. IsLayoutOf bytes self.old) }
        ensures run { PassesRun (S.state image.old) self.old result self.new.position }
        ensures reader { MovesLayout (S.state image.old) self.old self.new }
        ensures fault { IfErr result (IsLaterFault (S.state image.old)) }
        ensures storage { OnlyReads result (S.state image.old) (S.state image.new) }
    {
        let start = self.position;
        if start == most_clusters(self.header) {
            return Ok(None);
        }
        let part = self.pass_run(image)?;
        if self.is_past_end(part) {
            return Ok(None);
        }
        Ok(Some(Run {
            first: HostCluster(start),
            count: self.position - start,
            part,
        }))
    }

    // Whether a run of this part that ends at the reader's position is the free space after the image's end.
    fn is_past_end(&self, part: Part) -> bool
        ensures { IsTrue result ↔ (part ≡ Free)
            × (self.now.position ≡ most_clusters self.now.header) }
    {
        part == Part::Free && self.position == most_clusters(self.header)
    }

    // Moves the reader past the run that begins at its position, and returns the run's part.
    #[inline]
    fn pass_run<S: Storage>(&mut self, image: &mut S) -> Result<Part, Fault>
        requires before { self.old.position < most_clusters self.old.header }
        requires reader { OnImage (S.state image.old) (λ bytes. IsLayoutOf bytes self.old) }
        ensures run { IfOk result (λ part. OnImage (S.state image.old) (λ bytes.
            IsWholeRun self.old.header.v2.cluster_bits (parts_for self.old bytes)
            (most_clusters self.old.header) self.old.position (part, self.new.position))) }
        ensures further { MatchResult result
            (λ part. (self.old.position < self.new.position)
            × (self.new.position ≤ most_clusters self.old.header))
            (λ fault. self.new.position ≡ self.old.position) }
        ensures reader { MovesLayout (S.state image.old) self.old self.new }
        ensures fault { IfErr result (IsLaterFault (S.state image.old)) }
        ensures storage { OnlyReads result (S.state image.old) (S.state image.new) }
    {
        match self.used_run() {
            Some((part, end)) => {
                self.position = end;
                Ok(part)
            }
            None => self.pass_pieces(image),
        }
    }

    // The part and the end of the run that begins at the reader's position, if the consecutive cells of the
    // window show both. Most runs are short, so a call for each would cost too much.
    #[inline(always)]
    fn used_run(&self) -> Option<(Part, u64)>
        ensures run { IfSome result (λ run. (image : Image) → IsLayoutOf image self.now →
            IsWholeRun self.now.header.v2.cluster_bits (parts_for self.now image)
            (most_clusters self.now.header) self.now.position run) }
        ensures within { IfSome result (λ run. (self.now.position < run.1)
            × (run.1 ≤ most_clusters self.now.header)) }
    {
        if !self.has_window(self.position) {
            return None;
        }
        let window = self.window.as_ref().unwrap();
        let part = Part::of_cell(window.cell(self.position), self.header.cluster_bits())?;
        let end = window.run_end(self.position);
        if window.is_dense(end) && end <= most_clusters(self.header) {
            return Some((part, end));
        }
        None
    }

    // `pass_run`, piece by piece.
    fn pass_pieces<S: Storage>(&mut self, image: &mut S) -> Result<Part, Fault>
        requires before { self.old.position < most_clusters self.old.header }
        requires reader { OnImage (S.state image.old) (λ bytes. IsLayoutOf bytes self.old) }
        ensures run { IfOk result (λ part. OnImage (S.state image.old) (λ bytes.
            IsWholeRun self.old.header.v2.cluster_bits (parts_for self.old bytes)
            (most_clusters self.old.header) self.old.position (part, self.new.position))) }
        ensures further { MatchResult result
            (λ part. (self.old.position < self.new.position)
            × (self.new.position ≤ most_clusters self.old.header))
            (λ fault. self.new.position ≡ self.old.position) }
        ensures reader { MovesLayout (S.state image.old) self.old self.new }
        ensures fault { IfErr result (IsLaterFault (S.state image.old)) }
        ensures storage { OnlyReads result (S.state image.old) (S.state image.new) }
    {
        let start = self.position;
        let cluster_bits = self.header.cluster_bits();
        let limit = most_clusters(self.header);
        let (part, mut end) = self.piece(image, start)?;
        while end < limit {
            let (next, next_end) = self.piece(image, end)?;
            let bytes = ClusterCount(end - start).byte_size(cluster_bits);
            if !part.goes_on_as(bytes, next) {
                self.position = end;
                return Ok(part);
            }
            end = next_end;
        }
        self.position = end;
        Ok(part)
    }

    // The part of cluster `from`, and the end of a stretch of clusters that surely continue its run. Moves
    // the window there if it doesn't hold the cluster.
    fn piece<S: Storage>(&mut self, image: &mut S, from: u64) -> Result<(Part, u64), Fault>
        requires before { from < most_clusters self.old.header }
        requires reader { OnImage (S.state image.old) (λ bytes. IsLayoutOf bytes self.old) }
        ensures piece { IfOk result (λ piece. OnImage (S.state image.old) (λ bytes.
            IsStretch self.old.header.v2.cluster_bits (parts_for self.old bytes) from piece)) }
        ensures within { IfOk result (λ piece. (from < piece.1)
            × (piece.1 ≤ most_clusters self.old.header)) }
        ensures reader { MovesLayout (S.state image.old) self.old self.new
            × (self.new.position ≡ self.old.position) }
        ensures fault { IfErr result (IsLaterFault (S.state image.old)) }
        ensures storage { OnlyReads result (S.state image.old) (S.state image.new) }
    {
        self.keep_window(image, from)?;
        self.piece_in_window(image, from)
    }

    // `piece` for a cluster that the window holds.
    fn piece_in_window<S: Storage>(
        &mut self,
        image: &mut S,
        from: u64,
    ) -> Result<(Part, u64), Fault>
        requires window { IsSomeAnd self.old.window (λ window. (window.first ≤ from)
            × (from < window.end)) }
        requires before { from < most_clusters self.old.header }
        requires reader { OnImage (S.state image.old) (λ bytes. IsLayoutOf bytes self.old) }
        ensures piece { IfOk result (λ piece. OnImage (S.state image.old) (λ bytes.
            IsStretch self.old.header.v2.cluster_bits (parts_for self.old bytes) from piece)) }
        ensures within { IfOk result (λ piece. (from < piece.1)
            × (piece.1 ≤ most_clusters self.old.header)) }
        ensures reader { MovesLayout (S.state image.old) self.old self.new
            × (self.new.position ≡ self.old.position) }
        ensures fault { IfErr result IsFromOutside }
        ensures storage { OnlyReads result (S.state image.old) (S.state image.new) }
    {
        let window = self.window.as_ref().unwrap();
        if let Some(part) = Part::of_cell(window.cell(from), self.header.cluster_bits()) {
            let end = window.run_end(from).min(most_clusters(self.header));
            return Ok((part, end));
        }
        let counter = self.counters.get_unused(image, HostCluster(from))?;
        if counter != 0 {
            return Ok((Part::unused(counter), from + 1));
        }
        Ok((Part::Free, self.free_end(from)))
    }

    // The end of clusters from one on that are surely free as they are reported, given that the first is.
    fn free_end(&self, from: u64) -> u64
        requires window { IsSomeAnd self.now.window (λ window. (window.first ≤ from)
            × (from < window.end)) }
        requires before { from < most_clusters self.now.header }
        ensures some { from < result }
        ensures within { result ≤ most_clusters self.now.header }
        ensures window { IsSomeAnd self.now.window (λ window. result ≤ window.end) }
        ensures unused { IsSomeAnd self.now.window (λ window. (c : ℕ) → from + 1 ≤ c → c < result →
            cell_at window c ≡ 0) }
        ensures free { (image : Image) → IsLayoutOf image self.now →
            ReportNone self.now.counters image (from + 1) result }
    {
        let window = self.window.as_ref().unwrap();
        let end = window.end().min(most_clusters(self.header));
        let limit = if window.is_dense(from) {
            end.min(from + TOGETHER)
        } else {
            window.next_used(from + 1, end)
        };
        let free = self.counters.free_end(HostCluster(from), limit);
        window.next_used(from + 1, free.max(from + 1))
    }

    // Whether the window holds a cluster.
    fn has_window(&self, cluster: u64) -> bool
        ensures { IsTrue result ↔ IsSomeAnd self.now.window (λ window. (window.first ≤ cluster)
            × (cluster < window.end)) }
    {
        match &self.window {
            Some(window) => window.first() <= cluster && cluster < window.end(),
            None => false,
        }
    }

    // Moves the window to a cluster unless it holds it.
    fn keep_window<S: Storage>(&mut self, image: &mut S, cluster: u64) -> Result<(), Fault>
        requires before { cluster < most_clusters self.old.header }
        requires reader { OnImage (S.state image.old) (λ bytes. IsLayoutOf bytes self.old) }
        ensures window { OnOk result (IsSomeAnd self.new.window (λ window. (window.first ≤ cluster)
            × (cluster < window.end))) }
        ensures reader { MovesLayout (S.state image.old) self.old self.new
            × (self.new.position ≡ self.old.position) }
        ensures fault { IfErr result (IsLaterFault (S.state image.old)) }
        ensures storage { OnlyReads result (S.state image.old) (S.state image.new) }
    {
        if self.has_window(cluster) {
            return Ok(());
        }
        // Free its memory before the next window takes as much.
        self.window = None;
        let tables = ImageTables {
            header: self.header,
            l1_table: &self.l1_table,
            reftable: self.counters.reftable(),
        };
        let window = self.windows.place(image, &tables, &self.repeats, cluster)?;
        self.window = Some(window);
        Ok(())
    }
}
