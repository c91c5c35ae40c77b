//! Squares of one colour, painted run by run.

ghost use Rattle.std.specs.Prelude.{◌≡◌, ℕ, ◌+◌, ◌*◌, ◌/◌, ◌<◌, ◌≤◌, IfOk, length, max, min, slice_index};
ghost use Rattle.qcow2_base.specs.Format.{max_file_length};
ghost use Rattle.qcow2_layout.specs.Layout.{moved_part};
ghost use Rattle.qcow2_layout.specs.Picture.{GrowsScale, HaveShades, IsScale, Shades, all_squares};
ghost use Rattle.qcow2_layout.specs.Picture as spec;
ghost use Rattle.std.specs.Int.{div_ceil};

use crate::{Part, Run};
use qcow2_base::ClusterCount;
use std::alloc::{AllocError, Global};
use std::marker::Model;

/// The number of squares in a row.
pub const COLUMNS: usize = 64;

// The number of squares in a picture: 64 rows.
const SQUARES: usize = 4096;

/// The clusters of an image as at most 4096 squares in rows of 64. Each square stands for the same number of
/// clusters, a power of two, and has the colour of the most severe content in it. Contracts see a record of
/// these fields.
#[derive(Drop)]
pub struct Picture {
    squares: [u8; SQUARES],
    scale: u64,
    end: u64,
    size: u64,
}

impl Model for Picture {
    ghost use Rattle.std.specs.Prelude.{◌≡◌, ◌<◌, ◌≤◌, length};
    ghost use Rattle.qcow2_base.specs.Format.{max_file_length};
    ghost use Rattle.qcow2_layout.specs.Picture.{IsScale, PictureState, all_squares};

    ghost Value = { PictureState };

    ghost view = { λ p. record {
      squares = p.squares;
      scale = p.scale;
      end = p.end;
      size = p.size;
    } };

    ghost invariant = { λ p. (length p.squares ≡ all_squares) × IsScale p.end p.scale
        × (p.end ≤ max_file_length) };
}

/// Consecutive squares of a row that have the same colour.
#[derive(Clone, Copy, Debug, PartialEq, Eq)]
pub struct Shape {
    /// The first square, counted from that of cluster 0 on.
    pub first: usize,
    /// The number of squares.
    pub count: usize,
    /// The colour: 0 for free clusters, 1 to 8 for data in the eighths of the guest's disk, 9 for compressed
    /// data, 10 for the header and mapping tables, 11 for refcounts, and 12 for leaked clusters.
    pub shade: u8,
}

impl Picture {
    ghost use Rattle.std.specs.Prelude.{◌≡◌, ℕ, ◌+◌, ◌*◌, ◌^◌, ◌<◌, ◌≤◌, IfOk, length};
    ghost use Rattle.qcow2_base.specs.Format.{max_file_length};
    ghost use Rattle.qcow2_base.specs.Types.{IsClusterBits};
    ghost use Rattle.qcow2_layout.specs.Layout.{moved_part};
    ghost use Rattle.qcow2_layout.specs.Picture.{HasRun, IsWhole, Shades, Shows, shapes_of, shown_squares};

    /// An empty picture, for an image whose guest disk has `size` bytes.
    pub(crate) fn new(size: u64) -> Picture
        ensures begun { (result.end ≡ 0) × (result.size ≡ size) }
        ensures blank { (shades : Shades) → Shows shades result }
        ensures whole { IsWhole result }
    {
        Picture {
            squares: [0; SQUARES],
            scale: 1,
            end: 0,
            size,
        }
    }

    /// The number of clusters that a square stands for.
    pub fn scale(&self) -> u64
        ensures { result ≡ self.now.scale }
    {
        self.scale
    }

    /// The squares that stand for clusters of the image, as shapes of one colour, row by row. Fails only if
    /// memory runs out.
    pub fn shapes(&self, alloc: Global) -> Result<Vec<Shape>, AllocError>
        ensures { IfOk result (λ shapes. shapes.items ≡ shapes_of (shown_squares self.now)) }
    {
        let shown = self.end.div_ceil(self.scale) as usize;
        shapes_of(&self.squares[..shown], alloc)
    }

    /// Paints a run of clusters. It must begin at the end of the painted ones.
    pub(crate) fn paint(&mut self, run: &Run, cluster_bits: u32)
        requires bits { IsClusterBits cluster_bits }
        requires next { run.now.first.0 ≡ self.old.end }
        requires fits { (run.now.first.0 + run.now.count) * 2 ^ cluster_bits ≤ max_file_length }
        ensures painted { (shades : Shades) → Shows shades self.old
            → HasRun shades self.old.size cluster_bits run.now → Shows shades self.new }
        ensures end { self.new.end ≡ run.now.first.0 + run.now.count }
        ensures size { self.new.size ≡ self.old.size }
        ensures whole { IsWhole self.new }
    {
        let end = run.first.0 + run.count;
        while self.end < end {
            self.paint_square(run, end, cluster_bits);
        }
    }

    // Paints as many clusters of the run as fit in one square, from the first that isn't painted.
    fn paint_square(&mut self, run: &Run, run_end: u64, cluster_bits: u32)
        requires bits { IsClusterBits cluster_bits }
        requires begun { run.now.first.0 ≤ self.old.end }
        requires before { self.old.end < run_end }
        requires run_end { run_end ≡ run.now.first.0 + run.now.count }
        requires fits { run_end * 2 ^ cluster_bits ≤ max_file_length }
        ensures painted { (shades : Shades) → Shows shades self.old
            → HasRun shades self.old.size cluster_bits run.now → Shows shades self.new }
        ensures further { (self.old.end < self.new.end) × (self.new.end ≤ run_end) }
        ensures size { self.new.size ≡ self.old.size }
    {
        let scale = make_room(&mut self.squares, self.scale, self.end);
        let index = self.end / scale;
        let end = run_end.min((index + 1) * scale);
        let bytes = ClusterCount(end - 1 - run.first.0).byte_size(cluster_bits);
        let shade = shade_of(run.part, bytes, self.size);
        let before = self.squares[index as usize];
        self.squares[index as usize] = before.max(shade);
        self.scale = scale;
        self.end = end;
    }
}

// If all squares are full, merges them in pairs, so that each stands for twice as many clusters. Returns the
// number that each stands for then.
fn make_room(squares: &mut [u8], scale: u64, end: u64) -> u64
    requires count { length squares.old ≡ all_squares }
    requires scale { IsScale end scale }
    requires fits { end ≤ max_file_length }
    ensures painted { (shades : Shades) → HaveShades shades end scale squares.old
        → HaveShades shades end result squares.new }
    ensures scale { GrowsScale end scale result }
    ensures count { length squares.new ≡ length squares.old }
{
    if end < scale * SQUARES as u64 {
        return scale;
    }
    merge_pairs(squares);
    clear_second_half(squares);
    2 * scale
}

// Gives each square of the first half the more severe colour of two.
fn merge_pairs(squares: &mut [u8])
    requires count { length squares.old ≡ all_squares }
    ensures merged { (i : ℕ) → i < 2048 → slice_index squares.new i
        ≡ max (slice_index squares.old (2 * i)) (slice_index squares.old (2 * i + 1)) }
    ensures count { length squares.new ≡ length squares.old }
{
    for index in 0..SQUARES / 2 {
        squares[index] = squares[2 * index].max(squares[2 * index + 1]);
    }
}

// Clears the squares of the second half to colour 0.
fn clear_second_half(squares: &mut [u8])
    requires count { length squares.old ≡ all_squares }
    ensures cleared { (i : ℕ) → 2048 ≤ i → i < all_squares → slice_index squares.new i ≡ 0 }
    ensures others { (i : ℕ) → i < 2048 → slice_index squares.new i ≡ slice_index squares.old i }
    ensures count { length squares.new ≡ length squares.old }
{
    for index in SQUARES / 2..SQUARES {
        squares[index] = 0;
    }
}

// The colour of a cluster that lies `bytes` after one of this part, in the same run.
fn shade_of(part: Part, bytes: u64, size: u64) -> u8
    ensures { result ≡ spec.shade_of size (moved_part bytes part) }
{
    match part {
        Part::Free => 0,
        Part::Data(offset) => 1 + eighth_of(offset.0, bytes, size),
        Part::Compressed => 9,
        Part::Header | Part::EncryptionHeader | Part::L1Table | Part::L2Table => 10,
        Part::RefcountTable | Part::RefcountBlock => 11,
        Part::Leaked => 12,
    }
}

// The eighth of a disk that has the offset `offset + bytes`. Offsets past the disk's end count as the last
// eighth.
fn eighth_of(offset: u64, bytes: u64, size: u64) -> u8
    ensures { result ≡ min 7 ((offset + bytes) / max 1 (div_ceil size 8)) }
{
    match offset.checked_add(bytes) {
        Some(offset) => (offset / size.div_ceil(8).max(1)).min(7) as u8,
        None => 7,
    }
}

// Groups squares into shapes of one colour, row by row.
fn shapes_of(squares: &[u8], alloc: Global) -> Result<Vec<Shape>, AllocError>
    ensures { IfOk result (λ shapes. shapes.items ≡ spec.shapes_of squares.now) }
{
    let mut shapes = Vec::new(alloc);
    for index in 0..squares.len() {
        if begins_shape(squares, index) {
            shapes.push(shape_at(squares, index))?;
        }
    }
    Ok(shapes)
}

// Whether a square begins a row, or has another colour than the one before it.
fn begins_shape(squares: &[u8], index: usize) -> bool
    requires { index < length squares.now }
    ensures { result ≡ spec.begins_shape squares.now index }
{
    index % COLUMNS == 0 || squares[index - 1] != squares[index]
}

// The shape of the squares from an index on that have the same colour in the same row.
fn shape_at(squares: &[u8], index: usize) -> Shape
    requires { index < length squares.now }
    ensures { result ≡ spec.shape_at squares.now index }
{
    let row_end = squares.len().min(index + COLUMNS - index % COLUMNS);
    let shade = squares[index];
    Shape {
        first: index,
        count: same_count(&squares[index..row_end], shade),
        shade,
    }
}

// The number of squares before the first that has another colour.
fn same_count(squares: &[u8], shade: u8) -> usize
    ensures { result ≡ spec.same_count shade squares.now }
{
    for index in 0..squares.len() {
        if squares[index] != shade {
            return index;
        }
    }
    squares.len()
}
