//! Writes a range of an image's bytes in pieces of 4096 bytes, through one array.

ghost use Rattle.std.specs.Prelude.{◌≡◌, ℕ, ◌+◌, ◌-◌, ◌*◌, ◌<◌, ◌≤◌, length, List, min, slice_index, ◌≢◌, IfErr, IfOk, MatchResult};
ghost use Rattle.qcow2_base.specs.Format.{max_file_length};
ghost use Rattle.qcow2_base.specs.Storage.{WritesBytes};
ghost use Rattle.qcow2_metadata.specs.Pieces.{WritesInPieces, piece_size};
ghost use Rattle.qcow2_metadata.specs.Placed.{Layout, ReadsBack, offset_of, place_fault};

use qcow2_base::{Fault, HostCluster, HostOffset, Storage, StorageFault};

/// The greatest number of bytes of a table or block that one call reads or writes.
pub(crate) const PIECE_BYTES: usize = 4096;

/// Numbers that are written as bytes, in pieces.
pub(crate) trait Packed {
    /// The layout of the numbers in an image.
    ghost layout: { Self → Layout };

    /// The numbers.
    ghost numbers: { Self → List ℕ };

    /// Returns the number of bytes.
    fn byte_count(&self) -> usize
        ensures { result ≡ (layout self.now).byte_count };

    /// Returns the offset of the bytes if they begin with a cluster, or a fault if they can't lie there.
    fn offset_at(&self, cluster: HostCluster) -> Result<HostOffset, Fault>
        ensures place { MatchResult result
            (λ offset. place_fault (layout self.now) cluster ≡ None)
            (λ fault. place_fault (layout self.now) cluster ≡ Some fault) }
        ensures fault { IfErr result (λ fault. fault ≢ Fault.Storage) }
        ensures offset { IfOk result (λ offset. offset.0 ≡ offset_of (layout self.now) cluster) }
        ensures fits { IfOk result (λ offset.
            offset.0 + (layout self.now).byte_count ≤ max_file_length) }
        ensures reads_back { ReadsBack (layout self.now) (numbers self.now) };

    /// Stores the bytes of a piece in the buffer, which must have that piece's length.
    fn pack(&self, piece: usize, buffer: &mut [u8])
        requires piece { piece_size * piece < (layout self.now).byte_count }
        requires bound { (layout self.now).byte_count ≤ max_file_length }
        requires len { length buffer.old
            ≡ min ((layout self.now).byte_count - piece_size * piece) piece_size }
        ensures packed { (i : ℕ) → i < length buffer.new →
            slice_index buffer.new i
            ≡ (layout self.now).bytes_of (numbers self.now) (piece_size * piece + i) }
        ensures len { length buffer.new ≡ length buffer.old };
}

/// The pieces to write: all, or only those that differ from the image.
#[derive(Clone, Copy, Debug)]
pub(crate) enum Pieces {
    All,
    Changed,
}

// Writes the bytes of a piece to the image, from an offset on.
fn write_piece<S: Storage>(
    image: &mut S,
    pieces: Pieces,
    buffer: &[u8],
    offset: u64,
) -> Result<(), StorageFault>
    requires end { offset + length buffer.now ≤ max_file_length }
    requires short { length buffer.now ≤ piece_size }
    ensures { WritesBytes result offset buffer.now (S.state image.old) (S.state image.new) }
{
    match pieces {
        Pieces::All => image.write(buffer, offset),
        Pieces::Changed => write_changed(image, buffer, offset),
    }
}

// Writes the bytes only if the image has others there.
fn write_changed<S: Storage>(image: &mut S, buffer: &[u8], offset: u64) -> Result<(), StorageFault>
    requires end { offset + length buffer.now ≤ max_file_length }
    requires short { length buffer.now ≤ piece_size }
    ensures { WritesBytes result offset buffer.now (S.state image.old) (S.state image.new) }
{
    let mut array = [0u8; PIECE_BYTES];
    let there = &mut array[..buffer.len()];
    image.read(there, offset)?;
    if *there == *buffer {
        return Ok(());
    }
    image.write(buffer, offset)
}

/// Writes the bytes to the image from an offset on, in pieces of 4096 bytes: all pieces, or only those that
/// differ from the image.
pub(crate) fn write_in_pieces<P: Packed, S: Storage>(
    packed: &P,
    image: &mut S,
    pieces: Pieces,
    offset: HostOffset,
) -> Result<(), StorageFault>
    requires { offset.0 + (P.layout packed.now).byte_count ≤ max_file_length }
    ensures { WritesInPieces result offset.0 ((P.layout packed.now).bytes_of (P.numbers packed.now))
        (P.layout packed.now).byte_count (S.state image.old) (S.state image.new) }
{
    let mut array = [0u8; PIECE_BYTES];
    let byte_count = packed.byte_count();
    for piece in 0..byte_count.div_ceil(PIECE_BYTES) {
        let first = PIECE_BYTES * piece;
        let buffer = &mut array[..(byte_count - first).min(PIECE_BYTES)];
        packed.pack(piece, buffer);
        write_piece(image, pieces, buffer, offset.0 + first as u64)?;
    }
    Ok(())
}
