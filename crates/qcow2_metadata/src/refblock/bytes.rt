//! Copies a block to bytes in the caller's memory.

ghost use Rattle.std.specs.Prelude.{◌≡◌, ◌^◌, length};
ghost use Rattle.qcow2_base.specs.Storage.{image_of};
ghost use Rattle.qcow2_metadata.specs.Pieces.{Stand};
ghost use Rattle.qcow2_metadata.specs.Refblock.{block_layout};

use super::RefBlock;
use crate::pieces::{PIECE_BYTES, Packed};

impl RefBlock {
    /// Stores the block as its bytes in an image. There must be as many as a cluster has.
    pub fn copy_to_bytes(&self, bytes: &mut [u8])
        requires { length bytes.old ≡ 2 ^ self.now.geometry.cluster_bits }
        ensures bytes { Stand ((block_layout self.now.geometry).bytes_of self.now.numbers) (length bytes.new)
            (image_of bytes.new) 0 }
        ensures numbers { (block_layout self.now.geometry).numbers_from (image_of bytes.new) 0
            ≡ self.now.numbers }
        ensures len { length bytes.new ≡ length bytes.old }
    {
        prove!(self.entries() > 0);
        let byte_count = bytes.len();
        for piece in 0..byte_count.div_ceil(PIECE_BYTES) {
            let first = PIECE_BYTES * piece;
            let end = byte_count.min(first + PIECE_BYTES);
            self.pack(piece, &mut bytes[first..end]);
        }
    }
}
