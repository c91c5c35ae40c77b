//! The command `at`: what a guest offset reads as.

ghost use Rattle.std.specs.Prelude.{◌≡◌, map, string_bytes};
ghost use Rattle.qcow2_session.specs.Commands.At.{line_at, at_command};
ghost use Rattle.qcow2_session.specs.Commands.Printing.{Prints, PrintsLast, run_over};
ghost use Rattle.qcow2_session.specs.Commands.Words.{Parses};

use super::Command;
use super::words::number;
use crate::lines::{LineBuffer, prepend_mapping, print};
use crate::lookup_with_header;
use qcow2_base::{Fault, GuestOffset, Storage};
use qcow2_metadata::Header;
use std::alloc::{AllocError, Global};
use std::io::Write;

/// Prints what the cluster of a guest offset reads as, in an image with this header. The offset may be past
/// the disk's end.
///
/// Returns the fault of the L1 table, or else of the L2 table, before the line; a failed write to `out` is
/// the storage fault. Changes no byte of the image.
pub fn print_mapping_at<S: Storage, O: Write>(
    alloc: Global,
    image: &mut S,
    header: &Header,
    guest_offset: GuestOffset,
    out: &mut O,
) -> Result<(), Fault>
    ensures prints { Prints (run_over S.state O.contents result image.old image.new out.old out.new)
        (line_at header.now guest_offset.0) }
    ensures last { PrintsLast (run_over S.state O.contents result image.old image.new out.old out.new) }
    ensures unchanged { (S.state image.new).byte_at ≡ (S.state image.old).byte_at }
{
    let mapping = lookup_with_header(alloc, image, header, guest_offset)?;
    let mut line = LineBuffer::new();
    line.prepend("\n");
    prepend_mapping(&mut line, &mapping, header.cluster_bits());
    print(line.as_bytes(), out)
}

/// Parses the arguments of the command `at`.
pub(super) fn parse(arguments: &[String]) -> Option<Result<Command, AllocError>>
    ensures { Parses result (at_command (map string_bytes arguments.now)) }
{
    let [guest_offset] = arguments else {
        return None;
    };
    let guest_offset = GuestOffset(number(guest_offset.as_str())?);
    Some(Ok(Command::At { guest_offset }))
}
