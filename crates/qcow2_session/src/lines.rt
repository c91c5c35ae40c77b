//! Lines that several commands print: mappings, and the items of lists.

ghost use Rattle.std.specs.Prelude.{◌≡◌, ◌+◌, ◌≤◌, ◌++◌, ℕ, List, flat_map, length};
ghost use Rattle.qcow2_metadata.specs.Entries.L2Mapping.{IsPlaced, meaning};
ghost use Rattle.qcow2_session.specs.Commands.Printing.{PrintsText};
ghost use Rattle.qcow2_session.specs.Lines.{copied_text, mapping_text, offset_text};

mod line_buffer;
mod output;

pub(crate) use line_buffer::LineBuffer;
pub(crate) use output::{Output, print, write_out};
use qcow2_base::Fault;
use qcow2_metadata::L2Mapping;
use std::io::Write;

/// A value that prints as one or more lines.
pub(crate) trait ToLine {
    /// The text, as bytes.
    ghost text: { Self → List ℕ };

    /// Puts the text in a line, in place of what the line has.
    fn put_in(&self, line: &mut LineBuffer)
        ensures { line.new ≡ text self.now };
}

/// Prints the lines of each item.
#[tactic(auto, using(crate::proofs::PrintingLemmas::lines_printed))]
pub(crate) fn print_lines<T: ToLine, O: Write>(items: &[T], out: &mut O) -> Result<(), Fault>
    ensures { PrintsText result (O.contents out.old) (O.contents out.new) (flat_map T.text items.now) }
{
    let mut line = LineBuffer::new();
    for item in items {
        item.put_in(&mut line);
        print(line.as_bytes(), out)?;
    }
    Ok(())
}

/// Puts a mapping in front of a line: its kind, its offset, and its length or whether it is copied.
pub(crate) fn prepend_mapping(line: &mut LineBuffer, mapping: &L2Mapping, cluster_bits: u32)
    requires placed { IsPlaced cluster_bits mapping.now }
    requires room { length line.old ≤ 100 }
    ensures text { line.new ≡ mapping_text cluster_bits (meaning mapping.now) ++ line.old }
    ensures bound { length line.new ≤ length line.old + 50 }
{
    match mapping {
        L2Mapping::DataFile {
            host_cluster,
            copied,
        } => {
            prepend_place(line, host_cluster.offset(cluster_bits).0, *copied);
            line.prepend("data ");
        }
        L2Mapping::Zero {
            host_cluster: Some(cluster),
            copied,
        } => {
            prepend_place(line, cluster.offset(cluster_bits).0, *copied);
            line.prepend("zero ");
        }
        L2Mapping::Zero {
            host_cluster: None,
            copied: _,
        } => line.prepend("zero"),
        L2Mapping::Compressed {
            host_offset,
            length,
        } => {
            line.prepend_decimal(length.get());
            line.prepend(" ");
            line.prepend_offset(host_offset.0);
            line.prepend("compressed ");
        }
        L2Mapping::Backing { backing_offset } => {
            line.prepend_offset(*backing_offset);
            line.prepend("backing ");
        }
    }
}

// Puts the offset of a cluster in front of a line, and ` copied` after it if the copied flag is set.
#[inline]
fn prepend_place(line: &mut LineBuffer, offset: u64, copied: bool)
    requires { length line.old ≤ 100 }
    ensures text { line.new ≡ offset_text offset ++ copied_text copied ++ line.old }
    ensures bound { length line.new ≤ length line.old + 25 }
{
    if copied {
        line.prepend(" copied");
    }
    line.prepend_offset(offset);
}
