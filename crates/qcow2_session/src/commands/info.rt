//! The command `info`: what an image's header says.

ghost use Rattle.std.specs.Prelude.{◌≡◌, ◌+◌, ◌≤◌, ◌++◌, codes, length, option_map, string_bytes};
ghost use Rattle.std.specs.Fmt.{decimal};
ghost use Rattle.qcow2_session.specs.Commands.Info.{external_line, info_lines, name_line, place_line, place_lines, size_lines};
ghost use Rattle.qcow2_session.specs.Commands.Printing.{PrintsText};
ghost use Rattle.qcow2_session.specs.Lines.Output.{Gets, GoesOn};

use crate::lines::{LineBuffer, Output};
use qcow2_base::{Fault, HostOffset};
use qcow2_metadata::Header;
use std::io::Write;

/// Prints ten lines on a header: its version, the size of its clusters, of the guest's disk and of its
/// refcounts, where its tables lie, and its names.
///
/// A failed write to `out` is the storage fault.
pub fn print_info<O: Write>(header: &Header, out: &mut O) -> Result<(), Fault>
    ensures { PrintsText result (O.contents out.old) (O.contents out.new) (info_lines header.now) }
{
    let mut out = Output::new(out);
    print_header(header, &mut out);
    out.result()
}

#[tactic(auto, using(crate::proofs::OutputLemmas::goes_further))]
fn print_header<O: Write>(header: &Header, out: &mut Output<O>)
    ensures text { Gets O.contents out.old out.new (info_lines header.now) }
    ensures goes_on { GoesOn out.old out.new }
{
    out.print(sizes(header).as_bytes());
    out.print(places(header).as_bytes());
    print_name("backing", header.backing_filename(), out);
    print_name("format", header.backing_format(), out);
    out.print(external(header).as_bytes());
    print_name("data-file", header.external_data_filename(), out);
}

// The version, and the sizes of clusters, disk and refcounts.
fn sizes(header: &Header) -> LineBuffer
    ensures { result ≡ size_lines header.now }
{
    let mut line = LineBuffer::new();
    line.prepend("\n");
    line.prepend_decimal(u64::from(header.refcount_order()));
    line.prepend("\nrefcount-order ");
    line.prepend_decimal(header.size());
    line.prepend("\nsize ");
    line.prepend_decimal(u64::from(header.cluster_bits()));
    line.prepend("\ncluster-bits ");
    line.prepend_decimal(u64::from(header.version()));
    line.prepend("version ");
    line
}

// The places of the L1 table and the refcount table.
fn places(header: &Header) -> LineBuffer
    ensures { result ≡ place_lines header.now }
{
    let mut line = LineBuffer::new();
    prepend_place(
        &mut line,
        header.reftable_offset(),
        header.reftable_clusters().0,
    );
    line.prepend("refcount-table ");
    prepend_place(
        &mut line,
        header.l1_table_offset(),
        header.l1_table_entries() as u64,
    );
    line.prepend("l1 ");
    line
}

// Puts a table's offset and its number of entries or clusters in front of a line.
fn prepend_place(line: &mut LineBuffer, offset: HostOffset, count: u64)
    requires { length line.old ≤ 100 }
    ensures text { line.new ≡ place_line offset.0 count ++ line.old }
    ensures bound { length line.new ≤ length line.old + 40 }
{
    line.prepend("\n");
    line.prepend_decimal(count);
    line.prepend(" ");
    line.prepend_offset(offset.0);
}

// Whether guest data is in an external data file.
fn external(header: &Header) -> LineBuffer
    ensures { result ≡ external_line header.now }
{
    let mut line = LineBuffer::new();
    line.prepend(if header.external_data_file() {
        "external yes\n"
    } else {
        "external no\n"
    });
    line
}

// Prints the line of a name, or `none`.
fn print_name<O: Write>(label: &str, name: Option<&String>, out: &mut Output<O>)
    ensures text { Gets O.contents out.old out.new
        (name_line label.now (option_map (λ name. string_bytes name.now) name.entry)) }
    ensures goes_on { GoesOn out.old out.new }
{
    out.print(label.as_bytes());
    match name {
        Some(name) => print_text(name.as_str(), out),
        None => out.print(b" none\n"),
    }
}

// Prints the length of a text in bytes, and the text, each after a space.
fn print_text<O: Write>(text: &str, out: &mut Output<O>)
    ensures text { Gets O.contents out.old out.new
        (codes " " ++ decimal (length text.now) ++ codes " " ++ text.now ++ codes "\n") }
    ensures goes_on { GoesOn out.old out.new }
{
    let mut line = LineBuffer::new();
    line.prepend(" ");
    line.prepend_decimal(text.len() as u64);
    line.prepend(" ");
    out.print(line.as_bytes());
    out.print(text.as_bytes());
    out.print(b"\n");
}
