//! A layout as an SVG picture.

ghost use Rattle.std.specs.Prelude.{◌≡◌, IsErrOf};
ghost use Rattle.qcow2_base.specs.Storage.{ReadsFor};
ghost use Rattle.qcow2_base.specs.declared.fault.Fault.TheVariants.{Storage as StorageFailed};
ghost use Rattle.qcow2_session.specs.Commands.Layout.Picture.{PrintsPicture, legend_end_text, legend_text, shape_line, shapes_text, squares_text};
ghost use Rattle.qcow2_session.specs.Commands.Printing.{PrintsLast, PrintsText, run_over};

use crate::lines::{LineBuffer, ToLine, print, print_lines};
use qcow2_base::{ClusterCount, Fault, Storage};
use qcow2_layout::{COLUMNS, Shape, picture_of};
use qcow2_metadata::Header;
use std::alloc::Global;
use std::io::Write;

// The text before the squares. A square is ten units wide and high, in the colour of its class.
const BEGIN: &str = "\
<svg xmlns='http://www.w3.org/2000/svg' width='704' height='784' viewBox='0 0 704 784'>
<title>Host clusters of a qcow2 image</title>
<style>
text{font:14px sans-serif}
.s0{fill:#eee}.s1{fill:#cfe1f2}.s2{fill:#b5d4e9}.s3{fill:#93c3df}.s4{fill:#6daed5}
.s5{fill:#4b97c9}.s6{fill:#2f7ebc}.s7{fill:#1864aa}.s8{fill:#0a4a90}
.s9{fill:#009e73}.s10{fill:#000}.s11{fill:#cc79a7}.s12{fill:#d55e00}
</style>
<rect width='704' height='784' fill='#fff'/>
<g transform='translate(32 32) scale(10)' shape-rendering='crispEdges'>
";

// The text after the squares, up to the number of clusters in a square.
const LEGEND: &str = "\
</g>
<g transform='translate(32 692)'>
<path class='s0' d='M0 0h14v14h-14z'/><text x='20' y='12'>free</text>
<path class='s9' d='M80 0h14v14h-14z'/><text x='100' y='12'>compressed data</text>
<path class='s10' d='M230 0h14v14h-14z'/><text x='250' y='12'>header, L1 and L2 tables</text>
<path class='s11' d='M430 0h14v14h-14z'/><text x='450' y='12'>refcounts</text>
<path class='s12' d='M540 0h14v14h-14z'/><text x='560' y='12'>leaked</text>
<path class='s1' d='M0 24h14v14h-14z'/><path class='s2' d='M14 24h14v14h-14z'/>
<path class='s3' d='M28 24h14v14h-14z'/><path class='s4' d='M42 24h14v14h-14z'/>
<path class='s5' d='M56 24h14v14h-14z'/><path class='s6' d='M70 24h14v14h-14z'/>
<path class='s7' d='M84 24h14v14h-14z'/><path class='s8' d='M98 24h14v14h-14z'/>
<text x='120' y='36'>data, from the start of the guest's disk to its end</text>
<text y='60'>each square has the colour of its most severe content; rows run from left to right</text>
<text y='84'>clusters in a square: ";

/// Prints the picture of an image with this header, of at most 200 kB. Returns the fault of `picture_of`
/// before it prints anything.
pub(super) fn print_picture<S: Storage, O: Write>(
    alloc: Global,
    image: &mut S,
    header: &Header,
    out: &mut O,
) -> Result<(), Fault>
    ensures prints { PrintsPicture (run_over S.state O.contents result image.old image.new out.old out.new)
        header.now }
    ensures last { PrintsLast (run_over S.state O.contents result image.old image.new out.old out.new) }
    ensures storage { ReadsFor (IsErrOf result StorageFailed) (S.state image.old) (S.state image.new) }
{
    let picture = picture_of(alloc, image, header)?;
    let shapes = picture.shapes(alloc)?;
    let cluster_size = ClusterCount(1).byte_size(header.cluster_bits());
    print_shapes(shapes.as_slice(), picture.scale(), cluster_size, out)
}

// Prints shapes whose squares stand for `scale` clusters of this size in bytes each.
fn print_shapes<O: Write>(
    shapes: &[Shape],
    scale: u64,
    cluster_size: u64,
    out: &mut O,
) -> Result<(), Fault>
    ensures { PrintsText result (O.contents out.old) (O.contents out.new)
        (shapes_text shapes.now scale cluster_size) }
{
    print_squares(shapes, out)?;
    print_legend(scale, cluster_size, out)
}

// Prints the text before the squares, and shapes.
fn print_squares<O: Write>(shapes: &[Shape], out: &mut O) -> Result<(), Fault>
    ensures { PrintsText result (O.contents out.old) (O.contents out.new) (squares_text shapes.now) }
{
    print(BEGIN.as_bytes(), out)?;
    print_lines(shapes, out)
}

// Prints the text after the squares.
fn print_legend<O: Write>(scale: u64, cluster_size: u64, out: &mut O) -> Result<(), Fault>
    ensures { PrintsText result (O.contents out.old) (O.contents out.new) (legend_text scale cluster_size) }
{
    print(LEGEND.as_bytes(), out)?;
    print(legend_end(scale, cluster_size).as_bytes(), out)
}

// The number of clusters in a square, their size in bytes, and the end of the picture.
fn legend_end(scale: u64, cluster_size: u64) -> LineBuffer
    ensures { result ≡ legend_end_text scale cluster_size }
{
    let mut line = LineBuffer::new();
    line.prepend("</text>\n</g>\n</svg>\n");
    line.prepend_decimal(cluster_size);
    line.prepend("; bytes in a cluster: ");
    line.prepend_decimal(scale);
    line
}

impl ToLine for Shape {
    ghost text = { shape_line };

    fn put_in(&self, line: &mut LineBuffer) {
        line.clear();
        line.prepend("z'/>\n");
        line.prepend_decimal(self.count as u64);
        line.prepend("v1h-");
        line.prepend_decimal(self.count as u64);
        line.prepend("h");
        line.prepend_decimal((self.first / COLUMNS) as u64);
        line.prepend(" ");
        line.prepend_decimal((self.first % COLUMNS) as u64);
        line.prepend("' d='M");
        line.prepend_decimal(u64::from(self.shade));
        line.prepend("<path class='s");
    }
}
