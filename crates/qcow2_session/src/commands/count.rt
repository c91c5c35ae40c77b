//! The command `count`: steps refcounts of one refcount block.

ghost use Rattle.std.specs.Prelude.{map, string_bytes};
ghost use Rattle.qcow2_metadata.specs.Refblock.{block_geometry_of, block_layout};
ghost use Rattle.qcow2_session.specs.Commands.Changing.{PrintsChange};
ghost use Rattle.qcow2_session.specs.Commands.Count.{end_of_steps, reply_line, step_of, count_command};
ghost use Rattle.qcow2_session.specs.Commands.Printing.{PrintsLast, run_over};
ghost use Rattle.qcow2_session.specs.Commands.Words.{Parses};

use super::Command;
use super::words::{Arguments, FromWord, number, parts};
use crate::lines::{LineBuffer, ToLine, print_lines};
use crate::{Step, StepReply, step_image};
use qcow2_base::{Device, Fault, HostCluster, Storage};
use qcow2_metadata::Header;
use qcow2_metadata::laws::every_header_is_valid;
use std::alloc::{AllocError, Global};
use std::io::Write;

/// Steps refcounts of the refcount block at a cluster, in an image with this header. Then prints for each
/// step `ok` and the refcount before it, or `refused`.
///
/// Returns the fault of the block's place, or of the first step whose index is past the block's end, before
/// any line and without changing a byte. A failed write to `out` is the storage fault: the block is written
/// by then. After a storage fault of the image the block may be partly or wholly written.
pub fn count_references<S: Storage, O: Write>(
    alloc: Global,
    image: &mut S,
    header: &Header,
    cluster: HostCluster,
    steps: &[Step],
    out: &mut O,
) -> Result<(), Fault>
    ensures counts { PrintsChange (run_over S.state O.contents result image.old image.new out.old out.new)
        (block_layout (block_geometry_of header.now)) (end_of_steps cluster steps.now header.now) }
    ensures last { PrintsLast (run_over S.state O.contents result image.old image.new out.old out.new) }
{
    // The proof of which bytes a refcount has needs a valid header.
    every_header_is_valid(header);
    let replies = step_image(alloc, image, header, cluster, steps)?;
    print_lines(replies.as_slice(), out)
}

// Does the same, and waits until the steps are on the device before it prints.
pub(super) fn count_and_wait<S: Device, O: Write>(
    alloc: Global,
    image: &mut S,
    header: &Header,
    cluster: HostCluster,
    steps: &[Step],
    out: &mut O,
) -> Result<(), Fault>
    ensures counts { PrintsChange (run_over S.state O.contents result image.old image.new out.old out.new)
        (block_layout (block_geometry_of header.now)) (end_of_steps cluster steps.now header.now) }
    ensures last { PrintsLast (run_over S.state O.contents result image.old image.new out.old out.new) }
{
    // The proof of which bytes a refcount has needs a valid header.
    every_header_is_valid(header);
    let replies = step_image(alloc, image, header, cluster, steps)?;
    image.sync()?;
    print_lines(replies.as_slice(), out)
}

/// The result of a step.
impl ToLine for StepReply {
    ghost text = { reply_line };

    fn put_in(&self, line: &mut LineBuffer) {
        line.clear();
        match *self {
            StepReply::Done(before) => {
                line.prepend("\n");
                line.prepend_decimal(before);
                line.prepend("ok ");
            }
            StepReply::Refused => line.prepend("refused\n"),
        }
    }
}

/// Parses the arguments of the command `count`.
pub(super) fn parse(alloc: Global, arguments: &[String]) -> Option<Result<Command, AllocError>>
    ensures { Parses result (count_command (map string_bytes arguments.now)) }
{
    let [cluster, words @ ..] = arguments else {
        return None;
    };
    let cluster = HostCluster(number(cluster.as_str())?);
    match Arguments::parse(alloc, words)? {
        Ok(steps) => Some(Ok(Command::Count { cluster, steps })),
        Err(error) => Some(Err(error)),
    }
}

impl FromWord for Step {
    ghost from_word = { step_of };

    fn from_word(word: &str) -> Option<Step> {
        let (name, index) = parts(word)?;
        match name {
            "inc" => Some(Step::Inc {
                index: number(index)? as usize,
            }),
            "dec" => Some(Step::Dec {
                index: number(index)? as usize,
            }),
            _ => None,
        }
    }
}
