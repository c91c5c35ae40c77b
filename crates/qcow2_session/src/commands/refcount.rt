//! The command `refcount`: the refcounts of host clusters.

ghost use Rattle.std.specs.Prelude.{◌≡◌, map, string_bytes};
ghost use Rattle.qcow2_check.specs.Counters.{IsReftableFault};
ghost use Rattle.qcow2_metadata.specs.Results.{Reads};
ghost use Rattle.qcow2_session.specs.Commands.Printing.{Prints, PrintsLast, run_over};
ghost use Rattle.qcow2_session.specs.Commands.Refcount.{cluster_of_word, counted_cluster_line, counted_clusters, counter_lines, refcount_command};
ghost use Rattle.qcow2_session.specs.Commands.Words.{Parses};

use super::Command;
use super::words::{Arguments, FromWord, number};
use crate::lines::{LineBuffer, ToLine, print_lines};
use qcow2_base::{Fault, HostCluster, Storage};
use qcow2_check::Counters;
use qcow2_metadata::Header;
use std::alloc::{AllocError, Global};
use std::io::Write;

/// A host cluster and its refcount.
#[derive(Clone, Copy)]
pub(super) struct CountedCluster {
    cluster: HostCluster,
    counter: u64,
}

/// Prints the refcounts of host clusters in an image with this header, in the order given: the cluster, a
/// space, and its refcount, which is 0 if no block counts the cluster.
///
/// Returns the fault of the refcount table, and then 21 if a block that it names would end past 2^56. Each
/// fault comes before any line; a failed write to `out` is the storage fault. Changes no byte of the image.
pub fn print_counters<S: Storage, O: Write>(
    alloc: Global,
    image: &mut S,
    header: &Header,
    clusters: &[HostCluster],
    out: &mut O,
) -> Result<(), Fault>
    ensures prints { Prints (run_over S.state O.contents result image.old image.new out.old out.new)
        (counter_lines header.now clusters.now) }
    ensures last { PrintsLast (run_over S.state O.contents result image.old image.new out.old out.new) }
    ensures unchanged { (S.state image.new).byte_at ≡ (S.state image.old).byte_at }
{
    let counted = counted_clusters(alloc, image, header, clusters)?;
    print_lines(counted.as_slice(), out)
}

// Returns each cluster with its refcount.
fn counted_clusters<S: Storage>(
    alloc: Global,
    image: &mut S,
    header: &Header,
    clusters: &[HostCluster],
) -> Result<Vec<CountedCluster>, Fault>
    ensures { Reads (λ counted. counted.items) result (counted_clusters header.now clusters.now)
        (IsReftableFault header.now) (S.state image.old) (S.state image.new) }
{
    let mut counters = Counters::new(alloc, image, header)?;
    let mut counted = Vec::with_capacity(alloc, clusters.len())?;
    for cluster in clusters {
        let counter = counters.get(image, *cluster)?;
        counted.push(CountedCluster {
            cluster: *cluster,
            counter,
        })?;
    }
    Ok(counted)
}

impl ToLine for CountedCluster {
    ghost text = { counted_cluster_line };

    fn put_in(&self, line: &mut LineBuffer) {
        line.clear();
        line.prepend("\n");
        line.prepend_decimal(self.counter);
        line.prepend(" ");
        line.prepend_decimal(self.cluster.0);
    }
}

/// Parses the arguments of the command `refcount`.
pub(super) fn parse(alloc: Global, arguments: &[String]) -> Option<Result<Command, AllocError>>
    ensures { Parses result (refcount_command (map string_bytes arguments.now)) }
{
    if arguments.is_empty() {
        return None;
    }
    match Arguments::parse(alloc, arguments)? {
        Ok(clusters) => Some(Ok(Command::Refcount { clusters })),
        Err(error) => Some(Err(error)),
    }
}

impl FromWord for HostCluster {
    ghost from_word = { cluster_of_word };

    fn from_word(word: &str) -> Option<HostCluster> {
        Some(HostCluster(number(word)?))
    }
}
