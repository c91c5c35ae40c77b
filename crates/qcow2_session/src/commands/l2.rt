//! The command `l2`: lists one L2 table.

ghost use Rattle.std.specs.Prelude.{◌≡◌, ◌⊎◌, false, map, string_bytes, Err, IfSome};
ghost use Rattle.qcow2_base.specs.declared.fault.Fault.TheVariants.{NoMemory};
ghost use Rattle.qcow2_base.specs.Types.{IsClusterBits};
ghost use Rattle.qcow2_metadata.specs.Header.{geometry, geometry_of};
ghost use Rattle.qcow2_metadata.specs.Placed.{place_fault};
ghost use Rattle.qcow2_metadata.specs.Table.{l2_layout};
ghost use Rattle.qcow2_session.specs.Commands.L2.{cluster_bits_of, lines_of_l2_table, l2_command};
ghost use Rattle.qcow2_session.specs.Commands.Printing.{Prints, PrintsLast, run_over};
ghost use Rattle.qcow2_session.specs.Commands.Running.{IsNewHeader};
ghost use Rattle.qcow2_session.specs.Commands.Words.{Parses};

use super::Command;
use super::entries::{Label, print_entries};
use super::words::number;
use crate::load_l2_table;
use qcow2_base::{Fault, HostCluster, Storage};
use qcow2_metadata::Header;
use std::alloc::{AllocError, Global};
use std::io::Write;
use std::marker::Model;

/// The refcount order of the header with which the command reads a table. Nothing depends on it.
const REFCOUNT_ORDER: u32 = 4;

/// The cluster bits of a command line, from 9 to 21.
#[derive(Clone, Copy)]
pub struct ClusterBits {
    bits: u32,
}

impl Model for ClusterBits {
    ghost use Rattle.std.specs.Prelude.{ℕ};
    ghost use Rattle.qcow2_base.specs.Types.{IsClusterBits};

    ghost Value = { ℕ };

    ghost view = { λ number. number.bits };

    ghost inverse = { λ number. record { bits = number } };

    ghost invariant = { λ number. IsClusterBits number.bits };
}

impl ClusterBits {
    ghost use Rattle.qcow2_base.specs.Types.{IsClusterBits};

    /// Returns the number.
    pub fn get(self) -> u32
        ensures value { result ≡ self }
        ensures range { IsClusterBits result }
    {
        self.bits
    }

    // Parses a number from 9 to 21.
    fn parse(word: &str) -> Option<ClusterBits>
        ensures { result ≡ cluster_bits_of word.now }
    {
        match number(word)? {
            bits @ 9..=21 => Some(ClusterBits { bits: bits as u32 }),
            _ => None,
        }
    }
}

/// Lists the L2 table at a cluster: for each entry, except those left to the backing file, its index, a
/// space, and its mapping. Doesn't look at the image's own header.
///
/// Returns the fault of the table's place or of its first bad entry before any line; a failed write to
/// `out` is the storage fault. Changes no byte of the image.
pub fn list_l2_table<S: Storage, O: Write>(
    alloc: Global,
    image: &mut S,
    cluster_bits: u32,
    cluster: HostCluster,
    out: &mut O,
) -> Result<(), Fault>
    requires { IsClusterBits cluster_bits }
    ensures place { IfSome (place_fault (l2_layout (geometry cluster_bits false)) cluster)
        (λ fault. (result ≡ Err fault) ⊎ (result ≡ Err NoMemory)) }

    ensures prints { Prints (run_over S.state O.contents result image.old image.new out.old out.new)
        (lines_of_l2_table (geometry cluster_bits false) cluster) }
    ensures last { PrintsLast (run_over S.state O.contents result image.old image.new out.old out.new) }
    ensures unchanged { (S.state image.new).byte_at ≡ (S.state image.old).byte_at }
{
    let header = new_header(alloc, cluster_bits)?;
    print_l2_table(alloc, image, &header, cluster, out)
}

// Makes the header with which the command reads a table.
pub(super) fn new_header(alloc: Global, cluster_bits: u32) -> Result<Header, Fault>
    requires { IsClusterBits cluster_bits }
    ensures { IsNewHeader cluster_bits result }
{
    Header::new(alloc, cluster_bits, REFCOUNT_ORDER, None, None, None)
}

// Lists the L2 table at a cluster, with the cluster bits of a header.
pub(super) fn print_l2_table<S: Storage, O: Write>(
    alloc: Global,
    image: &mut S,
    header: &Header,
    cluster: HostCluster,
    out: &mut O,
) -> Result<(), Fault>
    ensures place { IfSome (place_fault (l2_layout (geometry_of header.now)) cluster)
        (λ fault. (result ≡ Err fault) ⊎ (result ≡ Err NoMemory)) }
    ensures prints { Prints (run_over S.state O.contents result image.old image.new out.old out.new)
        (lines_of_l2_table (geometry_of header.now) cluster) }
    ensures last { PrintsLast (run_over S.state O.contents result image.old image.new out.old out.new) }
    ensures unchanged { (S.state image.new).byte_at ≡ (S.state image.old).byte_at }
{
    let table = load_l2_table(alloc, image, header, cluster)?;
    print_entries(&table, 0, Label::Index, out)
}

/// Parses the arguments of the command `l2`.
pub(super) fn parse(arguments: &[String]) -> Option<Result<Command, AllocError>>
    ensures { Parses result (l2_command (map string_bytes arguments.now)) }
{
    let [cluster_bits, cluster] = arguments else {
        return None;
    };
    Some(Ok(Command::L2 {
        cluster_bits: ClusterBits::parse(cluster_bits.as_str())?,
        cluster: HostCluster(number(cluster.as_str())?),
    }))
}
