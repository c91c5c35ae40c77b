//! The commands of `qmeta`, parsed from the words of a command line.

ghost use Rattle.std.specs.Prelude.{◌≡◌, map, string_bytes};
ghost use Rattle.qcow2_session.specs.Commands as spec;
ghost use Rattle.qcow2_session.specs.Commands.Words.{Parses};

use crate::{Edit, Step};
use qcow2_base::{GuestOffset, HostCluster};
use qcow2_metadata::AcceptedFeatures;
use std::alloc::{AllocError, Global};

mod apply;
mod at;
mod check;
mod count;
mod edit;
mod entries;
mod explain;
mod help;
mod info;
mod l2;
mod layout;
mod list;
mod map;
mod program;
mod refcount;
mod report;
mod request;
mod running;
mod tables;
mod words;

pub use apply::{ApplyForm, DiskEdit, edit_disk};
pub use at::print_mapping_at;
pub use check::{CheckForm, check_image, check_image_in_json, repair_and_check_image};
pub use count::count_references;
pub use edit::edit_entries;
pub use explain::Question;
pub use help::HelpText;
use help::asks_for_help;
pub use info::print_info;
pub use l2::{ClusterBits, list_l2_table};
pub use layout::{LayoutForm, print_layout};
pub use list::list_tables;
pub use map::{ExtentFormat, print_extents};
pub use program::{run_request, run_words};
pub use qcow2_check::Verdict;
pub use qcow2_explain::locate_fault;
pub use refcount::print_counters;
pub use report::report_fault;
pub use request::Request;
pub use running::{run, run_on_file};
pub use tables::print_tables;
use words::alone;
pub use words::{Arguments, FileName};

/// A command, without the image that it is for.
#[derive(Drop)]
pub enum Command {
    /// `info IMAGE`: what the header says.
    Info,
    /// `list IMAGE`: what all L2 tables map.
    List,
    /// `map IMAGE`, or `map IMAGE json`: what the guest's disk reads as, extent by extent.
    Map {
        format: ExtentFormat,
    },
    /// `at IMAGE OFFSET`: what a guest offset reads as.
    At {
        guest_offset: GuestOffset,
    },
    /// `tables IMAGE`: where the header, the tables and the refcount blocks lie.
    Tables,
    /// `layout IMAGE`, or `layout IMAGE svg`: what each host cluster is, in runs or as a picture.
    Layout {
        form: LayoutForm,
    },
    /// `refcount IMAGE CLUSTER..`: the refcounts of host clusters.
    Refcount {
        clusters: Arguments<HostCluster>,
    },
    /// `check IMAGE`, or `check IMAGE json`: whether refcounts and copied flags are right. `check IMAGE
    /// repair`: repairs them first.
    Check {
        form: CheckForm,
    },
    /// `apply IMAGE EDIT..`: edits ranges of the guest's disk, refcounts included. `apply IMAGE plan
    /// EDIT..`: prints the same and writes nothing.
    Apply {
        form: ApplyForm,
        edits: Arguments<DiskEdit>,
    },
    /// `edit IMAGE L1INDEX EDIT..`: edits the L2 table that an L1 entry names.
    Edit {
        l1_index: usize,
        edits: Arguments<Edit>,
    },
    /// `count IMAGE CLUSTER STEP..`: steps refcounts of the refcount block at a cluster.
    Count {
        cluster: HostCluster,
        steps: Arguments<Step>,
    },
    /// `l2 IMAGE CLUSTER_BITS CLUSTER`: lists the L2 table at a cluster.
    L2 {
        cluster_bits: ClusterBits,
        cluster: HostCluster,
    },
}

impl Command {
    /// Parses a command's name, the image's name and the words after it. Returns nothing if they are no
    /// command. `--help` or `-h` alone after the name is an image's name for `info`, `list`, `at`, `edit`,
    /// `count` and `l2`; after other names it asks for help, which is no command. Fails only if memory for
    /// the command runs out.
    pub fn parse(
        alloc: Global,
        name: &str,
        image: &str,
        arguments: &[String],
    ) -> Option<Result<Command, AllocError>>
        ensures { Parses result (spec.command_by_name name.now image.now (map string_bytes arguments.now)) }
    {
        if arguments.is_empty() && asks_for_help(name, image) {
            return None;
        }
        Command::parse_named(alloc, name, image, arguments)
    }

    // Does the same for any name of an image, `--help` and `-h` included.
    fn parse_named(
        alloc: Global,
        name: &str,
        image: &str,
        arguments: &[String],
    ) -> Option<Result<Command, AllocError>>
        ensures { Parses result (spec.named_command name.now image.now (map string_bytes arguments.now)) }
    {
        match name {
            "info" => alone(Command::Info, arguments),
            "list" => alone(Command::List, arguments),
            "map" => map::parse(arguments),
            "at" => at::parse(arguments),
            "tables" => alone(Command::Tables, arguments),
            "layout" => layout::parse(arguments),
            "refcount" => refcount::parse(alloc, arguments),
            "check" => check::parse(alloc, image, arguments),
            "apply" => apply::parse(alloc, arguments),
            "edit" => edit::parse(alloc, arguments),
            "count" => count::parse(alloc, arguments),
            "l2" => l2::parse(arguments),
            _ => None,
        }
    }

    /// Whether the command may change its image.
    pub fn changes_image(&self) -> bool
        ensures { result ≡ (spec.facts_of self.now).changes_image }
    {
        matches!(
            self,
            Command::Edit { .. }
                | Command::Count { .. }
                | Command::Check {
                    form: CheckForm::Repair
                }
                | Command::Apply {
                    form: ApplyForm::Make,
                    ..
                }
        )
    }

    /// Whether the command reads all tables of its image. From a file it reads them in pages.
    pub fn reads_all_tables(&self) -> bool
        ensures { result ≡ (spec.facts_of self.now).reads_all_tables }
    {
        matches!(
            self,
            Command::List | Command::Map { .. } | Command::Layout { .. } | Command::Check { .. }
        )
    }

    /// The incompatible features with which the command accepts an image, beside the external data file.
    pub fn accepted_features(&self) -> AcceptedFeatures
        ensures { result ≡ (spec.facts_of self.now).accepts }
    {
        match self {
            Command::Map { .. }
            | Command::Tables
            | Command::Layout { .. }
            | Command::Refcount { .. }
            | Command::Check { .. }
            | Command::Apply { .. } => AcceptedFeatures::each(),
            _ => AcceptedFeatures::none(),
        }
    }

    // Whether the command loads its header for writing. A repair writes only once it knows that it can
    // repair the image.
    fn loads_to_write(&self) -> bool
        ensures { result ≡ (spec.facts_of self.now).loads_to_write }
    {
        matches!(self, Command::Edit { .. } | Command::Count { .. })
    }
}
