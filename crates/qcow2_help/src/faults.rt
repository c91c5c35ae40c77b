//! The texts of `explain`: for each fault the rule that is broken, its usual causes, and what helps.

ghost use Rattle.std.specs.Prelude.{◌≡◌, ◌<◌};
ghost use Rattle.qcow2_base.specs.Fault.{fault_number};
ghost use Rattle.qcow2_help.specs.FaultTexts.{fault_text};

use qcow2_base::Fault;

const NOT_QCOW2: &str = "\
fault 1, NotQcow2: A qcow2 image begins with the four bytes 51 46 49 fb.
The file is of another format, or its first bytes are damaged.
`qemu-img info` prints the format; if that was qcow2 once, restore the first cluster from a copy.
";

const VERSION: &str = "\
fault 2, Version: The version in bytes 4 to 7 of the header must be 2 or 3.
The image has version 1, or its first bytes are damaged.
`qemu-img info` prints the format; convert an old image by `qemu-img convert -O qcow2`, else restore
the first cluster from a copy.
";

const CLUSTER_SIZE: &str = "\
fault 3, ClusterSize: The field cluster_bits of the header must be 9 to 21.
The header is damaged, or no qcow2 program wrote it.
Restore the first cluster from a copy of the same state.
";

const HEADER_SHORT: &str = "\
fault 4, HeaderShort: The field header_length must be at least 104.
The header is damaged, or no qcow2 program wrote it.
Restore the first cluster from a copy of the same state.
";

const HEADER_BIG: &str = "\
fault 5, HeaderBig: The header must end within the first cluster.
The field header_length is damaged.
Restore the first cluster from a copy of the same state.
";

const L1_UNALIGNED: &str = "\
fault 6, L1Unaligned: The offset of the L1 table must be a multiple of the cluster size.
The header is damaged: it names the place of another table, or its cluster size is wrong.
Restore the first cluster from a copy of the same state.
";

const REFTABLE_UNALIGNED: &str = "\
fault 7, ReftableUnaligned: The offset of the refcount table must be a multiple of the cluster size.
The header is damaged: it names the place of another table, or its cluster size is wrong.
Restore the first cluster from a copy of the same state.
";

const REFCOUNT_WIDTH: &str = "\
fault 8, RefcountWidth: The field refcount_order must be at most 6.
The header is damaged, or no qcow2 program wrote it.
Restore the first cluster from a copy of the same state.
";

const BACKING_NAME_LONG: &str = "\
fault 9, BackingNameLong: The name of the backing file must have at most 1023 bytes.
The fields of the backing file in the header are damaged.
Restore the first cluster from a copy of the same state.
";

const BACKING_NAME_PLACE: &str = "\
fault 10, BackingNamePlace: The name of the backing file must end within the first cluster.
The fields of the backing file in the header are damaged.
Restore the first cluster from a copy of the same state.
";

const BACKING_NAME_TEXT: &str = "\
fault 11, BackingNameText: The name of the backing file must be UTF-8.
The name is damaged, or was written in another encoding, such as Latin-1.
Give the image a name in UTF-8 by `qemu-img rebase -u -b NAME -F FORMAT IMAGE`.
";

const EXTENSIONS_EXCEED: &str = "\
fault 12, ExtensionsExceed: The header extensions must end within the first cluster.
The length of an extension is damaged.
Restore the first cluster from a copy of the same state.
";

const EXTENSION_TEXT: &str = "\
fault 13, ExtensionText: The backing format and the data file's name in header extensions must be UTF-8.
An extension is damaged, or a name was written in another encoding.
Restore the first cluster from a copy of the same state.
";

const FEATURE_NAME_CUT: &str = "\
fault 14, FeatureNameCut: An entry of the feature name table must have at least its type and its bit.
The extension that names features is damaged, or its length is.
Restore the first cluster from a copy of the same state.
";

const FORMAT_CONFLICT: &str = "\
fault 15, FormatConflict: All header extensions of the backing format must hold the same name.
A program added an extension and left the old one.
Write the format anew by `qemu-img rebase -u -b NAME -F FORMAT IMAGE`.
";

const DATA_FILE_CONFLICT: &str = "\
fault 16, DataFileConflict: All header extensions of the external data file must hold the same name.
A program added an extension and left the old one.
Restore the first cluster from a copy of the same state.
";

const INCOMPATIBLE: &str = "\
fault 17, Incompatible: Each incompatible feature of the image must be one that the command accepts.
The image was left dirty (bit 0x1) or corrupt (0x2) or has zstd compression (0x8), which `info`, `list`,
`at`, `edit` and `count` refuse; or has a feature that `qmeta` doesn't read, such as subclusters (0x10).
Run `qmeta check IMAGE repair` on a dirty or corrupt image; copy any other, without its snapshots, by
`qemu-img convert -O qcow2 IMAGE NEW`, with `-B NAME -F FORMAT` if it has a backing file.
";

const ENTRY_RESERVED: &str = "\
fault 18, EntryReserved: The reserved bits of a table entry must be 0.
The table is damaged, or something else was written over it.
`qmeta explain 18 IMAGE` names the entry. Restore its table from a copy, or write 0 over the entry. If
that is in an L1 or L2 table, `qmeta check` then prints as `leaked` the clusters that it named, and
`qemu-img check -r leaks` gives them up. If it is in the refcount table, run `qemu-img check -r all`.
";

const ENTRY_UNALIGNED: &str = "\
fault 19, EntryUnaligned: The offset in a table entry must be a multiple of the cluster size.
The table is damaged, or something else was written over it.
`qmeta explain 19 IMAGE` names the entry. Restore its table from a copy, or write 0 over the entry. If
that is in an L1 or L2 table, `qmeta check` then prints as `leaked` the clusters that it named, and
`qemu-img check -r leaks` gives them up. If it is in the refcount table, run `qemu-img check -r all`.
";

const TABLE_TOO_BIG: &str = "\
fault 20, TableTooBig: A table must have at most as many entries as its kind allows.
The header is damaged: its count of L1 entries, or of the refcount table's clusters.
Restore the first cluster from a copy of the same state.
";

const TABLE_PLACE: &str = "\
fault 21, TablePlace: A table or a refcount block must end at or below offset 2^56.
An offset in the header or in a table is damaged, or a CLUSTER on the command line is too large. Or the
file was cut short: `apply` and `check IMAGE repair` also refuse a table or block with a cluster past the
end of the file, which reads as zeros, so that a repair would free all that the real one names.
`qmeta explain 21 IMAGE` names the table. Restore the image, or the damaged header or table, from a copy;
without one, save what can be read by `qemu-img convert -O qcow2 IMAGE NEW`. If the L1 table is past the
end of the file, `qemu-img check` may find no error, and `qemu-img convert` copies an empty disk.
";

const NO_OFFSET: &str = "\
fault 22, NoOffset: A table or a refcount block that is written must have a cluster.
A program that calls the library didn't give it one; `qmeta` always does.
Tell whoever wrote that program.
";

const NOT_PLACED: &str = "\
fault 23, NotPlaced: A table or a refcount block that is referred to must have a cluster.
`edit` or `apply` was asked to change a range without an L2 table, or `apply` to map a cluster that
no refcount block counts.
Let the guest write there first, or map another cluster. Without a backing file, a range without an L2
table already reads as zeros.
";

const HEADER_TOO_LONG: &str = "\
fault 24, HeaderTooLong: The header with its names must fit the first cluster.
`edit`, `count` or a repair must clear autoclear bits, and so writes the header anew, which makes it longer.
Shorten the backing file's name by `qemu-img rebase -u -b NAME -F FORMAT IMAGE`.
";

const NAME_TOO_LONG: &str = "\
fault 25, NameTooLong: A name that is set for the backing file must have at most 1023 bytes.
A program that calls the library set a longer one; `qmeta` sets none.
Tell whoever wrote that program.
";

const FIELD_CHANGED: &str = "\
fault 26, FieldChanged: The header must not change while a program has the image open.
Another program changed the header while a program that calls the library had the image open; `qmeta`
doesn't look.
Let one program alone write to the image.
";

const VERSION_NEEDED: &str = "\
fault 27, VersionNeeded: Zero clusters need an image of version 3.
`apply` was asked for `zero` or `keep` in an image of version 2.
Use `discard` where there is no backing file, or first run `qemu-img amend -o compat=1.1 IMAGE`.
";

const CANNOT_GROW: &str = "\
fault 28, CannotGrow: A table that grows must have at most as many entries as its kind allows.
A program that calls the library asked for more; `qmeta` makes no table longer.
Tell whoever wrote that program.
";

const TOO_MANY: &str = "\
fault 29, TooMany: A count of entries or clusters must fit the 32 bits of its header field.
A program that calls the library set a greater one; `qmeta` sets none.
Tell whoever wrote that program.
";

const COUNTER_RANGE: &str = "\
fault 30, CounterRange: A refcount must be from 0 to the greatest number that its bits can hold.
A refcount is too low already, or a cluster has more references than its refcount can hold.
Run `qmeta check IMAGE`; if a repair ends in this fault, copy the image by `qemu-img convert -O qcow2
IMAGE NEW`.
";

const WRONG_LENGTH: &str = "\
fault 31, WrongLength: A buffer must have the length of the structure in it.
A program that calls the library gave another one; `qmeta` always gives the right one.
Tell whoever wrote that program.
";

const BAD_EDIT: &str = "\
fault 32, BadEdit: Each edit must name entries that exist, and a cluster that an entry can hold.
An INDEX or a range is past the end, an OFFSET or LENGTH is no multiple of the cluster size, a LENGTH
is 0, or a cluster to map isn't free, is past the end of the file or has too large a number.
No edit was made. `qmeta info` prints the size of the disk and of a cluster, and `qmeta refcount` prints
0 for a free cluster.
";

const BAD_STEP: &str = "\
fault 33, BadStep: Each step must name a refcount of the refcount block.
An INDEX is past the end of the block.
No step was made. A block has 2^(cluster-bits + 3 - refcount-order) refcounts; `qmeta info` prints both
numbers.
";

const STORAGE: &str = "\
fault 34, Storage: The system must open, read and write the file, and write the output, without an error.
The file is missing, is a directory or may not be opened; or a read, a write, an fsync or the output
failed, for example because the disk is full or a pipe was closed.
`qmeta explain 34 IMAGE` prints the system's error if the file can't be opened. Look at the path, its
permissions, the disk's space and the output; after a failed write run `qmeta check IMAGE`.
";

const NO_MEMORY: &str = "\
fault 35, NoMemory: The system must have the memory that a command asks for.
The machine or its limits have too little for the tables of this image.
Try again with more memory. Nothing was changed, except that `edit` and `count` may have written the header
anew, and a repair may have made some or all of its steps.
";

const EXTERNAL_DATA: &str = "\
fault 36, ExternalData: The image must have no external data file, whose clusters have no refcounts.
`apply` was asked to edit an image with an external data file.
Use `qmeta edit`, which changes no refcount.
";

const UNCOUNTED: &str = "\
fault 37, Uncounted: The image must have no snapshots, no bitmaps in use, and no keys of LUKS at an \
unknown place, since their references aren't counted.
`check`, its repair or `layout` was asked of an image that has one of them, or its header is damaged.
Bitmaps are in use if their autoclear bit is set. One header extension must tell the place of the keys, which
version 2 doesn't have.
Run `qemu-img check`, which counts them; for LUKS give it `--object secret,id=K,file=F --image-opts
driver=qcow2,file.filename=IMAGE,encrypt.key-secret=K`. If the header is damaged, restore it from a
copy.
";

const OVERLAP: &str = "\
fault 38, Overlap: The header, a table or a refcount block must not share its cluster.
An entry that also names this cluster is damaged, or something was written over the table or block. A
repair can't know which.
`qmeta explain 38 IMAGE` names the cluster; `qmeta tables` and `qmeta list` print what refers to it.
Restore the image from a copy, or save what can be read by `qemu-img convert -O qcow2 IMAGE NEW`.
";

const IN_USE: &str = "\
fault 39, InUse: No other process may have the image open while it is changed.
A virtual machine, one of QEMU's programs or another `qmeta` has the image open. If it opened the image
during the change, the writes up to then stay, as after a crash. Or `qmeta` can't tell and has changed
nothing: the system's list of locks, /proc/locks, is missing or doesn't have the file's locks.
End that program; `fuser -v IMAGE` names it. Then run `qmeta check IMAGE`. If the list is missing, make sure
that nobody has the image open, and set QMETA_NO_LOCK_LIST=allow in the environment.
";

const SHARED: &str = "\
fault 40, Shared: An L2 table that `apply` edits must have one reference, and its L1 entry must say so.
A snapshot shares the table, or its refcount or copied flag is wrong.
If the image has snapshots, let the guest write to the table's range first, or delete the snapshots;
else run `qmeta check IMAGE repair`.
";

const L1_SHORT: &str = "\
fault 41, L1Short: The L1 table must have an entry for each part of the disk, as the header's size says.
The header is damaged: its size, l1_size or cluster bits. A change could free clusters that are in use.
Restore the header from a copy; `qmeta explain 41 IMAGE` says how many entries there are and how many
the disk needs.
";

const MARKED: &str = "\
fault 42, Marked: An image that is changed must not be marked `dirty` or `corrupt`.
A program was stopped before it had written all refcounts, or it found damage. A change could free clusters
that are in use.
Run `qmeta check IMAGE repair`: it clears both marks if nothing stays wrong. If clusters stay `missing`, run
`qemu-img check -r all`, which adds refcount blocks. If the repair is refused, `qmeta explain` says why.
";

/// Returns the help of a fault: its number and name, the rule of the format or of a call that is broken, its
/// usual causes, and what helps. Ignores what the fault carries.
#[tactic(auto, unfolding(crate::specs::FaultTexts::fault_text))]
pub fn fault_help(fault: &Fault) -> &'static str
    ensures { result.now ≡ fault_text fault.now }
{
    match fault {
        Fault::NotQcow2 => NOT_QCOW2,
        Fault::Version => VERSION,
        Fault::ClusterSize => CLUSTER_SIZE,
        Fault::HeaderShort => HEADER_SHORT,
        Fault::HeaderBig => HEADER_BIG,
        Fault::L1Unaligned => L1_UNALIGNED,
        Fault::ReftableUnaligned => REFTABLE_UNALIGNED,
        Fault::RefcountWidth => REFCOUNT_WIDTH,
        Fault::BackingNameLong => BACKING_NAME_LONG,
        Fault::BackingNamePlace => BACKING_NAME_PLACE,
        Fault::BackingNameText => BACKING_NAME_TEXT,
        Fault::ExtensionsExceed => EXTENSIONS_EXCEED,
        Fault::ExtensionText => EXTENSION_TEXT,
        Fault::FeatureNameCut => FEATURE_NAME_CUT,
        Fault::FormatConflict => FORMAT_CONFLICT,
        Fault::DataFileConflict => DATA_FILE_CONFLICT,
        Fault::Incompatible(_) => INCOMPATIBLE,
        Fault::EntryReserved => ENTRY_RESERVED,
        Fault::EntryUnaligned => ENTRY_UNALIGNED,
        Fault::TableTooBig => TABLE_TOO_BIG,
        Fault::TablePlace => TABLE_PLACE,
        Fault::NoOffset => NO_OFFSET,
        Fault::NotPlaced => NOT_PLACED,
        _ => later_fault_help(fault),
    }
}

// `fault_help` for faults from 24 on.
#[tactic(auto, unfolding(crate::specs::FaultTexts::fault_text))]
fn later_fault_help(fault: &Fault) -> &'static str
    requires { 23 < fault_number fault.now }
    ensures { result.now ≡ fault_text fault.now }
{
    match fault {
        Fault::HeaderTooLong => HEADER_TOO_LONG,
        Fault::NameTooLong => NAME_TOO_LONG,
        Fault::FieldChanged(_) => FIELD_CHANGED,
        Fault::VersionNeeded => VERSION_NEEDED,
        Fault::CannotGrow => CANNOT_GROW,
        Fault::TooMany => TOO_MANY,
        Fault::CounterRange => COUNTER_RANGE,
        Fault::WrongLength => WRONG_LENGTH,
        Fault::BadEdit(_) => BAD_EDIT,
        Fault::BadStep(_) => BAD_STEP,
        Fault::Storage => STORAGE,
        Fault::NoMemory => NO_MEMORY,
        Fault::ExternalData => EXTERNAL_DATA,
        Fault::Uncounted(_) => UNCOUNTED,
        Fault::Overlap => OVERLAP,
        Fault::InUse => IN_USE,
        Fault::Shared(_) => SHARED,
        Fault::L1Short => L1_SHORT,
        Fault::Marked => MARKED,
        _ => "",
    }
}
