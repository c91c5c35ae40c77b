//! The texts of `help` and `version`.

ghost use Rattle.std.specs.Prelude.{◌≡◌, option_map};
ghost use Rattle.qcow2_help.specs.CommandTexts.{command_text, commands_text, version_text};

const COMMANDS: &str = "\
qmeta reads, checks, repairs and edits the metadata of qcow2 disk images: header, mapping tables, refcounts.

  info IMAGE                      the main fields of the header
  list IMAGE                      the mapping of each mapped guest cluster
  map IMAGE [json]                the mapping of the whole disk, extent by extent
  at IMAGE OFFSET                 the mapping of one guest offset
  tables IMAGE                    the places of the header, tables and refcount blocks
  layout IMAGE [svg]              the content of each host cluster, in runs or as a picture
  refcount IMAGE CLUSTER..        the refcounts of host clusters
  check IMAGE [json]              whether refcounts and copied flags match the references
  check IMAGE repair              correct them, and check the result
  apply IMAGE [plan] EDIT..       change what ranges of the disk read as, with all refcounts
  edit IMAGE L1INDEX EDIT..       change entries of one L2 table, and no refcount
  count IMAGE CLUSTER STEP..      change refcounts of one refcount block
  l2 IMAGE CLUSTER_BITS CLUSTER   list one L2 table, whatever the header says
  help [COMMAND]                  this text, or the output, statuses and faults of a command
  COMMAND --help                  the same as help COMMAND, except after info, list, at, edit, count and l2
  explain [N]                     the meaning of fault N and a remedy, or all faults
  explain N IMAGE                 the same, and its place in the image
  version                         the version of this program

Begin with `qmeta info disk.qcow2` and `qmeta check disk.qcow2`: both only read.
After `qmeta: fault N`, `qmeta explain N IMAGE` says what is wrong, where in the image, and what helps.
The status is 0 for success, 1 for a fault, 2 for a usage error. `check` also has 3 and 4.
Any command may end in fault 34 (a failed system call) or 35 (no memory).
";

const VERSION: &str = "\
qmeta 0.1.0
proved with rattle-kit-13f logic dac8208d650f15bf
";

const INFO: &str = "\
qmeta info IMAGE

Prints the header's main fields in ten lines: version, cluster-bits, size, refcount-order, l1, refcount-table,
backing, format, external, data-file. A cluster has 2^cluster-bits bytes. Only reads. An IMAGE may have any
name, also `--help`.

Status 0: printed. 1: a fault. Faults: 34 if the file can't be opened or read, 1 to 17 of the header.

  $ qmeta info disk.qcow2
";

const LIST: &str = "\
qmeta list IMAGE

Prints a line for each guest cluster that the image maps: its guest offset, and one of `data OFFSET`, `zero`,
`zero OFFSET`, `compressed OFFSET LENGTH`. ` copied` means that the copied flag is set: the cluster has one
reference. Only reads. An IMAGE may have any name, also `--help`.

Status 0: printed. 1: a fault; lines before it stay. Faults: those of `info`, and 18 to 21 of the L1 table or
of an L2 table.

  $ qmeta list disk.qcow2 | head
";

const MAP: &str = "\
qmeta map IMAGE
qmeta map IMAGE json

Prints the mapping of the whole disk in extents: guest offset, length, and one of `data OFFSET`, `zero`,
`zero OFFSET`, `compressed`, `backing`. The last is what the backing file has there, or zeros without one.
Numbers are hexadecimal. With `json` it prints a list of objects as `qemu-img map --output=json` does. Only
reads.

Status 0: printed. 1: a fault; extents before it stay. Faults: those of `list`.

  $ qmeta map disk.qcow2
";

const AT: &str = "\
qmeta at IMAGE OFFSET

Prints the mapping of the guest cluster that has the guest offset OFFSET: as `list` prints it, or
`backing OFFSET` for what the backing file has there, or zeros without one. OFFSET is decimal; a shell turns
hexadecimal into it by $((0x20100000)). Only reads. An IMAGE may have any name, also `--help`.

Status 0: printed. 1: a fault. Faults: those of `info`, and 18 to 21 of the L1 table or of the L2 table.

  $ qmeta at disk.qcow2 $((0x20100000))
";

const TABLES: &str = "\
qmeta tables IMAGE

Prints the place of each table by host clusters: `header 0 1`, `l1 FIRST COUNT`, `encryption-header FIRST
COUNT` if there are keys of LUKS, `l2 L1INDEX CLUSTER OFFSET LENGTH COUNTER` for each L2 table, with the range
of the disk that it maps and its refcount, `refcount-table FIRST COUNT`, and `refcount-block INDEX CLUSTER
FIRST` for each block, with the first cluster that it counts. `edit` takes the L1INDEX, `l2` the CLUSTER of an
`l2` line, `count` that of a `refcount-block` line. It reads no L2 table, so it notices no damage there. Only
reads.

Status 0: printed. 1: a fault, and no line. Faults: those of `info`, and 18 to 21 of the L1 table or of the
refcount table.

  $ qmeta tables disk.qcow2
";

const LAYOUT: &str = "\
qmeta layout IMAGE
qmeta layout IMAGE svg

Prints the content of each host cluster, from 0 to the last one in use, in lines `FIRST COUNT PART`. PART is
one of `header`, `l1`, `l2`, `refcount-table`, `refcount-block`, `encryption-header` with the keys of LUKS,
`data OFFSET` with the guest offset of the first cluster, `compressed`, `leaked`, `free`. A cluster with
several references is printed once: as the first of `header`, `l1`, `refcount-table`, `encryption-header`,
`refcount-block`, `l2` that applies, else as the content of the lowest guest offset. With `svg` it prints a
picture with a legend, of at most 200 kB, for a browser. Only reads.

Status 0: printed. 1: a fault; only 34 and 35 come after a line. Faults: those of `check` without `repair`.

  $ qmeta layout disk.qcow2 svg > disk.svg
";

const REFCOUNT: &str = "\
qmeta refcount IMAGE CLUSTER..

Prints a line for each host cluster: CLUSTER, a space, and its refcount, which is 0 if no block counts it. A
CLUSTER is decimal: the OFFSET that other commands print, divided by 2^cluster-bits. Only reads.

Status 0: printed. 1: a fault, and no line. Faults: those of `info`, and 18 to 21 of the refcount table.

  $ qmeta refcount disk.qcow2 8 9
";

const CHECK: &str = "\
qmeta check IMAGE
qmeta check IMAGE json
qmeta check IMAGE repair

Compares the refcount of each host cluster with its references, and each copied flag with the refcount. It
prints a line for each error, and last `consistent`, or how many clusters and flags there are of each kind:

  leaked FIRST COUNT COUNTER USES   COUNT clusters from FIRST on: refcount COUNTER, fewer references, USES
  missing FIRST COUNT COUNTER USES  more references than the refcount: a program may overwrite the clusters
  shared FIRST COUNT COUNTER USES   the header, a table or a refcount block is there, and something else too
  past FIRST COUNT COUNTER USES     clusters in use begin past the end of the file: it may have been cut short
  false PLACE CLUSTER COUNTER       an entry's copied flag is set, and the refcount isn't 1
  late PLACE CLUSTER COUNTER        the flag isn't set, and the refcount is 1, or `none` in external data
  dirty                             the image is marked dirty: a program stopped before it wrote all refcounts
  corrupt                           it is marked corrupt: a program found damage
  short-l1 ENTRIES NEEDED           the L1 table is too short for the disk: the header is damaged

PLACE is `l1 INDEX`, or the guest offset of an L2 entry. With `json` it prints numbers, as `qemu-img check
--output=json` does. With `repair` it corrects refcounts and flags first, and clears the marks if nothing
stays wrong; without it, it only reads.

Status 0: consistent. 1: a fault. 3: only leaks and late flags, which harm nobody if the file is whole. 4:
anything worse. Faults: those of `info`; 37 with snapshots, bitmaps in use, or keys of LUKS at an unknown
place; 18 to 21 of the tables. With `repair` also 39 if another process has the image open, 41 if the L1 table
is too short, 21 if a table lies past the end of the image's file, and 38, 30 or 24 if the image can't be
repaired.

  $ qmeta check disk.qcow2
";

const APPLY: &str = "\
qmeta apply IMAGE EDIT..
qmeta apply IMAGE plan EDIT..

Changes what ranges of the disk read as, with all refcounts. First run `check`: after status 0 or 3, a crash
of `apply` leaves leaks at most; after 4, `apply` may free a cluster in use. With `plan` it prints the same
and writes nothing. Without it, it clears the autoclear bits: QEMU then drops persistent bitmaps, and their
clusters leak until `check repair`. If there are N bitmaps, `plan` prints `stale-bitmaps N` last.
An EDIT is one of

  discard:OFFSET:LENGTH    unmaps the range: it reads as the backing file, or as zeros without one
  zero:OFFSET:LENGTH       makes the range read as zeros, and frees its clusters; needs version 3
  keep:OFFSET:LENGTH       makes it read as zeros, and keeps all but compressed clusters; needs version 3
  map:OFFSET:CLUSTER       maps a guest cluster to the data in a free host cluster

OFFSET and LENGTH are multiples of the cluster size, LENGTH not 0, decimal or with 0x. `discard:OFFSET` is one
cluster. It prints `freed FIRST COUNT` for clusters that are free now, `kept CLUSTER COUNTER` for one that
lost a reference and has COUNTER left, and `gained CLUSTER` for a mapped one.

Status 0: made. 1: a fault. Faults: those of `info`; 39, 42, 41, 36, 32, 27, 23, 40, 30, and 18 to 21 of
the tables. All but 34 and 39 come before a byte changes. `qmeta explain N` says more.

  $ qmeta apply disk.qcow2 plan discard:0x20100000
";

const EDIT: &str = "\
qmeta edit IMAGE L1INDEX EDIT..

Changes entries of the L2 table of an L1 entry, and no refcount: `apply` is safer. An EDIT is one of
map:INDEX:CLUSTER, zero:INDEX, keep:INDEX, discard:INDEX. With clusters of C bytes, L1INDEX is the guest
offset / C / (C / 8), and INDEX is the guest offset / C mod (C / 8). It prints `freed FIRST COUNT` for
clusters that lost a reference and `gained CLUSTER` for a mapped one: by `count`, raise the refcount of a
mapped cluster before the edit, and lower those of freed ones after it. It clears the autoclear bits: QEMU
then drops persistent bitmaps, and a raw external data file is no longer marked as raw. Copy the image first.
An IMAGE may have any name, also `--help`.

Status 0: all edits are made, and on the device. 1: a fault, and no edit is made; only 34 and 39 may leave
some or all of them. Faults: those of `info`; 39, 24, 23, 32, and 18 to 21 of the tables.

  $ qmeta edit disk.qcow2 1 discard:16
";

const COUNT: &str = "\
qmeta count IMAGE CLUSTER STEP..

Changes refcounts of the refcount block in host cluster CLUSTER. A STEP is inc:INDEX or dec:INDEX, and adds 1
or takes 1 away. `tables` prints `refcount-block` lines with the CLUSTER of each block, and FIRST, the host
cluster that INDEX 0 counts. For each step it prints `ok` and the refcount before it, or `refused` if the
refcount would fall below 0 or rise above its greatest value. It trusts CLUSTER, and changes whatever is
there. It clears the autoclear bits: QEMU then drops persistent bitmaps, and a raw external data file is no
longer marked as raw. Copy the image first. An IMAGE may have any name, also `--help`.

Status 0: all steps but the refused ones are made, and on the device. 1: a fault, and no step is made; only
34 and 39 may leave some or all of them. Faults: those of `info`; 39, 24, 21, 33.

  $ qmeta count disk.qcow2 2 dec:9
";

const L2: &str = "\
qmeta l2 IMAGE CLUSTER_BITS CLUSTER

Lists the L2 table in host cluster CLUSTER, whatever the header says: it isn't read, so CLUSTER_BITS, 9 to 21,
gives the cluster size. A line has the index of an entry, and its mapping as `list` prints it. Only reads. An
IMAGE may have any name, also `--help`.

Status 0: printed. 1: a fault. Faults: 34 if the file can't be opened or read, 18, 19 and 21 of the table.

  $ qmeta l2 disk.qcow2 16 8
";

const HELP: &str = "\
qmeta help
qmeta help COMMAND
qmeta COMMAND --help
qmeta explain
qmeta explain N
qmeta explain N IMAGE
qmeta version

`help` prints all commands, or one command's arguments, output, statuses and faults. `explain` prints all
faults, or of fault N the broken rule, the usual cause and a remedy. With IMAGE it adds the place in it: the
header's field, the extension or the entry, each with its offset and value, or the system's error for the
file. Only reads. `--help`, `-h` and `--version` do the same as `help` and `version`. These open no image.

Alone after a COMMAND, `--help` or `-h` prints its help. After `info`, `list`, `at`, `edit`, `count` and `l2`
it names an image instead, as `./--help` does after any command.

Status 0: printed, even if the image doesn't have the fault. 1: fault 34 if the output or, with IMAGE, a read
failed; with IMAGE also 35.

  $ qmeta explain 17
  $ qmeta explain 18 disk.qcow2
";

/// All commands, one per line, and where to read on.
#[tactic(auto, unfolding(crate::specs::CommandTexts::commands_text))]
pub fn commands_help() -> &'static str
    ensures { result.now ≡ commands_text }
{
    COMMANDS
}

/// The version of the program, and of the toolchain that proves it.
#[tactic(auto, unfolding(crate::specs::CommandTexts::version_text))]
pub fn version() -> &'static str
    ensures { result.now ≡ version_text }
{
    VERSION
}

/// The help of a command: its output, its arguments, its statuses and its faults. `None` if there is no such
/// command.
#[tactic(auto, unfolding(crate::specs::CommandTexts::command_text))]
pub fn command_help(name: &str) -> Option<&'static str>
    ensures { option_map (λ text. text.now) result ≡ command_text name.now }
{
    match name {
        "info" => Some(INFO),
        "list" => Some(LIST),
        "map" => Some(MAP),
        "at" => Some(AT),
        "tables" => Some(TABLES),
        "layout" => Some(LAYOUT),
        "refcount" => Some(REFCOUNT),
        "check" => Some(CHECK),
        "apply" => Some(APPLY),
        "edit" => Some(EDIT),
        "count" => Some(COUNT),
        "l2" => Some(L2),
        "help" | "explain" | "version" => Some(HELP),
        _ => None,
    }
}
