//! Laws: facts about the definitions that contracts name. Each is a function that does nothing. Its
//! contract is the law, and its name says it.

ghost use Rattle.std.specs.Prelude.{◌≡◌, ◌≢◌, ℕ, Bool, ◌<◌, List, Ok, true};
ghost use Rattle.qcow2_base.specs.Format.{max_file_length};
ghost use Rattle.qcow2_base.specs.Storage.{Image, IsBytes};
ghost use Rattle.qcow2_base.specs.declared.fault.Fault.{Fault};
ghost use Rattle.qcow2_base.specs.declared.fault.Fault.TheVariants.{Storage};
ghost use Rattle.qcow2_base.specs.declared.types.HostCluster.{HostCluster};
ghost use Rattle.qcow2_metadata.specs.Header.{HeaderRecord, IsValidHeader};
ghost use Rattle.qcow2_summary.specs.Consistency.{IsConsistent};
ghost use Rattle.qcow2_check.specs.Counters.{counter_of};
ghost use Rattle.qcow2_check.specs.Findings.{EndsWithin, checked_tables};
ghost use Rattle.qcow2_check.specs.Uses.{ImageTables, image_uses};
ghost use Rattle.qcow2_repair.specs.Repair.{BreaksOffRepair, EndsMarks, HasPassed, IsRepairable, MakesWritable, Repairs, tables_in};
ghost use Rattle.qcow2_repair.specs.Left.{CountsUsed, HasTrueFlags, IsHighEnough, IsRightWhereCounted, LeavesWhole, MakesNoneTooLow, MakesNoneTooLowBeside};
ghost use Rattle.qcow2_repair.specs.Refusals.{leaves_nothing, repairable_tables};

/// An image that `repair_image` doesn't refuse is repairable once its header is made writable. So the laws
/// below hold for what that call does next.
pub fn what_is_not_refused_can_be_repaired()
    ensures { (header written : HeaderRecord) (tables : ImageTables) (old mid : Image) →
        IsValidHeader header → IsBytes old → repairable_tables header old ≡ Ok tables →
        MakesWritable header written old mid → IsRepairable (tables_in written tables.reftable mid) mid }
{}

/// When `repair_image` makes a header writable, no reference and no refcount changes. So what the laws below
/// say about references and refcounts before a repair is true of the original image.
pub fn a_header_made_writable_keeps_uses_and_counters()
    ensures { (header written : HeaderRecord) (tables : ImageTables) (old mid : Image) →
        IsValidHeader header → IsBytes old → repairable_tables header old ≡ Ok tables →
        MakesWritable header written old mid →
        (image_uses (tables_in written tables.reftable mid) mid ≡ image_uses tables old)
        × ((c : ℕ) → counter_of written tables.reftable mid c ≡ counter_of header tables.reftable old c) }
{}

/// A repair changes no reference: the image refers to the same clusters as before, as often and in the same
/// ways.
pub fn a_repair_keeps_uses()
    ensures { (header : HeaderRecord) (reftable : List ℕ) (old new : Image) →
        IsRepairable (tables_in header reftable old) old → Repairs header reftable old new →
        image_uses (tables_in header reftable new) new ≡ image_uses (tables_in header reftable old) old }
{}

/// After a repair the refcount of each cluster that a refcount block counts is its number of references. The
/// only findings left are clusters with references that no block counts: their refcounts are 0, and their
/// references don't exclude each other. Each copied flag that is still wrong is set for such a cluster. None
/// is of guest data in an external data file.
pub fn a_repaired_image_is_right_where_blocks_count()
    ensures { (header : HeaderRecord) (reftable : List ℕ) (old new : Image) →
        IsRepairable (tables_in header reftable old) old → Repairs header reftable old new →
        IsRightWhereCounted (tables_in header reftable new) new }
{}

/// If refcount blocks count every cluster that an image refers to, the image is consistent after a repair: it
/// has no findings and no wrong copied flags.
pub fn a_repaired_image_is_consistent_where_blocks_count_all_uses()
    ensures { (header : HeaderRecord) (reftable : List ℕ) (old new : Image) →
        IsRepairable (tables_in header reftable old) old → Repairs header reftable old new →
        CountsUsed (tables_in header reftable old) old → IsConsistent (tables_in header reftable new) new }
{}

/// A repaired image can be checked, whether its marks are cleared or stay: its L1 table, refcount table and
/// L2 tables load, and no refcount block that it names would end past 2^56. These are the tables of the other
/// laws here. So a check after a repair fails only if the storage fails or memory runs out.
pub fn a_repaired_image_can_be_checked()
    ensures { (leaves_nothing : Bool) (header written left : HeaderRecord) (tables : ImageTables)
        (old passed new : Image) → IsValidHeader header → IsBytes old →
        HasPassed header written tables old passed → EndsMarks leaves_nothing written left passed new →
        checked_tables left new ≡ Ok (tables_in left tables.reftable new) }
{}

/// A repair clears the marks `dirty` and `corrupt` only of a consistent image that ends within its file. It
/// does so where it leaves nothing wrong, and then the image has no findings and no wrong copied flags after
/// its passes, and refers to no cluster past the end of a file of that many clusters.
pub fn marks_are_cleared_only_of_a_consistent_image()
    ensures { (file : ℕ) (header written : HeaderRecord) (tables : ImageTables) (old passed : Image) →
        IsValidHeader header → IsBytes old → HasPassed header written tables old passed →
        leaves_nothing file tables old ≡ true → let left = tables_in written tables.reftable passed in
        IsConsistent left passed × EndsWithin file left passed }
{}

/// No step of a repair makes a refcount lower than its number of references: one that was at least that
/// number still is after flags are cleared, after refcounts are raised, after they are lowered, and at the
/// end.
pub fn no_step_of_a_repair_makes_a_counter_too_low()
    ensures { (header : HeaderRecord) (reftable : List ℕ) (old new : Image)
        (repair : Repairs header reftable old new) → IsRepairable (tables_in header reftable old) old →
        let makes_none = MakesNoneTooLow header reftable old in
        makes_none repair.cleared × makes_none repair.raised × makes_none repair.lowered × makes_none new }
{}

/// Nor does a repair that ends in a fault, unless the storage fails. So none is too low if memory runs out.
pub fn a_repair_that_breaks_off_makes_no_counter_too_low_unless_the_storage_fails()
    ensures { (header : HeaderRecord) (reftable : List ℕ) (fault : Fault) (old new : Image) →
        IsRepairable (tables_in header reftable old) old → BreaksOffRepair header reftable fault old new →
        fault ≢ Storage → MakesNoneTooLow header reftable old new }
{}

/// If a repair ended in any fault, and the image still has the same references, refcounts became too low in
/// at most one block: the one whose write was torn.
pub fn a_torn_write_of_a_repair_makes_counters_of_one_block_too_low_at_most()
    ensures { (header : HeaderRecord) (reftable : List ℕ) (fault : Fault) (old new : Image) →
        IsRepairable (tables_in header reftable old) old → BreaksOffRepair header reftable fault old new →
        image_uses (tables_in header reftable new) new ≡ image_uses (tables_in header reftable old) old →
        (block : HostCluster) × MakesNoneTooLowBeside header reftable block old new }
{}

/// A part of a repair doesn't make a cluster's refcount too low if it left that refcount and all entries of
/// tables whole: each is the old one or that of the step. So a write that was torn between entries of a
/// table, or between refcounts of a block, does no harm.
pub fn a_part_of_a_repair_makes_no_counter_too_low_that_it_leaves_whole()
    ensures { (header : HeaderRecord) (reftable : List ℕ) (old new : Image) (c : ℕ) → c < max_file_length →
        IsRepairable (tables_in header reftable old) old → LeavesWhole header reftable c old new →
        IsHighEnough header reftable c old → IsHighEnough header reftable c new }
{}

/// After the first step has cleared flags, no step of a repair leaves a copied flag that is wrongly set, if a
/// refcount block counts the entry's cluster.
pub fn no_step_of_a_repair_makes_a_flag_false()
    ensures { (header : HeaderRecord) (reftable : List ℕ) (old new : Image)
        (repair : Repairs header reftable old new) → IsRepairable (tables_in header reftable old) old →
        let is_true = λ (image : Image). HasTrueFlags (tables_in header reftable image) image in
        is_true repair.cleared × is_true repair.raised × is_true repair.lowered × is_true new }
{}
