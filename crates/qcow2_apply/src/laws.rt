//! Laws: facts about the definitions that contracts name. Each is a function that does nothing. Its
//! contract is the law, and its name says it.

ghost use Rattle.std.specs.Prelude.{◌≡◌, ℕ, ◌+◌, List, None, Err, Ok};
ghost use Rattle.qcow2_base.specs.Format.{max_file_length};
ghost use Rattle.qcow2_base.specs.Storage.{Image};
ghost use Rattle.qcow2_base.specs.declared.fault.Fault.{Fault};
ghost use Rattle.qcow2_metadata.specs.Header.{HeaderRecord, IsValidHeader};
ghost use Rattle.qcow2_metadata.specs.Header.Grammar.{header_of};
ghost use Rattle.qcow2_metadata.specs.Header.Open.{without_autoclear};
ghost use Rattle.qcow2_check.specs.Counters.{blocks_fault};
ghost use Rattle.qcow2_check.specs.Failures.{TearsAtMost};
ghost use Rattle.qcow2_check.specs.Findings.{AreRight, checked_tables};
ghost use Rattle.qcow2_check.specs.Uses.{ImageTables, image_uses, uses_of};
ghost use Rattle.qcow2_apply.specs.Apply.{AreAllApart, FollowsPlan, KeepDistance, LosesNoName, TearsTableOrBlock, l2_tables_of, plan_tables};
ghost use Rattle.qcow2_apply.specs.CounterTables.{HasCounter, counter_of_cluster};
ghost use Rattle.qcow2_apply.specs.Crashes.{CrashesInPlan};
ghost use Rattle.qcow2_apply.specs.Errors.{HasNoErrors, HasNoLeaks};
ghost use Rattle.qcow2_apply.specs.Passes.{ArePlacesApart};
ghost use Rattle.qcow2_apply.specs.Plan.{IsPlanFor, IsPlanOf};
ghost use Rattle.qcow2_apply.specs.PlannedTables.{counter_tables};
ghost use Rattle.qcow2_apply.specs.declared.guest_edits.GuestEdit.{GuestEdit};
ghost use Rattle.qcow2_apply.specs.declared.plan.Plan.{Plan};

/// After edits of an image whose tables and blocks don't overlap, each cluster that a refcount block counts
/// satisfies: refcount after + references before = refcount before + references after. So a right refcount
/// stays right, and one that was at least the number of references still is.
pub fn counters_follow_uses_of_clusters()
    ensures { (header : HeaderRecord) (edits : List GuestEdit) (plan : Plan) (old new : Image) →
        IsValidHeader header → IsPlanFor header edits plan → IsPlanOf header edits old plan →
        FollowsPlan header edits plan (Ok tt) old new → AreAllApart (plan_tables header plan) →
        let tables = plan_tables header plan in
        (c : ℕ) → HasCounter (counter_tables tables) c →
        counter_of_cluster (counter_tables tables) new c + uses_of (image_uses tables old) c
        ≡ counter_of_cluster (counter_tables tables) old c + uses_of (image_uses tables new) c }
{}

/// If edits of an image whose tables and blocks don't overlap end in a fault, no refcount's margin over its
/// references shrinks, except by one torn write of a table or block, and that only if the storage failed. So
/// a refcount that was at least the number of references still is, and one that also counts references of a
/// snapshot still does.
pub fn edits_that_break_off_make_no_counter_too_low()
    ensures { (header : HeaderRecord) (edits : List GuestEdit) (plan : Plan) (fault : Fault)
        (old new : Image) → IsValidHeader header → IsPlanFor header edits plan →
        IsPlanOf header edits old plan → FollowsPlan header edits plan (Err fault) old new →
        AreAllApart (plan_tables header plan) →
        (mid : Image) × TearsAtMost fault (TearsTableOrBlock (plan_tables header plan)) mid new
        × KeepDistance (plan_tables header plan) old mid }
{}

/// If the machine crashes during edits of an image whose tables and blocks don't overlap, no refcount's
/// margin over its references shrinks, whichever sectors written since the last sync are lost. So a refcount
/// that was at least the number of references still is, and one that also counts references of a snapshot
/// still does. A refcount left too high is a leak.
///
/// The law assumes that the device keeps everything written before the last sync, and writes a sector of 512
/// bytes whole or not at all. It assumes that the edits sync between their parts, and write each table or
/// block at most once in a part. Contracts don't model the device, so tests show that the edits do both.
pub fn a_crash_makes_no_counter_too_low()
    ensures { (header : HeaderRecord) (edits : List GuestEdit) (plan : Plan) (old crashed : Image) →
        IsValidHeader header → IsPlanFor header edits plan → IsPlanOf header edits old plan →
        CrashesInPlan header edits plan old crashed → AreAllApart (plan_tables header plan) →
        KeepDistance (plan_tables header plan) old crashed }
{}

/// If an image has no findings, and no two L1 entries name the same L2 table, its tables and blocks don't
/// overlap, as the other laws require.
pub fn tables_and_blocks_are_apart_where_nothing_is_found()
    ensures { (tables : ImageTables) (image : Image) → AreRight tables image 0 max_file_length →
        blocks_fault tables.header tables.reftable ≡ None → ArePlacesApart (l2_tables_of tables) →
        AreAllApart tables }
{}

/// The same holds for an image without errors: leaked clusters and copied flags that are wrongly clear don't
/// matter.
pub fn tables_and_blocks_are_apart_where_there_are_no_errors()
    ensures { (tables : ImageTables) (image : Image) → HasNoErrors tables image →
        blocks_fault tables.header tables.reftable ≡ None → ArePlacesApart (l2_tables_of tables) →
        AreAllApart tables }
{}

/// After edits of an image that begins with this header, and whose tables and blocks don't overlap, the image
/// begins with the header that the edits leave: the same without autoclear features. This requires that no
/// byte of the backing file's name is among the bytes that are cleared.
pub fn an_image_has_the_header_that_edits_leave()
    ensures { (header : HeaderRecord) (edits : List GuestEdit) (plan : Plan) (old new : Image) →
        header_of old ≡ Ok header → LosesNoName header → FollowsPlan header edits plan (Ok tt) old new →
        AreAllApart (plan_tables header plan) → header_of new ≡ Ok (without_autoclear header) }
{}

/// After edits of an image without errors, in which no two L1 entries name the same L2 table, the image has
/// no errors: no missing or shared cluster, and no copied flag that is wrongly set. Leaked clusters and flags
/// that are wrongly clear may have been there, and more such flags may appear.
pub fn edits_bring_no_errors()
    ensures { (header : HeaderRecord) (edits : List GuestEdit) (plan : Plan) (old new : Image) →
        IsValidHeader header → IsPlanFor header edits plan → IsPlanOf header edits old plan →
        FollowsPlan header edits plan (Ok tt) old new → let tables = plan_tables header plan in
        ArePlacesApart (l2_tables_of tables) → HasNoErrors tables old → HasNoErrors tables new }
{}

/// After edits of an image whose tables and blocks don't overlap, whatever its errors, no cluster is leaked
/// if none was before.
pub fn edits_leak_no_clusters()
    ensures { (header : HeaderRecord) (edits : List GuestEdit) (plan : Plan) (old new : Image) →
        IsValidHeader header → IsPlanFor header edits plan → IsPlanOf header edits old plan →
        FollowsPlan header edits plan (Ok tt) old new → let tables = plan_tables header plan in
        AreAllApart tables → HasNoLeaks tables old → HasNoLeaks tables new }
{}

/// So a check finds no errors after edits if it found none before, and no leaks if it found none. It can
/// still read all tables: the L1 table and the refcount table are the same, and all L2 tables load. This
/// requires that no two L1 entries name the same L2 table.
pub fn a_check_finds_no_errors_after_edits_where_it_found_none()
    ensures { (header : HeaderRecord) (edits : List GuestEdit) (plan : Plan) (old new : Image)
        (tables : ImageTables) → IsValidHeader header → IsPlanFor header edits plan →
        IsPlanOf header edits old plan → FollowsPlan header edits plan (Ok tt) old new →
        checked_tables header old ≡ Ok tables →
        ArePlacesApart (l2_tables_of tables) → HasNoErrors tables old →
        let left = record tables { header = without_autoclear header } in
        (checked_tables (without_autoclear header) new ≡ Ok left)
        × HasNoErrors left new × (HasNoLeaks tables old → HasNoLeaks left new) }
{}
