//! Laws: facts about the definitions that contracts name. Each is a function that does nothing. Its
//! contract is the law, and its name says it.

ghost use Rattle.std.specs.Prelude.{◌≡◌, ◌≢◌, ◌↔◌, ℕ, ◌/◌, ◌^◌, List, ◌∷◌, ◌++◌, true, false, IsTrue, None, Ok, Result};
ghost use Rattle.std.specs.List.{All, list_any};
ghost use Rattle.qcow2_base.specs.Format.{max_file_length};
ghost use Rattle.qcow2_base.specs.Storage.{Image, IsBytes, StorageState};
ghost use Rattle.qcow2_base.specs.declared.fault.Fault.{Fault};
ghost use Rattle.qcow2_metadata.specs.Entries.L2Mapping.{Mapping};
ghost use Rattle.qcow2_metadata.specs.Header.{HeaderRecord, IsValidHeader, geometry_of};
ghost use Rattle.qcow2_metadata.specs.Header.Grammar.{accepted_header, header_of};
ghost use Rattle.qcow2_metadata.specs.Header.Open.{header_after_load};
ghost use Rattle.qcow2_metadata.specs.Results.{Answers, result_map};
ghost use Rattle.qcow2_check.specs.Counters.{blocks_fault};
ghost use Rattle.qcow2_check.specs.Findings.{AreRight, EndsWithin, checked_tables};
ghost use Rattle.qcow2_check.specs.Totals.{is_harmed};
ghost use Rattle.qcow2_check.specs.Uses.{ImageTables};
ghost use Rattle.qcow2_summary.specs.Consistency.{IsConsistent};
ghost use Rattle.qcow2_apply.specs.Errors.{HasNoErrors};
ghost use Rattle.qcow2_apply.specs.Apply.{AreAllApart, EditsDisk, FollowsPlan, LosesNoName, l2_tables_of, plan_tables, tables_by};
ghost use Rattle.qcow2_apply.specs.Passes.{ArePlacesApart};
ghost use Rattle.qcow2_apply.specs.Plan.{IsPlanFor, IsPlanOf};
ghost use Rattle.qcow2_apply.specs.declared.changed_clusters.ChangedClusters.{ChangedClusters};
ghost use Rattle.qcow2_apply.specs.declared.guest_edits.GuestEdit.{GuestEdit};
ghost use Rattle.qcow2_apply.specs.declared.plan.Plan.{Plan};
ghost use Rattle.qcow2_image.specs.Lookups.{guest_mapping, image_mapping, mapping_in};
ghost use Rattle.qcow2_repair.specs.Repair.{IsRepaired};
ghost use Rattle.qcow2_session.specs.Commands.{facts_of};
ghost use Rattle.qcow2_session.specs.Commands.Running.{FindsHeader};
ghost use Rattle.qcow2_session.specs.declared.commands.Command.{Command};
ghost use Rattle.qcow2_session.specs.Commands.Check.{FindsNoHarm, report_on};
ghost use Rattle.qcow2_session.specs.EditedDisk.{covers, mapping_after, mapping_left};
ghost use Rattle.qcow2_session.specs.RepairedDisk.{ReadSame};
ghost use Rattle.qcow2_check.specs.declared.verdict.Verdict.TheVariants.{Fine, Harmful};

pub use qcow2_edits::laws::{
    a_settled_block_counts_the_outcome, counters_follow_references, covered_references_stay_covered,
};
pub use qcow2_image::laws::{
    a_disk_has_one_map, an_image_is_sound_where_nothing_is_found,
    an_l2_table_lies_apart_where_nothing_is_found,
};

/// If the image's bytes are known, a command that loads its header gets exactly the header or the fault
/// that the grammar finds in them, by the features that the command accepts, unless memory runs out or a
/// call of the storage fails. If it loads the header for writing, that is the header without autoclear bits,
/// or the fault of writing it. Otherwise the bytes stay.
pub fn a_command_goes_by_the_header_of_its_bytes()
    ensures { (command : Command) (found : Result HeaderRecord Fault) (old left : StorageState) →
        FindsHeader (facts_of command) found old left → (facts_of command).cluster_bits ≡ None →
        IsTrue old.tells →
        Answers (λ header. header) found
        (header_after_load (facts_of command).loads_to_write
        (accepted_header (facts_of command).accepts old.byte_at))
        × ((facts_of command).loads_to_write ≡ false → left.byte_at ≡ old.byte_at) }
{}

/// If a check finds an image consistent, nothing is wrong with any of its clusters.
pub fn all_is_right_where_the_verdict_is_fine()
    ensures { (file : ℕ) (tables : ImageTables) (image : Image) →
        (report_on file tables image).verdict ≡ Fine → AreRight tables image 0 max_file_length }
{}

/// A check's verdict is `Fine` exactly if the image is consistent and not marked corrupt, its L1 table is
/// long enough, and it ends within its file: no cluster has a finding, no copied flag is wrong, no part of
/// the disk is past the L1 table, and no cluster past the file's end has references.
pub fn a_verdict_is_fine_just_where_an_image_is_consistent()
    ensures { (file : ℕ) (tables : ImageTables) (image : Image) →
        ((report_on file tables image).verdict ≡ Fine)
        ↔ (IsConsistent tables image × EndsWithin file tables image × (is_harmed tables.header ≡ false)) }
{}

/// A check's verdict is `Harmful` exactly if a cluster is missing or shared, a copied flag is false, a
/// cluster past the end of the file has references, the image is marked corrupt, or the L1 table is too short
/// for the disk.
pub fn a_verdict_is_harmful_just_where_there_are_errors()
    ensures { (file : ℕ) (tables : ImageTables) (image : Image) →
        ((report_on file tables image).verdict ≢ Harmful)
        ↔ (HasNoErrors tables image × EndsWithin file tables image × (is_harmed tables.header ≡ false)) }
{}

/// If the verdict on an image isn't `Harmful`, and no two L1 entries name one L2 table, the verdict after
/// edits of the disk isn't either, with the header that they leave: a check can still load all tables, and
/// finds leaked clusters and late flags at most, and references past the end of the file if edits map such
/// clusters. If the image's bytes had the header, they have the one that is left, so a check that reads it
/// from them finds the same. That holds unless clearing the autoclear bits changes the backing file's name.
pub fn edits_of_a_disk_leave_no_harm_where_there_was_none()
    ensures { (header left : HeaderRecord) (edits : List GuestEdit) (clusters : ChangedClusters)
        (old new : Image) (tables : ImageTables) → IsValidHeader header →
        EditsDisk header left edits (Ok clusters) old new →
        checked_tables header old ≡ Ok tables → ArePlacesApart (l2_tables_of tables) →
        FindsNoHarm header old → FindsNoHarm left new
        × (header_of old ≡ Ok header → LosesNoName header → header_of new ≡ Ok left) }
{}

/// If a check's verdict on an image isn't `Harmful`, and no two L1 entries name one L2 table, its tables
/// and blocks don't overlap, as other laws require. Leaked clusters and late flags don't matter. A check
/// doesn't report an L2 table that two L1 entries name as shared, since snapshots share tables in that way.
pub fn tables_and_blocks_are_apart_where_a_check_finds_no_harm()
    ensures { (file : ℕ) (tables : ImageTables) (image : Image) →
        (report_on file tables image).verdict ≢ Harmful →
        blocks_fault tables.header tables.reftable ≡ None → ArePlacesApart (l2_tables_of tables) →
        AreAllApart tables }
{}

/// After edits of the disk of an image whose tables and blocks don't overlap, each guest offset in no
/// edit's range reads as before, by the same L1 table. A table that couldn't be loaded is refused as
/// before.
pub fn what_no_edit_covers_reads_as_before()
    ensures { (header : HeaderRecord) (edits : List GuestEdit) (plan : Plan) (old new : Image) →
        IsValidHeader header → IsPlanFor header edits plan → IsPlanOf header edits old plan →
        FollowsPlan header edits plan (Ok tt) old new → AreAllApart (plan_tables header plan) →
        (offset : ℕ) → All (λ edit. covers header.v2.cluster_bits offset edit ≡ false) edits →
        guest_mapping (geometry_of header) plan.l1_table.numbers offset new
        ≡ guest_mapping (geometry_of header) plan.l1_table.numbers offset old }
{}

/// And each guest offset in some edit's range could be read before, and reads as the edits, one after the
/// other, leave that mapping.
pub fn what_edits_cover_reads_as_they_leave_it()
    ensures { (header : HeaderRecord) (edits : List GuestEdit) (plan : Plan) (old new : Image) →
        IsValidHeader header → IsPlanFor header edits plan → IsPlanOf header edits old plan →
        FollowsPlan header edits plan (Ok tt) old new → AreAllApart (plan_tables header plan) →
        (offset : ℕ) → list_any (covers header.v2.cluster_bits offset) edits ≡ true →
        (before : Mapping)
        × (guest_mapping (geometry_of header) plan.l1_table.numbers offset old ≡ Ok before)
        × (guest_mapping (geometry_of header) plan.l1_table.numbers offset new
        ≡ Ok (mapping_left header.v2.cluster_bits offset edits before)) }
{}

/// If an image has no findings, and no two L1 entries name one L2 table, then after edits of its disk each
/// guest offset reads, by the image's own L1 table, as before, or as the edits of it leave that. A table
/// that couldn't be read is refused as before.
pub fn a_consistent_disk_reads_as_edits_leave_it()
    ensures { (header : HeaderRecord) (edits : List GuestEdit) (plan : Plan) (old new : Image) →
        IsValidHeader header → IsPlanFor header edits plan → IsPlanOf header edits old plan →
        FollowsPlan header edits plan (Ok tt) old new →
        AreRight (tables_by header plan) old 0 max_file_length →
        ArePlacesApart (l2_tables_of (tables_by header plan)) → (offset : ℕ) →
        mapping_in header offset new
        ≡ result_map (mapping_left header.v2.cluster_bits offset edits) (mapping_in header offset old) }
{}

/// And all of that holds by the image's bytes alone, if clearing the autoclear bits changes no byte of the
/// backing file's name, or none is set.
pub fn a_consistent_image_reads_as_edits_leave_it()
    ensures { (header : HeaderRecord) (edits : List GuestEdit) (plan : Plan) (old new : Image) →
        header_of old ≡ Ok header → LosesNoName header → IsValidHeader header →
        IsPlanFor header edits plan → IsPlanOf header edits old plan →
        FollowsPlan header edits plan (Ok tt) old new →
        AreRight (tables_by header plan) old 0 max_file_length →
        ArePlacesApart (l2_tables_of (tables_by header plan)) → (offset : ℕ) →
        image_mapping offset new
        ≡ result_map (mapping_left header.v2.cluster_bits offset edits) (image_mapping offset old) }
{}

/// The same holds if a check's verdict on the image isn't `Harmful`: it may have leaked clusters and late
/// flags.
pub fn a_disk_without_harm_reads_as_edits_leave_it()
    ensures { (header : HeaderRecord) (edits : List GuestEdit) (plan : Plan) (file : ℕ) (old new : Image) →
        IsValidHeader header → IsPlanFor header edits plan → IsPlanOf header edits old plan →
        FollowsPlan header edits plan (Ok tt) old new →
        (report_on file (tables_by header plan) old).verdict ≢ Harmful →
        ArePlacesApart (l2_tables_of (tables_by header plan)) → (offset : ℕ) →
        mapping_in header offset new
        ≡ result_map (mapping_left header.v2.cluster_bits offset edits) (mapping_in header offset old) }
{}

/// And that holds by the image's bytes alone, if clearing the autoclear bits changes no byte of the backing
/// file's name, or none is set.
pub fn an_image_without_harm_reads_as_edits_leave_it()
    ensures { (header : HeaderRecord) (edits : List GuestEdit) (plan : Plan) (file : ℕ) (old new : Image) →
        header_of old ≡ Ok header → LosesNoName header → IsValidHeader header →
        IsPlanFor header edits plan → IsPlanOf header edits old plan →
        FollowsPlan header edits plan (Ok tt) old new →
        (report_on file (tables_by header plan) old).verdict ≢ Harmful →
        ArePlacesApart (l2_tables_of (tables_by header plan)) → (offset : ℕ) →
        image_mapping offset new
        ≡ result_map (mapping_left header.v2.cluster_bits offset edits) (image_mapping offset old) }
{}

/// A completed repair keeps what each guest offset reads as, by the header that it leaves: the same kind,
/// with the same cluster, offset and length. Only the copied flag may change.
pub fn a_repaired_disk_reads_as_before()
    ensures { (file : ℕ) (header written : HeaderRecord) (old new : Image) →
        IsValidHeader header → IsBytes old → IsRepaired file header written old new → (offset : ℕ) →
        ReadSame (mapping_in written offset new) (mapping_in header offset old) }
{}

/// Of several edits of a guest offset, the last decides what it reads as: data in the edit's host cluster,
/// the backing file, zeros, or zeros that keep the cluster that the edits before it left there.
pub fn the_last_edit_that_covers_an_offset_decides()
    ensures { (cluster_bits offset : ℕ) (before later : List GuestEdit) (edit : GuestEdit) (first : Mapping) →
        covers cluster_bits offset edit ≡ true →
        All (λ other. covers cluster_bits offset other ≡ false) later →
        mapping_left cluster_bits offset (before ++ edit ∷ later) first
        ≡ mapping_after cluster_bits (offset / 2 ^ cluster_bits) edit
        (mapping_left cluster_bits offset before first) }
{}
