//! Laws: facts about the definitions that contracts name. Each is a function that does nothing. Its
//! contract is the law, and its name says it.

ghost use Rattle.std.specs.Prelude.{◌≡◌, ◌↔◌, ℕ, ◌<◌, []};
ghost use Rattle.qcow2_base.specs.Format.{max_file_length};
ghost use Rattle.qcow2_base.specs.Storage.{Image};
ghost use Rattle.qcow2_check.specs.Counters.{counter_of};
ghost use Rattle.qcow2_check.specs.Findings.{AreRight, image_findings, uses_of_kind};
ghost use Rattle.qcow2_check.specs.Uses.{ImageTables, image_uses, uses_of};
ghost use Rattle.qcow2_check.specs.declared.tally.TallyKind.TheVariants.{Fixed, Guest, L2Table};

/// An image has no findings exactly if all of its clusters are right.
pub fn nothing_is_found_just_where_all_is_right()
    ensures { (tables : ImageTables) (image : Image) →
        (image_findings tables image ≡ []) ↔ AreRight tables image 0 max_file_length }
{}

/// In an image without findings the refcount of each cluster is its number of references.
pub fn counters_are_uses_where_nothing_is_found()
    ensures { (tables : ImageTables) (image : Image) → AreRight tables image 0 max_file_length →
        (c : ℕ) → c < max_file_length →
        counter_of tables.header tables.reftable image c ≡ uses_of (image_uses tables image) c }
{}

/// In an image without findings a cluster of the header, the L1 table, the refcount table or a refcount block
/// has no other reference, and only L1 entries refer to the cluster of an L2 table.
pub fn uses_exclude_no_others_where_nothing_is_found()
    ensures { (tables : ImageTables) (image : Image) → AreRight tables image 0 max_file_length →
        (c : ℕ) → c < max_file_length → let uses = image_uses tables image in
        (0 < uses_of_kind Fixed uses c → uses_of uses c ≡ 1)
        × (0 < uses_of_kind L2Table uses c → uses_of uses c ≡ uses_of_kind L2Table uses c) }
{}

/// In an image without findings only guest data refers to a cluster of guest data: it holds no table or
/// refcount block.
pub fn guest_data_lies_in_no_table_where_nothing_is_found()
    ensures { (tables : ImageTables) (image : Image) → AreRight tables image 0 max_file_length →
        (c : ℕ) → c < max_file_length → let uses = image_uses tables image in
        0 < uses_of_kind Guest uses c → uses_of uses c ≡ uses_of_kind Guest uses c }
{}
