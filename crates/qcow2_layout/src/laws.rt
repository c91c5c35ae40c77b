//! Laws: facts about the definitions that contracts name. Each is a function that does nothing. Its
//! contract is the law, and its name says it.

ghost use Rattle.std.specs.Prelude.{◌≡◌, ℕ, ◌*◌, ◌^◌, ◌≤◌, List, false};
ghost use Rattle.qcow2_base.specs.Storage.{Image};
ghost use Rattle.qcow2_summary.specs.ImageEnd.{image_end};
ghost use Rattle.qcow2_check.specs.Counters.{is_counted_again};
ghost use Rattle.qcow2_check.specs.Uses.{ImageTables};
ghost use Rattle.qcow2_layout.specs.Layout.{AreRuns, Parts};
ghost use Rattle.qcow2_layout.specs.Parts.{taken_end};
ghost use Rattle.qcow2_layout.specs.declared.parts.Run.{Run};

/// An image has one layout: its clusters determine the runs that follow one another from cluster 0 to its
/// end.
pub fn an_image_has_one_layout()
    ensures { (cb : ℕ) (parts : Parts) (end : ℕ) (one other : List Run) →
        AreRuns cb parts end 0 one → AreRuns cb parts end 0 other → one ≡ other }
{}

/// A layout ends where the image does, by its refcounts and its references, if no two entries of the refcount
/// table name the same block.
pub fn a_layout_ends_where_the_image_does()
    ensures { (tables : ImageTables) (image : Image) →
        ((c : ℕ) → is_counted_again tables.header tables.reftable c ≡ false) →
        taken_end tables image * 2 ^ tables.header.v2.cluster_bits ≡ image_end tables image }
{}

/// A layout never ends after the image. It ends before it if the last clusters with a refcount have no
/// references, and their block is reported for clusters before them.
pub fn a_layout_ends_no_later_than_the_image()
    ensures { (tables : ImageTables) (image : Image) →
        taken_end tables image * 2 ^ tables.header.v2.cluster_bits ≤ image_end tables image }
{}
