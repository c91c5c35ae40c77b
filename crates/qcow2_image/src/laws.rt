//! Laws: facts about the definitions that contracts name. Each is a function that does nothing. Its
//! contract is the law, and its name says it.

ghost use Rattle.std.specs.Prelude.{◌≡◌, ℕ, List, Ok, Some, slice_get, slice_index};
ghost use Rattle.qcow2_base.specs.Format.{max_file_length};
ghost use Rattle.qcow2_base.specs.Storage.{Image};
ghost use Rattle.qcow2_base.specs.declared.types.HostCluster.{HostCluster};
ghost use Rattle.qcow2_check.specs.Findings.{AreRight, checked_tables};
ghost use Rattle.qcow2_check.specs.NamedTables.{named_cluster};
ghost use Rattle.qcow2_check.specs.Uses.{ImageTables};
ghost use Rattle.qcow2_metadata.specs.Header.{geometry_of};
ghost use Rattle.qcow2_metadata.specs.Header.Grammar.{header_of};
ghost use Rattle.qcow2_image.specs.Extents.{AreExtents, Contents};
ghost use Rattle.qcow2_image.specs.WholeImage.{HasTableApart, IsSoundImage, l2_clusters};
ghost use Rattle.qcow2_image.specs.declared.extents.Extent.{Extent};

/// A disk has one map: consecutive extents from offset 0 to its size are determined by the content of its
/// bytes.
pub fn a_disk_has_one_map()
    ensures { (contents : Contents) (size : ℕ) (one other : List Extent) →
        AreExtents contents size 0 one size → AreExtents contents size 0 other size → one ≡ other }
{}

/// If a check finds nothing in an image, an L2 table that an L1 entry names overlaps neither the first
/// cluster nor the L1 table.
pub fn an_l2_table_lies_apart_where_nothing_is_found()
    ensures { (tables : ImageTables) (image : Image) (k : ℕ) (cluster : HostCluster) →
        header_of image ≡ Ok tables.header → AreRight tables image 0 max_file_length →
        named_cluster tables.header.v2.cluster_bits (slice_index tables.l1 k) ≡ Some cluster →
        HasTableApart (geometry_of tables.header) cluster tables.header image }
{}

/// An image that can be checked, and in which a check finds nothing, is sound if no two L1 entries name one
/// L2 table.
pub fn an_image_is_sound_where_nothing_is_found()
    ensures { (tables : ImageTables) (image : Image) →
        header_of image ≡ Ok tables.header → checked_tables tables.header image ≡ Ok tables →
        AreRight tables image 0 max_file_length →
        ((i j : ℕ) (table : HostCluster) → let named = l2_clusters tables.header.v2.cluster_bits tables.l1 in
        slice_get named i ≡ Some table → slice_get named j ≡ Some table → i ≡ j) →
        IsSoundImage image tables.header tables.l1 }
{}
