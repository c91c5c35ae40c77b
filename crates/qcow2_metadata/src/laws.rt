//! Laws: facts about the definitions that contracts name, and about every header. Each is a function that
//! does nothing. Its contract is the law, and its name says it.

ghost use Rattle.std.specs.Prelude.{◌≡◌, ℕ, Bool, true, false, ◌≤◌, ◌↔◌, Ok, ◌∷◌, if◌then◌else◌, Some, ◌^◌, ◌<◌, max, List, Err, ◌≢◌, ◌++◌, length, slice_index};
ghost use Rattle.qcow2_base.specs.Storage.{Image, SameOutside, be};
ghost use Rattle.std.specs.List.{All};
ghost use Rattle.qcow2_base.specs.Types.{IsClusterBits};
ghost use Rattle.qcow2_metadata.specs.Entries.L2Entry.{IsAllocation, allocation, refers_by_flag};
ghost use Rattle.qcow2_metadata.specs.Entries.{offset_field, with_copied};
ghost use Rattle.qcow2_metadata.specs.Entries.L1Entry.{l1_fault};
ghost use Rattle.qcow2_metadata.specs.Header.Open.{SaysSame, header_after_load, without_autoclear};
ghost use Rattle.qcow2_metadata.specs.Header.Pointers.{HasNameElsewhere};
ghost use Rattle.qcow2_metadata.specs.Header.{Geometry, HeaderRecord, IsValidHeader, compression_type};
ghost use Rattle.qcow2_metadata.specs.Header.Grammar.{IsAcceptedHeader, accepted_header, header_of};
ghost use Rattle.std.specs.Ordering.{is_eq};
ghost use Rattle.std.specs.Str.Lossy.{utf8_lossy};
ghost use Rattle.qcow2_base.specs.declared.fault.Fault.{Fault};
ghost use Rattle.qcow2_metadata.specs.Header.Chain.{BreaksBy, IsChain, Link, extensions_at};
ghost use Rattle.qcow2_metadata.specs.Header.Extensions.{FeatureKey, FeatureNameTable, FeatureNames, feature_name_in, key_cmp, until_zero, with_feature_name};
ghost use Rattle.qcow2_metadata.specs.Header.Features.{feature_type_number};
ghost use Rattle.qcow2_metadata.specs.declared.header.features.AcceptedFeatures.{AcceptedFeatures};
ghost use Rattle.qcow2_metadata.specs.declared.header.features.FeatureType.{FeatureType};
ghost use Rattle.qcow2_metadata.specs.Results.{result_map};
ghost use Rattle.qcow2_metadata.specs.Header.Text.{IsSettled, header_after_write, header_read_back};
ghost use Rattle.qcow2_metadata.specs.Table.Growth.{IsLeastSpare, growth_of, least_spare};
ghost use Rattle.qcow2_metadata.specs.Table.L2Guards.{GivesUp, clusters_freed_by, to_data, TableEdit, entry_after, run_of};

use crate::Header;

/// A header loads from an image exactly if the grammar says that the image begins with that header, whichever
/// features are accepted.
pub fn the_grammar_and_the_reader_agree()
    ensures { (accepted : AcceptedFeatures) (image : Image) (header : HeaderRecord) →
        (accepted_header accepted image ≡ Ok header) ↔ IsAcceptedHeader accepted image header }
{}

/// A header that loads where no feature is accepted loads the same where some are, if its compression type is
/// 0.
pub fn a_load_that_accepts_more_reads_the_same()
    ensures { (accepted : AcceptedFeatures) (image : Image) (header : HeaderRecord) →
        header_of image ≡ Ok header → compression_type header.unknown_header_fields ≡ 0 →
        accepted_header accepted image ≡ Ok header }
{}

/// A chain of extensions whose last one is invalid is refused with the fault of that one.
pub fn a_broken_chain_is_refused()
    ensures { (image : Image) (len place : ℕ) (links : List Link) (last : Link) (fault : Fault) →
        IsChain image len place links last → BreaksBy image len last fault →
        extensions_at image len place ≡ Err fault }
{}

/// An entry of a feature name table names the feature of its key, whatever earlier entries named it, and
/// leaves the names of all others. So the last entry of a key names its feature.
pub fn the_last_chunk_of_a_key_names_its_feature()
    ensures { (names : FeatureNames) (kind : FeatureType) (bit : ℕ) (name : List ℕ)
        (other : FeatureKey) →
        result_map (λ after. feature_name_in other (FeatureNameTable after))
        (with_feature_name names (feature_type_number kind ∷ bit ∷ name))
        ≡ Ok (if is_eq (key_cmp other (kind, bit)) then Some (utf8_lossy (until_zero name))
        else feature_name_in other (FeatureNameTable names)) }
{}

/// Images with the same first cluster have the same header, or are refused with the same fault. The first
/// cluster has `2 ^ cluster_bits` bytes, by the field at 20, and at least 512.
pub fn only_the_first_cluster_matters()
    ensures { (accepted : AcceptedFeatures) (image other : Image) →
        ((o : ℕ) → o < max 512 (2 ^ be image 20 4) → other o ≡ image o) →
        accepted_header accepted other ≡ accepted_header accepted image }
{}

/// Every header in memory is valid.
pub fn every_header_is_valid(header: &Header)
    ensures { IsValidHeader header.now }
{
    header.validity()
}

/// The header that a write of a valid header leaves can be written again, with the same bytes. So can the
/// header that these bytes load as, which reads back as itself.
pub fn a_written_header_reads_back()
    ensures { (header written : HeaderRecord) → IsValidHeader header →
        header_after_write header ≡ Ok written → IsSettled written }
{}

/// A header made writable describes the same image as before. So does the header that it reads back as.
pub fn a_header_made_writable_says_the_same()
    ensures { (header written : HeaderRecord) → header_after_load true (Ok header) ≡ Ok written →
        SaysSame header written × SaysSame header (header_read_back written) }
{}

/// If the eight bytes of autoclear features become 0 in an image of version 3, and no other byte changes, the
/// image has its old header without these features. This requires that the backing file's name has none of
/// these bytes: the grammar allows a name anywhere in the first cluster, even over fields.
pub fn a_cleared_field_leaves_the_other_parts_of_a_header()
    ensures { (accepted : AcceptedFeatures) (header : HeaderRecord) (image other : Image) →
        accepted_header accepted image ≡ Ok header → header.v2.version ≡ 3 → SameOutside 88 8 image other →
        be other 88 8 ≡ 0 → HasNameElsewhere header →
        accepted_header accepted other ≡ Ok (without_autoclear header) }
{}

/// The number of spare entries by division is the least sufficient one, and at least 1.
pub fn the_spare_by_division_is_the_least()
    ensures { (header : HeaderRecord) (len index : ℕ) → IsClusterBits header.v2.cluster_bits →
        header.base.refcount_order ≤ 6 →
        IsLeastSpare (growth_of header len index) (least_spare (growth_of header len index)) }
{}

/// An L2 entry refers to exactly the clusters of which it refers to a byte.
pub fn an_entry_refers_to_the_clusters_it_meets()
    ensures { (g : Geometry) (entry : ℕ) → IsClusterBits g.cluster_bits →
        IsAllocation g entry (allocation g entry) }
{}

/// The copied flag of an L1 entry changes neither the entry's offset nor whether the entry is valid.
pub fn the_flag_of_an_l1_entry_names_no_table()
    ensures { (cluster_bits entry : ℕ) (copied : Bool) →
        (offset_field (with_copied copied entry) ≡ offset_field entry)
        × (l1_fault cluster_bits (with_copied copied entry) ≡ l1_fault cluster_bits entry) }
{}

/// The copied flag of an L2 entry doesn't change the clusters that the entry refers to, except where it alone
/// shows a reference to cluster 0 of an external data file.
#[tactic(auto, using(crate::proofs::CopiedLemmas::clusters))]
pub fn the_flag_of_an_l2_entry_names_no_cluster()
    ensures { (g : Geometry) (entry : ℕ) (copied : Bool) → IsClusterBits g.cluster_bits →
        refers_by_flag g.external_data_file entry ≡ false →
        allocation g (with_copied copied entry) ≡ allocation g entry }
{}

/// An entry that is mapped to a cluster frees nothing if it refers to that one alone, and else all clusters
/// that it refers to.
#[tactic(auto, using(crate::proofs::L2GuardsLemmas::gives_up))]
pub fn a_mapping_gives_up_all_but_its_own_cluster()
    ensures { (g : Geometry) (entry cluster : ℕ) → IsClusterBits g.cluster_bits →
        GivesUp g entry cluster (clusters_freed_by g (to_data cluster) entry) }
{}

/// An entry that no edit of a list names stays the same.
#[tactic(auto, using(crate::proofs::L2GuardsLemmas::run_of_others))]
pub fn an_entry_that_no_edit_names_stays()
    ensures { (g : Geometry) (edits : List TableEdit) (numbers : List ℕ) (index : ℕ) →
        All (λ (e : TableEdit). e.index ≢ index) edits →
        slice_index (run_of g edits numbers).numbers index ≡ slice_index numbers index }
{}

/// After a list of edits, an entry is the result of the last edit of its index on the result of those before.
#[tactic(auto, using(crate::proofs::L2GuardsLemmas::run_of_last))]
pub fn the_last_edit_of_an_entry_decides_it()
    ensures { (g : Geometry) (before later : List TableEdit) (e : TableEdit) (numbers : List ℕ) →
        e.index < length numbers → All (λ (other : TableEdit). other.index ≢ e.index) later →
        slice_index (run_of g (before ++ (e ∷ later)) numbers).numbers e.index
        ≡ entry_after g e.edit (slice_index (run_of g before numbers).numbers e.index) }
{}

/// A list of edits frees what its first part frees, followed by what the rest frees after it.
#[tactic(auto, using(crate::proofs::L2GuardsLemmas::run_of_freed))]
pub fn edits_hand_back_in_their_order()
    ensures { (g : Geometry) (before later : List TableEdit) (numbers : List ℕ) →
        (run_of g (before ++ later) numbers).freed ≡ (run_of g before numbers).freed
        ++ (run_of g later (run_of g before numbers).numbers).freed }
{}
