//! The header fields that change while an image is used: the size of the guest's disk, the places of its L1
//! table and refcount table, and its autoclear features. Each can be written by itself.

ghost use Rattle.std.specs.Prelude.{◌≡◌, ◌*◌, ◌^◌, ◌≤◌, length, Ok, Err, IfSome, MatchOption, MatchResult, OnErr, OnOk};
ghost use Rattle.qcow2_base.specs.OnDiskStruct.{v2_header};
ghost use Rattle.qcow2_metadata.specs.Header.Open.{without_autoclear};
ghost use Rattle.qcow2_metadata.specs.Header.Pointers.{WritesPart, cleared_fields, pointer_fault, table_clusters};

use super::Header;
use crate::entries::refuse;
use crate::{L1Table, PendingClusters, RefTable, Refused, Table};
use qcow2_base::{Fault, OnDiskStruct, Storage, V2Header, write_be};

impl Header {
    /// Sets the size of the guest's disk, in bytes. Doesn't change the image: `write_size` does.
    #[inline]
    pub fn set_size(&mut self, size: u64)
        ensures { self.new ≡ record self.old { v2 = record self.old.v2 { size = size } } }
    {
        self.v2.size = size;
    }

    /// Makes the header refer to an L1 table: sets its offset and number of entries, and spends the pending
    /// clusters of the table, if there are any. Doesn't change the image: `write_l1_table_pointer` does.
    ///
    /// Refuses a table without a cluster (fault 23), then one of 2^32 entries or more (29). A refusal hands
    /// the pending clusters back and changes nothing.
    #[tactic(auto, using(crate::proofs::PointersLemmas::table_offset_aligned))]
    pub fn set_l1_table(
        &mut self,
        l1_table: &L1Table,
        new_allocation: Option<PendingClusters>,
    ) -> Result<(), Refused>
        requires cluster_bits { l1_table.now.geometry.cluster_bits ≡ self.old.v2.cluster_bits }
        requires pending { IfSome l1_table.now.cluster (λ cluster.
            IfSome new_allocation (λ pending. (pending.first ≡ cluster)
            × (pending.count.0 ≡ table_clusters l1_table.now))) }
        ensures answer { MatchOption (pointer_fault l1_table.now (length l1_table.now.numbers))
            (result ≡ Ok tt)
            (λ fault. result ≡ Err (record { fault = fault; pending = new_allocation })) }
        ensures set { OnOk result (IfSome l1_table.now.cluster (λ cluster.
            self.new ≡ record self.old {
              v2 = record self.old.v2 {
                l1_table_offset = cluster.0 * 2 ^ self.old.v2.cluster_bits;
                l1_size = length l1_table.now.numbers;
              };
            })) }
        ensures unchanged { OnErr result (self.new ≡ self.old) }
    {
        let Some(offset) = l1_table.get_offset() else {
            return refuse(Fault::NotPlaced, new_allocation);
        };
        let Ok(entries) = u32::try_from(l1_table.entries()) else {
            return refuse(Fault::TooMany, new_allocation);
        };
        self.v2.l1_size = entries;
        self.v2.l1_table_offset = offset.0;
        if let Some(pending) = new_allocation {
            pending.make_persistent();
        }
        Ok(())
    }

    /// Makes the header refer to a refcount table: sets its offset and number of clusters. Doesn't change the
    /// image: `write_reftable_pointer` does.
    ///
    /// Refuses a table without a cluster (fault 23), then one of 2^32 clusters or more (29). A refusal
    /// changes nothing.
    #[tactic(auto, using(crate::proofs::PointersLemmas::table_offset_aligned))]
    pub fn set_reftable(&mut self, reftable: &RefTable) -> Result<(), Fault>
        requires cluster_bits { reftable.now.geometry.cluster_bits ≡ self.old.v2.cluster_bits }
        ensures answer { MatchOption (pointer_fault reftable.now (table_clusters reftable.now))
            (result ≡ Ok tt) (λ fault. result ≡ Err fault) }
        ensures set { OnOk result (IfSome reftable.now.cluster (λ cluster.
            self.new ≡ record self.old {
              v2 = record self.old.v2 {
                refcount_table_offset = cluster.0 * 2 ^ self.old.v2.cluster_bits;
                refcount_table_clusters = table_clusters reftable.now;
              };
            })) }
        ensures unchanged { OnErr result (self.new ≡ self.old) }
    {
        let Some(offset) = reftable.get_offset() else {
            return Err(Fault::NotPlaced);
        };
        let Ok(clusters) = u32::try_from(reftable.cluster_count().0) else {
            return Err(Fault::TooMany);
        };
        self.v2.refcount_table_offset = offset.0;
        self.v2.refcount_table_clusters = clusters;
        Ok(())
    }

    /// Writes the size of the guest's disk to the image: the 8 bytes at 24, in one call of the storage.
    /// Allocates nothing. The only fault is 34, which may leave any bytes in that range; no other byte
    /// changes.
    pub fn write_size<S: Storage>(&self, image: &mut S) -> Result<(), Fault>
        ensures { WritesPart result (v2_header self.now.v2) 24 32 (S.state image.old) (S.state image.new) }
    {
        write_part(&self.v2, image, 24, 32)
    }

    /// Writes the L1 table's number of entries and its offset to the image: the 12 bytes at 36, in one call
    /// of the storage. Allocates nothing. The only fault is 34, which may leave any bytes in that range; no
    /// other byte changes.
    pub fn write_l1_table_pointer<S: Storage>(&self, image: &mut S) -> Result<(), Fault>
        ensures { WritesPart result (v2_header self.now.v2) 36 48 (S.state image.old) (S.state image.new) }
    {
        write_part(&self.v2, image, 36, 48)
    }

    /// Writes the refcount table's offset and its number of clusters to the image: the 12 bytes at 48, in one
    /// call of the storage. Allocates nothing. The only fault is 34, which may leave any bytes in that range;
    /// no other byte changes.
    pub fn write_reftable_pointer<S: Storage>(&self, image: &mut S) -> Result<(), Fault>
        ensures { WritesPart result (v2_header self.now.v2) 48 60 (S.state image.old) (S.state image.new) }
    {
        write_part(&self.v2, image, 48, 60)
    }

    /// Clears all autoclear features, in the header and in the image, as a program must that writes to the
    /// image and doesn't know them. Writes the 8 bytes at 88, in one call of the storage, so that no other
    /// field can be torn. `into_writable` writes the whole header instead.
    ///
    /// A header without autoclear features stays, and the storage isn't called. Allocates nothing. The only
    /// fault is 34, which leaves the header unchanged and may leave any bytes in that range; no other byte
    /// changes. The format allows the backing file's name to overlap these bytes; it then changes too.
    pub fn clear_autoclear<S: Storage>(&mut self, image: &mut S) -> Result<(), Fault>
        ensures header { MatchResult result (λ _. self.new ≡ without_autoclear self.old)
            (λ _. self.new ≡ self.old) }
        ensures idle { self.old.base.autoclear_features ≡ 0 → (result ≡ Ok tt) × (image.new ≡ image.old) }
        ensures written { WritesPart result (cleared_fields self.old) 88 96
            (S.state image.old) (S.state image.new) }
    {
        if self.base.autoclear_features == 0 {
            return Ok(());
        }
        image.write(&[0; 8], 88)?;
        self.clear_autoclear_features();
        Ok(())
    }
}

// Writes the bytes from `first` to before `end` of a header's first part.
fn write_part<S: Storage>(
    v2: &V2Header,
    image: &mut S,
    first: usize,
    end: usize,
) -> Result<(), Fault>
    requires order { first ≤ end }
    requires within { end ≤ 72 }
    ensures { WritesPart result (v2_header v2.now) first end (S.state image.old) (S.state image.new) }
{
    let mut bytes = [0u8; V2Header::ON_DISK_SIZE];
    write_be(&mut bytes, 0, v2);
    image.write(&bytes[first..end], first as u64)?;
    Ok(())
}
