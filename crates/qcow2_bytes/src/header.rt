//! The header in the first cluster of an image.

ghost use Rattle.std.specs.Prelude.{◌≡◌, ◌≢◌, ◌⊎◌, ◌^◌, ◌≤◌, IfErr, IfOk, Ok, OnOk, length};
ghost use Rattle.qcow2_base.specs.Storage.{image_of};
ghost use Rattle.qcow2_base.specs.Types.{IsClusterBits};
ghost use Rattle.qcow2_base.specs.declared.fault.Fault.TheVariants.{NoMemory, Storage as StorageFailed, WrongLength};
ghost use Rattle.qcow2_metadata.specs.Header.{HeaderRecord, each_feature, geometry};
ghost use Rattle.qcow2_metadata.specs.Header.Grammar.{IsAcceptedHeader, IsBase, IsHeaderFault, version_conditions};
ghost use Rattle.qcow2_metadata.specs.Results.{Computes, Reads, after_conditions, result_map};
ghost use Rattle.qcow2_bytes.specs.Header.{ReadsHeader, SaysHeader, any_header_of, first_cluster_size};

use qcow2_base::{
    EXTERNAL_DATA_FILE_BIT, Fault, MAGIC, SliceStorage, Storage, V2Header, V3HeaderBase, field,
    read_be,
};
use qcow2_metadata::{AcceptedFeatures, Header, HeaderExtensionType};
use std::alloc::Global;

mod names;

use names::{backing_name, extension_name};

/// The number of bytes in the fixed parts of a header.
const FIXED_BYTES: usize = 104;

/// The first bit of the incompatible features that no accepted header has.
const UNKNOWN_BITS: u32 = 4;

/// The place of a name in the bytes of a first cluster. Both numbers are 0 if there is no name.
#[repr(C)]
#[derive(Clone, Copy, Debug, PartialEq, Eq)]
pub struct NameRange {
    /// The offset of the name in bytes.
    pub offset: u32,
    /// The length of the name in bytes.
    pub length: u32,
}

/// The fields of a header, in plain numbers.
#[repr(C)]
#[derive(Clone, Copy, Debug, PartialEq, Eq)]
pub struct HeaderFields {
    /// 2 or 3.
    pub version: u32,
    /// A cluster has `2^cluster_bits` bytes.
    pub cluster_bits: u32,
    /// A refcount has `2^refcount_order` bits.
    pub refcount_order: u32,
    /// The kind of encryption, 0 for none.
    pub crypt_method: u32,
    /// The size of the guest's disk, in bytes.
    pub size: u64,
    /// The offset of the L1 table.
    pub l1_offset: u64,
    /// The offset of the refcount table.
    pub reftable_offset: u64,
    /// The number of entries in the L1 table.
    pub l1_entries: u32,
    /// The number of clusters in the refcount table.
    pub reftable_clusters: u32,
    /// Bit 0 says that refcounts may be wrong, bit 1 that any structure may be. Bit 2 says that guest data
    /// lies in an external data file, bit 3 that compressed data is compressed by zstd.
    pub incompatible_features: u64,
    /// Features that a program may ignore.
    pub compatible_features: u64,
    /// Features that a program clears if it writes to the image and doesn't know them.
    pub autoclear_features: u64,
    /// The offset of the snapshot table.
    pub snapshots_offset: u64,
    /// The number of snapshots.
    pub snapshots: u32,
    /// The backing file's name.
    pub backing_name: NameRange,
    /// The format of the backing file.
    pub backing_format: NameRange,
    /// The name of the external data file.
    pub data_file: NameRange,
}

/// Returns the size of an image's first cluster in bytes, from its first 104 bytes. `read_header` needs that
/// many.
///
/// Refuses fewer bytes (31), an image that isn't qcow2 (1), other versions than 2 and 3 (2), and cluster
/// sizes that no image has (3). Takes no memory.
#[tactic(auto, using(crate::proofs::HeaderLemmas::cluster_sizes))]
pub fn header_bytes(first_bytes: &[u8]) -> Result<usize, Fault>
    ensures value { result ≡ first_cluster_size first_bytes.now }
    ensures bound { IfOk result (λ size. (512 ≤ size) × (size ≤ 2 ^ 21)) }
    ensures faults { IfErr result (λ fault. (fault ≡ WrongLength) ⊎ IsHeaderFault fault) }
{
    if first_bytes.len() < FIXED_BYTES {
        return Err(Fault::WrongLength);
    }
    let v2: V2Header = read_be(first_bytes, 0);
    check_version(&v2)?;
    Ok(1 << v2.cluster_bits)
}

// Refuses an image that isn't qcow2 (1), other versions than 2 and 3 (2), and cluster sizes that no image has
// (3).
fn check_version(v2: &V2Header) -> Result<(), Fault>
    ensures exact { result ≡ after_conditions (version_conditions v2.now) (λ _. Ok tt) }
    ensures cluster_bits { OnOk result (IsClusterBits v2.now.cluster_bits) }
    ensures faults { IfErr result IsHeaderFault }
{
    if v2.magic != MAGIC {
        return Err(Fault::NotQcow2);
    }
    if v2.version != 2 && v2.version != 3 {
        return Err(Fault::Version);
    }
    if !(9..=21).contains(&v2.cluster_bits) {
        return Err(Fault::ClusterSize);
    }
    Ok(())
}

/// Decodes the header of an image from the bytes of its first cluster. More bytes may follow. Accepts exactly
/// what `Header::load_accepting` accepts with each feature, in an image that begins with these bytes.
///
/// Refuses what `header_bytes` refuses, then fewer bytes than the cluster has (31), then a header by the
/// first condition of the format that it breaks (1 to 17).
pub fn read_header(alloc: Global, bytes: &[u8]) -> Result<HeaderFields, Fault>
    ensures read { ReadsHeader bytes.now result }
    ensures faults { IfErr result (λ fault.
        (fault ≡ NoMemory) ⊎ (fault ≡ WrongLength) ⊎ IsHeaderFault fault) }
{
    let size = header_bytes(bytes)?;
    if bytes.len() < size {
        return Err(Fault::WrongLength);
    }
    load_header(alloc, bytes)?;
    Ok(fields_of(bytes, size))
}

// Loads the header of an image that has these bytes.
fn load_header(alloc: Global, bytes: &[u8]) -> Result<Header, Fault>
    ensures exact { Computes (λ header. header) result (any_header_of (image_of bytes.now)) }
    ensures faults { IfErr result (λ fault. (fault ≡ NoMemory) ⊎ IsHeaderFault fault) }
{
    let mut image = SliceStorage::new(bytes, 0);
    match load_any_header(alloc, &mut image) {
        Ok(header) => Ok(header),
        Err(fault) => Err(without_storage_fault(fault)),
    }
}

// Loads the header of an image to read it, and accepts each feature that can be.
pub(crate) fn load_any_header<S: Storage>(alloc: Global, image: &mut S) -> Result<Header, Fault>
    ensures { Reads (λ header. header) result any_header_of IsHeaderFault
        (S.state image.old) (S.state image.new) }
{
    Header::load_accepting(alloc, image, false, AcceptedFeatures::each())
}

// Turns fault 34 into 35. No read of a slice fails, but the contracts of calls over any storage don't say so.
pub(crate) fn without_storage_fault(fault: Fault) -> Fault
    ensures { (result ≡ NoMemory) ⊎ ((result ≡ fault) × (fault ≢ StorageFailed)) }
{
    match fault {
        Fault::Storage => Fault::NoMemory,
        _ => fault,
    }
}

// The fields of the header at the start of the bytes.
fn fields_of(bytes: &[u8], cluster_size: usize) -> HeaderFields
    requires whole { cluster_size ≤ length bytes.now }
    requires size { (512 ≤ cluster_size) × (cluster_size ≤ 2 ^ 21) }
    ensures { (header : HeaderRecord) → IsAcceptedHeader each_feature (image_of bytes.now) header →
        cluster_size ≡ 2 ^ header.v2.cluster_bits → SaysHeader (image_of bytes.now) header result }
{
    let v2: V2Header = read_be(bytes, 0);
    let base = read_base(bytes, v2.version);
    HeaderFields {
        version: v2.version,
        cluster_bits: v2.cluster_bits,
        refcount_order: base.refcount_order,
        crypt_method: v2.crypt_method,
        size: v2.size,
        l1_offset: v2.l1_table_offset,
        reftable_offset: v2.refcount_table_offset,
        l1_entries: v2.l1_size,
        reftable_clusters: v2.refcount_table_clusters,
        incompatible_features: base.incompatible_features,
        compatible_features: base.compatible_features,
        autoclear_features: base.autoclear_features,
        snapshots_offset: v2.snapshots_offset,
        snapshots: v2.nb_snapshots,
        backing_name: backing_name(&v2),
        backing_format: extension_name(
            bytes,
            cluster_size,
            &v2,
            &base,
            HeaderExtensionType::BackingFileFormat,
        ),
        data_file: extension_name(
            bytes,
            cluster_size,
            &v2,
            &base,
            HeaderExtensionType::ExternalDataFileName,
        ),
    }
}

// The second part of the header at the start of the bytes: the defaults in version 2.
fn read_base(bytes: &[u8], version: u32) -> V3HeaderBase
    requires { 104 ≤ length bytes.now }
    ensures { IsBase (image_of bytes.now) version result }
{
    if version == 3 {
        read_be(bytes, 72)
    } else {
        V3HeaderBase::default()
    }
}

impl HeaderFields {
    ghost use Rattle.qcow2_bytes.specs.Header.{geometry_in};

    // Returns what the meaning of entries depends on: the cluster bits, and whether guest data lies in an
    // external data file. Refuses fields that no header has (3, 17).
    #[inline]
    pub(crate) fn geometry(&self) -> Result<(u32, bool), Fault>
        ensures value { result_map (λ pair. geometry pair.0 pair.1) result ≡ geometry_in self.now }
        ensures range { IfOk result (λ pair. IsClusterBits pair.0) }
    {
        if !(9..=21).contains(&self.cluster_bits) {
            return Err(Fault::ClusterSize);
        }
        let unknown = self.incompatible_features >> UNKNOWN_BITS << UNKNOWN_BITS;
        if unknown != 0 {
            return Err(Fault::Incompatible(unknown));
        }
        let external = field(self.incompatible_features, EXTERNAL_DATA_FILE_BIT, 1);
        Ok((self.cluster_bits, external == 1))
    }
}
