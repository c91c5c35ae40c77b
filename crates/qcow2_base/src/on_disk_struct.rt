//! Structures with a fixed layout on the disk: loads them from bytes, and stores them into bytes.

ghost use Rattle.std.specs.Prelude.{◌≡◌, ℕ, ◌+◌, ◌≤◌, Bool, List, length, is_ok, IfOk, OnOk, OnErr, IsOkUnless};
ghost use Rattle.qcow2_base.specs.Storage.{Image, image_of};
ghost use Rattle.qcow2_base.specs.OnDiskStruct.{Order, Big, Little, LayoutField, HoldsLayout, Stores, layout_end, fields_moved_by, is_right_length};

mod header_extension_header;
mod integers;
mod snapshot_header;
mod v2_header;
mod v3_header_base;

use crate::Fault;
pub use header_extension_header::HeaderExtensionHeader;
pub use snapshot_header::SnapshotHeader;
pub use v2_header::V2Header;
pub use v3_header_base::V3HeaderBase;

/// A value that has a fixed layout on the disk.
///
/// An integer has no byte order of its own, and its buffer must have exactly its length. A structure has one
/// byte order in all calls, and its buffer must have at least its length. Calls neither read nor change bytes
/// that belong to no field.
pub trait OnDiskStruct: Sized {
    /// The length on the disk, in bytes.
    const ON_DISK_SIZE: usize;

    ghost ON_DISK_SIZE: { ℕ };

    /// Whether the buffer must have exactly that length.
    ghost exact: { Bool };

    /// The fields in this byte order.
    ghost layout: { Order → Self → List LayoutField };

    /// Returns the value at the start of the bytes, little-endian unless the type has its own byte order.
    /// Returns `WrongLength` for a buffer of a wrong length.
    fn load_from_le(bytes: &[u8]) -> Result<Self, Fault>
        ensures ok { is_ok result ≡ is_right_length exact ON_DISK_SIZE (length bytes.now) }
        ensures err { IsOkUnless result Fault.WrongLength }
        ensures loaded { IfOk result (λ value.
            HoldsLayout (image_of bytes.now) (layout Little value)) };

    /// Returns the value at the start of the bytes, big-endian unless the type has its own byte order.
    /// Returns `WrongLength` for a buffer of a wrong length.
    fn load_from_be(bytes: &[u8]) -> Result<Self, Fault>
        ensures ok { is_ok result ≡ is_right_length exact ON_DISK_SIZE (length bytes.now) }
        ensures err { IsOkUnless result Fault.WrongLength }
        ensures loaded { IfOk result (λ value.
            HoldsLayout (image_of bytes.now) (layout Big value)) };

    /// Writes the value to the start of the bytes, little-endian unless the type has its own byte order.
    /// Returns `WrongLength` for a buffer of a wrong length, and leaves it unchanged.
    fn store_to_le(&self, bytes: &mut [u8]) -> Result<(), Fault>
        ensures ok { is_ok result ≡ is_right_length exact ON_DISK_SIZE (length bytes.old) }
        ensures err { IsOkUnless result Fault.WrongLength }
        ensures stored { OnOk result
            (Stores (layout Little self.now) (image_of bytes.old) (image_of bytes.new)) }
        ensures unchanged { OnErr result (bytes.new ≡ bytes.old) };

    /// Writes the value to the start of the bytes, big-endian unless the type has its own byte order. Returns
    /// `WrongLength` for a buffer of a wrong length, and leaves it unchanged.
    fn store_to_be(&self, bytes: &mut [u8]) -> Result<(), Fault>
        ensures ok { is_ok result ≡ is_right_length exact ON_DISK_SIZE (length bytes.old) }
        ensures err { IsOkUnless result Fault.WrongLength }
        ensures stored { OnOk result
            (Stores (layout Big self.now) (image_of bytes.old) (image_of bytes.new)) }
        ensures unchanged { OnErr result (bytes.new ≡ bytes.old) };

    /// Returns the value at the start of the bytes, in the type's own byte order or else the machine's,
    /// little-endian. Returns `WrongLength` for a buffer of a wrong length.
    #[inline]
    final fn load_from(bytes: &[u8]) -> Result<Self, Fault>
        ensures ok { is_ok result ≡ is_right_length exact ON_DISK_SIZE (length bytes.now) }
        ensures err { IsOkUnless result Fault.WrongLength }
        ensures loaded { IfOk result (λ value.
            HoldsLayout (image_of bytes.now) (layout Little value)) }
    {
        Self::load_from_le(bytes)
    }

    /// Writes the value to the start of the bytes, in the type's own byte order or else the machine's,
    /// little-endian. Returns `WrongLength` for a buffer of a wrong length, and leaves it unchanged.
    #[inline]
    final fn store_to(&self, bytes: &mut [u8]) -> Result<(), Fault>
        ensures ok { is_ok result ≡ is_right_length exact ON_DISK_SIZE (length bytes.old) }
        ensures err { IsOkUnless result Fault.WrongLength }
        ensures stored { OnOk result
            (Stores (layout Little self.now) (image_of bytes.old) (image_of bytes.new)) }
        ensures unchanged { OnErr result (bytes.new ≡ bytes.old) }
    {
        self.store_to_le(bytes)
    }

    /// The last field ends where the value does.
    ghost size_is_end: { (order : Order) (value : Self) →
        layout_end (layout order value) ≡ ON_DISK_SIZE };

    /// The bytes determine the value: loading a stored value returns it.
    ghost loads_back: { (order : Order) (image : Image) (a b : Self) →
        HoldsLayout image (layout order a) → HoldsLayout image (layout order b) → a ≡ b };
}

/// The length on the disk, by a value instead of its type.
///
/// This is a trait of its own, since a method of `OnDiskStruct` may not have a constant's name in lower case.
pub trait OnDiskSize: OnDiskStruct {
    /// The length on the disk, in bytes.
    #[inline]
    final fn on_disk_size(&self) -> usize
        ensures { result ≡ Self.ON_DISK_SIZE }
    {
        Self::ON_DISK_SIZE
    }
}

impl<T: OnDiskStruct> OnDiskSize for T {}

/// Returns the value at the place, big-endian unless the type has its own byte order.
#[inline]
pub fn read_be<T: OnDiskStruct>(bytes: &[u8], place: usize) -> T
    requires { place + T.ON_DISK_SIZE ≤ length bytes.now }
    ensures { HoldsLayout (image_of bytes.now) (fields_moved_by place (T.layout Big result)) }
{
    T::load_from_be(&bytes[place..place + T::ON_DISK_SIZE]).unwrap()
}

/// Returns the value at the place, little-endian unless the type has its own byte order.
#[inline]
pub fn read_le<T: OnDiskStruct>(bytes: &[u8], place: usize) -> T
    requires { place + T.ON_DISK_SIZE ≤ length bytes.now }
    ensures { HoldsLayout (image_of bytes.now) (fields_moved_by place (T.layout Little result)) }
{
    T::load_from_le(&bytes[place..place + T::ON_DISK_SIZE]).unwrap()
}

/// Writes the value to the place, big-endian unless the type has its own byte order.
#[inline]
pub fn write_be<T: OnDiskStruct>(bytes: &mut [u8], place: usize, value: &T)
    requires { place + T.ON_DISK_SIZE ≤ length bytes.old }
    ensures { Stores (fields_moved_by place (T.layout Big value.now))
        (image_of bytes.old) (image_of bytes.new) }
{
    value
        .store_to_be(&mut bytes[place..place + T::ON_DISK_SIZE])
        .unwrap()
}

/// Writes the value to the place, little-endian unless the type has its own byte order.
#[inline]
pub fn write_le<T: OnDiskStruct>(bytes: &mut [u8], place: usize, value: &T)
    requires { place + T.ON_DISK_SIZE ≤ length bytes.old }
    ensures { Stores (fields_moved_by place (T.layout Little value.now))
        (image_of bytes.old) (image_of bytes.new) }
{
    value
        .store_to_le(&mut bytes[place..place + T::ON_DISK_SIZE])
        .unwrap()
}
