//! Loads and stores of integers and of structures, by each call.

ghost use Rattle.std.specs.Prelude.{◌≡◌, false, [], ◌∷◌, refl, IfOk};
ghost use Rattle.std.proofs.Common.{rules};
ghost use Rattle.qcow2_base.specs.OnDiskStruct.{big, little};

use qcow2_base::{
    Fault, HeaderExtensionHeader, OnDiskSize, OnDiskStruct, SnapshotHeader, V2Header, V3HeaderBase,
    read_be, read_le, write_be, write_le,
};
use qcow2_testing::{part_of, row_error, same, same_bytes};
use std::fmt::Debug;
use std::test::Fail;

// Loads a structure whose fields stand at these offsets, if the slice is long enough.
macro_rules! loaded {
    ($bytes:ident, $read:ident, $name:ident { $($field:ident: $at:literal),* }) => {{
        if $bytes.len() < Self::ON_DISK_SIZE {
            return Err(Fault::WrongLength);
        }
        Ok($name { $($field: $read($bytes, $at)),* })
    }};
}

// Stores the fields at these offsets, if the slice is long enough.
macro_rules! stored {
    ($bytes:ident, $write:ident, $value:ident { $($field:ident: $at:literal),* }) => {{
        if $bytes.len() < Self::ON_DISK_SIZE {
            return Err(Fault::WrongLength);
        }
        $($write($bytes, $at, &$value.$field);)*
        Ok(())
    }};
}

/// Consecutive fields of three lengths.
#[derive(Clone, Copy, Debug, PartialEq, Eq)]
struct TestBE {
    a: u32,
    b: u64,
    c: u16,
}

impl OnDiskStruct for TestBE {
    const ON_DISK_SIZE: usize = 14;

    ghost ON_DISK_SIZE = { 14 };

    ghost exact = { false };

    ghost layout = { λ _ value. big 0 4 value.a ∷ big 4 8 value.b ∷ big 12 2 value.c ∷ [] };

    fn load_from_le(bytes: &[u8]) -> Result<TestBE, Fault> {
        Self::load_from_be(bytes)
    }

    fn load_from_be(bytes: &[u8]) -> Result<TestBE, Fault> {
        loaded! { bytes, read_be, TestBE { a: 0, b: 4, c: 12 } }
    }

    fn store_to_le(&self, bytes: &mut [u8]) -> Result<(), Fault> {
        self.store_to_be(bytes)
    }

    fn store_to_be(&self, bytes: &mut [u8]) -> Result<(), Fault> {
        stored! { bytes, write_be, self { a: 0, b: 4, c: 12 } }
    }

    ghost size_is_end = { λ order value. refl };

    ghost loads_back = { λ order image a b held_a held_b. Prim.search rules };
}

/// A structure in little-endian order.
#[derive(Clone, Copy, Debug, PartialEq, Eq)]
struct TestLE {
    x: u32,
    y: u32,
}

impl OnDiskStruct for TestLE {
    const ON_DISK_SIZE: usize = 8;

    ghost ON_DISK_SIZE = { 8 };

    ghost exact = { false };

    ghost layout = { λ _ value. little 0 4 value.x ∷ little 4 4 value.y ∷ [] };

    fn load_from_le(bytes: &[u8]) -> Result<TestLE, Fault> {
        loaded! { bytes, read_le, TestLE { x: 0, y: 4 } }
    }

    fn load_from_be(bytes: &[u8]) -> Result<TestLE, Fault> {
        Self::load_from_le(bytes)
    }

    fn store_to_le(&self, bytes: &mut [u8]) -> Result<(), Fault> {
        stored! { bytes, write_le, self { x: 0, y: 4 } }
    }

    fn store_to_be(&self, bytes: &mut [u8]) -> Result<(), Fault> {
        self.store_to_le(bytes)
    }

    ghost size_is_end = { λ order value. refl };

    ghost loads_back = { λ order image a b held_a held_b. Prim.search rules };
}

/// Fields of two lengths.
#[derive(Clone, Copy, Debug, PartialEq, Eq)]
struct TestAtomics {
    plain: u32,
    atomic32: u32,
    atomic64: u64,
}

impl OnDiskStruct for TestAtomics {
    const ON_DISK_SIZE: usize = 16;

    ghost ON_DISK_SIZE = { 16 };

    ghost exact = { false };

    ghost layout = { λ _ value.
        big 0 4 value.plain ∷ big 4 4 value.atomic32 ∷ big 8 8 value.atomic64 ∷ [] };

    fn load_from_le(bytes: &[u8]) -> Result<TestAtomics, Fault> {
        Self::load_from_be(bytes)
    }

    fn load_from_be(bytes: &[u8]) -> Result<TestAtomics, Fault> {
        loaded! { bytes, read_be, TestAtomics { plain: 0, atomic32: 4, atomic64: 8 } }
    }

    fn store_to_le(&self, bytes: &mut [u8]) -> Result<(), Fault> {
        self.store_to_be(bytes)
    }

    fn store_to_be(&self, bytes: &mut [u8]) -> Result<(), Fault> {
        stored! { bytes, write_be, self { plain: 0, atomic32: 4, atomic64: 8 } }
    }

    ghost size_is_end = { λ order value. refl };

    ghost loads_back = { λ order image a b held_a held_b. Prim.search rules };
}

/// Two fields with four unused bytes between them.
#[derive(Clone, Copy, Debug, PartialEq, Eq)]
struct TestGaps {
    first: u32,
    second: u16,
}

impl OnDiskStruct for TestGaps {
    const ON_DISK_SIZE: usize = 10;

    ghost ON_DISK_SIZE = { 10 };

    ghost exact = { false };

    ghost layout = { λ _ value. big 0 4 value.first ∷ big 8 2 value.second ∷ [] };

    fn load_from_le(bytes: &[u8]) -> Result<TestGaps, Fault> {
        Self::load_from_be(bytes)
    }

    fn load_from_be(bytes: &[u8]) -> Result<TestGaps, Fault> {
        loaded! { bytes, read_be, TestGaps { first: 0, second: 8 } }
    }

    fn store_to_le(&self, bytes: &mut [u8]) -> Result<(), Fault> {
        self.store_to_be(bytes)
    }

    fn store_to_be(&self, bytes: &mut [u8]) -> Result<(), Fault> {
        stored! { bytes, write_be, self { first: 0, second: 8 } }
    }

    ghost size_is_end = { λ order value. refl };

    ghost loads_back = { λ order image a b held_a held_b. Prim.search rules };
}

/// A single field.
#[derive(Clone, Copy, Debug, PartialEq, Eq)]
struct TestSingle {
    only: u64,
}

impl OnDiskStruct for TestSingle {
    const ON_DISK_SIZE: usize = 8;

    ghost ON_DISK_SIZE = { 8 };

    ghost exact = { false };

    ghost layout = { λ _ value. big 0 8 value.only ∷ [] };

    fn load_from_le(bytes: &[u8]) -> Result<TestSingle, Fault> {
        Self::load_from_be(bytes)
    }

    fn load_from_be(bytes: &[u8]) -> Result<TestSingle, Fault> {
        loaded! { bytes, read_be, TestSingle { only: 0 } }
    }

    fn store_to_le(&self, bytes: &mut [u8]) -> Result<(), Fault> {
        self.store_to_be(bytes)
    }

    fn store_to_be(&self, bytes: &mut [u8]) -> Result<(), Fault> {
        stored! { bytes, write_be, self { only: 0 } }
    }

    ghost size_is_end = { λ order value. refl };

    ghost loads_back = { λ order image a b held_a held_b. Prim.search rules };
}

/// The three byte orders that a caller can ask for.
#[derive(Clone, Copy, Debug)]
enum Call {
    LittleEndian,
    BigEndian,
    Native,
}

fn load<T: OnDiskStruct>(call: Call, bytes: &[u8]) -> Result<T, Fault> {
    match call {
        Call::LittleEndian => T::load_from_le(bytes),
        Call::BigEndian => T::load_from_be(bytes),
        Call::Native => T::load_from(bytes),
    }
}

fn store<T: OnDiskStruct>(call: Call, value: &T, bytes: &mut [u8]) -> Result<(), Fault> {
    match call {
        Call::LittleEndian => value.store_to_le(bytes),
        Call::BigEndian => value.store_to_be(bytes),
        Call::Native => value.store_to(bytes),
    }
}

/// Stores the value and loads it again; the result is the value, whatever its type.
fn reload<T: OnDiskStruct + Drop>(value: &T, bytes: &mut [u8]) -> Result<T, Fault>
    ensures { IfOk result (λ loaded. loaded ≡ value.now) }
{
    value.store_to_be(bytes)?;
    T::load_from_be(bytes)
}

const FILLED: [u8; 80] = [0xff; 80];

/// Checks that the call stores the value as these bytes into a buffer of `len` bytes 0xff, leaves those that
/// follow, and loads it back, or that both calls return this fault.
fn check_left<T: OnDiskStruct + Copy + Debug + PartialEq>(
    call: Call,
    value: T,
    expected: &[u8],
    len: usize,
    answer: Result<(), Fault>,
) -> Result<(), Fail> {
    let mut buffer = FILLED;
    let Some(bytes) = buffer.get_mut(..len) else {
        return Err(row_error(len));
    };
    let wanted = match answer {
        Ok(()) => Ok(value),
        Err(fault) => Err(fault),
    };
    let stored = store(call, &value, bytes);
    let found = (stored, load(call, bytes));
    same(found, (answer, wanted), (call, value, len))?;
    let start = expected.len();
    same_bytes(part_of(&buffer, 0, start)?, expected, (call, value))?;
    let past = part_of(&FILLED, start, FILLED.len())?;
    same_bytes(part_of(&buffer, start, FILLED.len())?, past, (call, value))
}

/// Checks that each call refuses to store the value into a buffer of `len` bytes, leaves the buffer, and
/// refuses to load from it.
fn check_refusals<T: OnDiskStruct + Copy + Debug + PartialEq>(
    value: T,
    len: usize,
) -> Result<(), Fail> {
    let refused = Err(Fault::WrongLength);
    check_left(Call::LittleEndian, value, &[], len, refused)?;
    check_left(Call::BigEndian, value, &[], len, refused)?;
    check_left(Call::Native, value, &[], len, refused)
}

/// Checks that the calls store the value as these bytes, need no fewer, and leave `spare` bytes that follow.
fn check_each_call<T: OnDiskStruct + Copy + Debug + PartialEq>(
    value: T,
    little: &[u8],
    big: &[u8],
    spare: usize,
) -> Result<(), Fail> {
    let size = little.len();
    same((T::ON_DISK_SIZE, value.on_disk_size()), (size, size), value)?;
    let len = size.saturating_add(spare);
    check_left(Call::LittleEndian, value, little, len, Ok(()))?;
    check_left(Call::BigEndian, value, big, len, Ok(()))?;
    check_left(Call::Native, value, little, len, Ok(()))?;
    check_refusals(value, size.saturating_sub(1))?;
    let mut buffer = FILLED;
    let Some(bytes) = buffer.get_mut(..size) else {
        return Err(row_error(value));
    };
    same(reload(&value, bytes), Ok(value), value)
}

#[test]
fn integers_stand_in_the_order_asked_for_and_need_just_their_bytes() -> Result<(), Fail> {
    check_each_call(0x0102u16, &[2, 1], &[1, 2], 0)?;
    check_each_call(0x0102_0304u32, &[4, 3, 2, 1], &[1, 2, 3, 4], 0)?;
    let little = [8, 7, 6, 5, 4, 3, 2, 1];
    let big = [1, 2, 3, 4, 5, 6, 7, 8];
    check_each_call(0x0102_0304_0506_0708u64, &little, &big, 0)?;
    check_refusals(0x0102u16, 3)?;
    check_refusals(42u32, 3)?;
    check_refusals(42u32, 5)?;
    check_refusals(0x0102_0304_0506_0708u64, 9)
}

// Checks that the calls store each structure as the bytes after its arrow, and leave the three bytes that
// follow.
macro_rules! structures {
    ($($value:expr => $bytes:expr),* $(,)?) => {{
        $(check_each_call($value, &$bytes, &$bytes, 3)?;)*
        Ok(())
    }};
}

#[test]
fn a_structure_stands_in_its_own_order_whatever_is_asked_for() -> Result<(), Fail> {
    structures! {
        TestBE { a: 0x0102_0304, b: 0x0506_0708_090a_0b0c, c: 0x0d0e }
            => [1, 2, 3, 4, 5, 6, 7, 8, 9, 10, 11, 12, 13, 14],
        TestLE { x: 0x0102_0304, y: 0x0506_0708 } => [4, 3, 2, 1, 8, 7, 6, 5],
        TestAtomics { plain: 0x0102_0304, atomic32: 0x0506_0708, atomic64: 0x090a_0b0c_0d0e_0f10 }
            => [1, 2, 3, 4, 5, 6, 7, 8, 9, 10, 11, 12, 13, 14, 15, 16],
        // the bytes between the fields stay
        TestGaps { first: 0x1122_3344, second: 0x5566 }
            => [0x11, 0x22, 0x33, 0x44, 0xff, 0xff, 0xff, 0xff, 0x55, 0x66],
        TestSingle { only: 0x0102_0304_0506_0708 } => [1, 2, 3, 4, 5, 6, 7, 8],
        HeaderExtensionHeader { extension_type: 0xe279_2aca, length: 5 }
            => [0xe2, 0x79, 0x2a, 0xca, 0, 0, 0, 5],
        // no feature by default
        V3HeaderBase::default() => [
            0, 0, 0, 0, 0, 0, 0, 0, 0, 0, 0, 0, 0, 0, 0, 0, 0, 0, 0, 0, 0, 0, 0, 0, 0, 0, 0, 4, 0, 0, 0, 0x68,
        ],
    }
}

#[test]
fn each_field_of_a_header_has_bytes_of_its_own() -> Result<(), Fail> {
    structures! {
        V3HeaderBase {
            incompatible_features: 0x0102_0304_0506_0708, compatible_features: 0x1112_1314_1516_1718,
            autoclear_features: 0x2122_2324_2526_2728, refcount_order: 0x3132_3334,
            header_length: 0x4142_4344,
        } => [
            0x01, 0x02, 0x03, 0x04, 0x05, 0x06, 0x07, 0x08, 0x11, 0x12, 0x13, 0x14, 0x15, 0x16, 0x17, 0x18,
            0x21, 0x22, 0x23, 0x24, 0x25, 0x26, 0x27, 0x28, 0x31, 0x32, 0x33, 0x34, 0x41, 0x42, 0x43, 0x44,
        ],
        V2Header {
            magic: 0x5146_49fb, version: 2, backing_file_offset: 0x1112_1314_1516_1718,
            backing_file_size: 0x2122_2324, cluster_bits: 16, size: 0x3132_3334_3536_3738,
            crypt_method: 0x4142_4344, l1_size: 0x5152_5354, l1_table_offset: 0x6162_6364_6566_6768,
            refcount_table_offset: 0x7172_7374_7576_7778, refcount_table_clusters: 0x8182_8384,
            nb_snapshots: 0x9192_9394, snapshots_offset: 0xa1a2_a3a4_a5a6_a7a8,
        } => [
            0x51, 0x46, 0x49, 0xfb, 0, 0, 0, 2, 0x11, 0x12, 0x13, 0x14, 0x15, 0x16, 0x17, 0x18, 0x21, 0x22,
            0x23, 0x24, 0, 0, 0, 16, 0x31, 0x32, 0x33, 0x34, 0x35, 0x36, 0x37, 0x38, 0x41, 0x42, 0x43, 0x44,
            0x51, 0x52, 0x53, 0x54, 0x61, 0x62, 0x63, 0x64, 0x65, 0x66, 0x67, 0x68, 0x71, 0x72, 0x73, 0x74,
            0x75, 0x76, 0x77, 0x78, 0x81, 0x82, 0x83, 0x84, 0x91, 0x92, 0x93, 0x94, 0xa1, 0xa2, 0xa3, 0xa4,
            0xa5, 0xa6, 0xa7, 0xa8,
        ],
        SnapshotHeader {
            l1_table_offset: 0x0102_0304_0506_0708, l1_size: 0x1112_1314, id_str_size: 0x2122,
            name_size: 0x3132, date_sec: 0x4142_4344, date_nsec: 0x5152_5354,
            vm_clock_nsec: 0x6162_6364_6566_6768, vm_state_size: 0x7172_7374, extra_data_size: 0x8182_8384,
        } => [
            0x01, 0x02, 0x03, 0x04, 0x05, 0x06, 0x07, 0x08, 0x11, 0x12, 0x13, 0x14, 0x21, 0x22, 0x31, 0x32,
            0x41, 0x42, 0x43, 0x44, 0x51, 0x52, 0x53, 0x54, 0x61, 0x62, 0x63, 0x64, 0x65, 0x66, 0x67, 0x68,
            0x71, 0x72, 0x73, 0x74, 0x81, 0x82, 0x83, 0x84,
        ],
    }
}

#[test]
fn a_value_stands_at_any_place() -> Result<(), Fail> {
    let f = 0xff;
    let number = 0x0102_0304u32;
    let mut bytes = [f; 10];
    write_be(&mut bytes, 5, &number);
    let expected = ([f, f, f, f, f, 1, 2, 3, 4, f], number);
    same((bytes, read_be(&bytes, 5)), expected, "big-endian")?;
    write_le(&mut bytes, 6, &number);
    let expected = ([f, f, f, f, f, 1, 4, 3, 2, 1], number);
    same((bytes, read_le(&bytes, 6)), expected, "little-endian")
}
