//! Bit fields of a number.

ghost use Rattle.std.specs.Prelude.{◌≡◌, ◌^◌, ◌<◌};
ghost use Rattle.qcow2_base.specs.Bits as spec;

/// Returns the `count` bits of a number from bit `first` on, as a number. Bit 0 is the lowest.
#[inline]
pub fn field(value: u64, first: u32, count: u32) -> u64
    requires first { first < 64 }
    requires count { count < 64 }
    ensures value { result ≡ spec.field value first count }
    ensures below { result < 2 ^ count }
{
    (value >> first) % (1 << count)
}
