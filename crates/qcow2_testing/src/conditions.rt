//! Conditions of conversions, as functions that a test can call.

ghost use Rattle.std.specs.Prelude.{◌+◌, ◌*◌, ◌^◌, ◌<◌, ◌↔◌, IsTrue};
ghost use Rattle.qcow2_base.specs.Types.{IsClusterBits};

/// Whether an image may have these cluster bits.
pub fn is_cluster_bits(bits: u32) -> bool
    ensures { IsTrue result ↔ IsClusterBits bits }
{
    9 <= bits && bits <= 21
}

/// Whether `high * 2^bits + low` fits 64 bits.
pub fn fits(high: u64, low: u64, bits: u32) -> bool
    requires { bits < 64 }
    ensures { IsTrue result ↔ (high * 2 ^ bits + low < 2 ^ 64) }
{
    match high.checked_mul(1 << bits) {
        Some(start) => start.checked_add(low).is_some(),
        None => false,
    }
}
