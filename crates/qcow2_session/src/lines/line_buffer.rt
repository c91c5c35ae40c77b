//! A buffer for a line, filled in place from its end to its start, without allocation.

ghost use Rattle.std.specs.Prelude.{◌≡◌, ◌+◌, ◌<◌, ◌≤◌, ◌∷◌, ◌++◌, [], false, drop, length};
ghost use Rattle.std.specs.Fmt.{decimal, digits};
ghost use Rattle.qcow2_session.specs.Lines.{offset_text};

use std::marker::Model;

/// The capacity of a line, in bytes.
pub(crate) const LINE_BYTES: usize = 256;

/// Hexadecimal digits, in lower case.
const HEX_DIGITS: [u8; 16] = *b"0123456789abcdef";

/// A line under construction: `bytes` from `start` on. Contracts see these bytes.
#[derive(Drop)]
pub(crate) struct LineBuffer {
    bytes: [u8; LINE_BYTES],
    start: usize,
}

impl Model for LineBuffer {
    ghost use Rattle.std.specs.Prelude.{ℕ, ◌≤◌, List, drop};

    ghost Value = { List ℕ };

    ghost view = { λ line. drop line.start line.bytes };

    ghost invariant = { λ line. line.start ≤ 256 };
}

impl LineBuffer {
    /// Makes an empty line.
    #[inline]
    pub(crate) fn new() -> LineBuffer
        ensures { result ≡ [] }
    {
        LineBuffer {
            bytes: [0; LINE_BYTES],
            start: LINE_BYTES,
        }
    }

    /// Empties the line.
    #[inline]
    pub(crate) fn clear(&mut self)
        ensures { self.new ≡ [] }
    {
        self.start = self.bytes.len();
    }

    /// Returns the line so far.
    #[inline]
    pub(crate) fn as_bytes(&self) -> &[u8]
        ensures { result.now ≡ self.now }
    {
        &self.bytes[self.start..]
    }

    /// Puts a text in front.
    #[inline]
    pub(crate) fn prepend(&mut self, text: &str)
        requires { length text.now + length self.old ≤ 256 }
        ensures { self.new ≡ text.now ++ self.old }
    {
        let start = self.start - text.len();
        self.bytes[start..self.start].copy_from_slice(text.as_bytes());
        self.start = start;
    }

    /// Puts a byte in front.
    #[inline]
    pub(crate) fn prepend_byte(&mut self, byte: u8)
        requires { length self.old < 256 }
        ensures { self.new ≡ byte ∷ self.old }
    {
        let start = self.start - 1;
        self.bytes[start] = byte;
        self.start = start;
    }

    /// Puts an offset in front, as `0x` and hexadecimal digits.
    #[inline]
    #[tactic(auto, using(crate::proofs::HexLemmas::hex_written))]
    pub(crate) fn prepend_offset(&mut self, offset: u64)
        requires { length self.old ≤ 200 }
        ensures text { self.new ≡ offset_text offset ++ self.old }
        ensures bound { length self.new ≤ length self.old + 18 }
    {
        self.start = write_hex(offset, &mut self.bytes, self.start);
        self.prepend("0x");
    }

    /// Puts a number in front, in decimal.
    #[inline]
    pub(crate) fn prepend_decimal(&mut self, number: u64)
        requires { length self.old ≤ 200 }
        ensures text { self.new ≡ decimal number ++ self.old }
        ensures bound { length self.new ≤ length self.old + 20 }
    {
        self.start = itoa::write_digits(number, &mut self.bytes, self.start);
    }
}

// Writes the hexadecimal digits of a number so that they end before `end`, and returns where they start.
#[tactic(auto, using(crate::proofs::HexLemmas::hex_written))]
fn write_hex(number: u64, bytes: &mut [u8], end: usize) -> usize
    requires { (16 ≤ end) × (end ≤ length bytes.old) }
    ensures start { result + length (digits 16 false number) ≡ end }
    ensures written { drop result bytes.new ≡ digits 16 false number ++ drop end bytes.old }
{
    let mut left = number;
    let mut start = end;
    while left >= 16 {
        start -= 1;
        bytes[start] = HEX_DIGITS[(left % 16) as usize];
        left /= 16;
    }
    start -= 1;
    bytes[start] = HEX_DIGITS[left as usize];
    start
}
