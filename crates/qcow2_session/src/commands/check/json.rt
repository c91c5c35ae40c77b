//! The JSON object that a check prints.

ghost use Rattle.std.specs.Prelude.{◌≡◌, ◌+◌, ◌<◌, ◌≤◌, ◌++◌, flat_map, length, true};
ghost use Rattle.std.specs.Char.Escape.{encode_utf16};
ghost use Rattle.std.specs.Fmt.{digit_glyph};
ghost use Rattle.qcow2_session.specs.Commands.Check.Json.{escaped_char, escaped_text, escaped_unit, file_line, last_lines, mark_line, number_line, object_text};
ghost use Rattle.qcow2_session.specs.Lines.Output.{Gets, GoesOn};

use super::account::Account;
use crate::lines::{LineBuffer, Output};
use std::io::Write;

/// Prints the object for the results of a check, with the name of the image's file.
pub(super) fn print_object<O: Write>(file_name: &str, account: &Account, out: &mut Output<O>)
    ensures text { Gets O.contents out.old out.new (object_text file_name.now account.now) }
    ensures goes_on { GoesOn out.old out.new }
{
    out.print(b"{\n");
    print_number("image-end-offset", account.image_end, out);
    print_number("compressed-clusters", account.entries.compressed, out);
    print_number("total-clusters", account.guest_clusters, out);
    print_number("corruptions", account.corruptions, out);
    out.print(b"    \"check-errors\": 0,\n");
    print_number("leaks", account.totals.leaked, out);
    print_number("shared", account.totals.shared, out);
    print_number("past", account.totals.past, out);
    print_number("false-flags", account.totals.false_flags, out);
    print_number("late-flags", account.totals.late_flags, out);
    print_mark("dirty", account.is_dirty, out);
    print_mark("corrupt", account.is_corrupt, out);
    print_number("allocated-clusters", account.entries.allocated, out);
    print_file_name(file_name, out);
    out.print(last_lines(account.entries.fragmented).as_bytes());
}

// Prints the line of a number, unless it is 0.
fn print_number<O: Write>(name: &str, number: u64, out: &mut Output<O>)
    requires { length name.now ≤ 100 }
    ensures text { Gets O.contents out.old out.new (number_line name.now number) }
    ensures goes_on { GoesOn out.old out.new }
{
    out.print(number_line(name, number).as_bytes());
}

// The line of a number, empty if it is 0.
fn number_line(name: &str, number: u64) -> LineBuffer
    requires { length name.now ≤ 100 }
    ensures { result ≡ number_line name.now number }
{
    let mut line = LineBuffer::new();
    if number != 0 {
        line.prepend(",\n");
        line.prepend_decimal(number);
        line.prepend("\": ");
        line.prepend(name);
        line.prepend("    \"");
    }
    line
}

// Prints the line of a mark, unless it isn't set.
fn print_mark<O: Write>(name: &str, is_set: bool, out: &mut Output<O>)
    requires { length name.now ≤ 100 }
    ensures text { Gets O.contents out.old out.new (mark_line name.now is_set) }
    ensures goes_on { GoesOn out.old out.new }
{
    out.print(mark_line(name, is_set).as_bytes());
}

// The line of a mark, empty if it isn't set.
fn mark_line(name: &str, is_set: bool) -> LineBuffer
    requires { length name.now ≤ 100 }
    ensures { result ≡ mark_line name.now is_set }
{
    let mut line = LineBuffer::new();
    if is_set {
        line.prepend("\": true,\n");
        line.prepend(name);
        line.prepend("    \"");
    }
    line
}

// Prints the line with the name of the image's file.
fn print_file_name<O: Write>(name: &str, out: &mut Output<O>)
    ensures text { Gets O.contents out.old out.new (file_line name.now) }
    ensures goes_on { GoesOn out.old out.new }
{
    out.print(b"    \"filename\": \"");
    print_escaped(name, out);
    out.print(b"\",\n");
}

// Prints a text, escaped for a JSON string.
fn print_escaped<O: Write>(text: &str, out: &mut Output<O>)
    ensures text { Gets O.contents out.old out.new (escaped_text text.now) }
    ensures goes_on { GoesOn out.old out.new }
{
    for character in text.chars() {
        out.print(escaped_char(character).as_bytes());
    }
}

// A character, escaped for a JSON string.
fn escaped_char(character: char) -> LineBuffer
    ensures { result ≡ escaped_char character }
{
    let mut line = LineBuffer::new();
    match character {
        '"' => line.prepend("\\\""),
        '\\' => line.prepend("\\\\"),
        '\u{8}' => line.prepend("\\b"),
        '\u{c}' => line.prepend("\\f"),
        '\n' => line.prepend("\\n"),
        '\r' => line.prepend("\\r"),
        '\t' => line.prepend("\\t"),
        ' '..='~' => line.prepend_byte(character as u8),
        _ => prepend_units(&mut line, u32::from(character)),
    }
    line
}

// Puts the one or two UTF-16 units of a character in front of a line, escaped.
fn prepend_units(line: &mut LineBuffer, code: u32)
    requires code { code < 1114112 }
    requires room { length line.old ≤ 100 }
    ensures { line.new ≡ flat_map escaped_unit (encode_utf16 code) ++ line.old }
{
    if code < 0x10000 {
        prepend_unit(line, code);
    } else {
        prepend_unit(line, 0xdc00 + (code - 0x10000) % 0x400);
        prepend_unit(line, 0xd800 + (code - 0x10000) / 0x400);
    }
}

// Puts an escaped UTF-16 unit in front of a line.
fn prepend_unit(line: &mut LineBuffer, unit: u32)
    requires { length line.old ≤ 150 }
    ensures text { line.new ≡ escaped_unit unit ++ line.old }
    ensures bound { length line.new ≤ length line.old + 6 }
{
    line.prepend_byte(hex_digit(unit % 16));
    line.prepend_byte(hex_digit(unit / 16 % 16));
    line.prepend_byte(hex_digit(unit / 256 % 16));
    line.prepend_byte(hex_digit(unit / 4096 % 16));
    line.prepend("\\u");
}

// The hexadecimal digit of a number below 16, in upper case.
fn hex_digit(number: u32) -> u8
    requires { number < 16 }
    ensures { result ≡ digit_glyph true number }
{
    if number < 10 {
        b'0' + number as u8
    } else {
        b'A' + (number as u8 - 10)
    }
}

// The last lines: the format, and the number of fragmented entries unless it is 0.
fn last_lines(fragmented: u64) -> LineBuffer
    ensures { result ≡ last_lines fragmented }
{
    let mut line = LineBuffer::new();
    line.prepend("\n}\n");
    if fragmented != 0 {
        line.prepend_decimal(fragmented);
        line.prepend(",\n    \"fragmented-clusters\": ");
    }
    line.prepend("    \"format\": \"qcow2\"");
    line
}
