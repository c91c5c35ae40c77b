//! Parses the output of commands, in the forms of docs/REFERENCE.md.

use qcow2_base::Fault;
use std::alloc::Global;

/// The mapping of a guest cluster.
#[derive(Clone, Copy, PartialEq, Eq)]
pub(crate) enum Mapping {
    Data { offset: u64, is_copied: bool },
    Zeros,
    AllocatedZeros { offset: u64, is_copied: bool },
    Compressed { offset: u64, length: u64 },
    Backing { offset: u64 },
}

/// The content of an extent.
#[derive(Clone, Copy, PartialEq, Eq)]
pub(crate) enum Content {
    Data(u64),
    Zeros,
    AllocatedZeros(u64),
    Compressed,
    Absent,
}

/// A line of `list`, or of `l2`, whose label is an index.
#[derive(Clone, Copy, PartialEq, Eq)]
pub(crate) struct Listed {
    pub(crate) label: u64,
    pub(crate) mapping: Mapping,
}

/// A line of `map`.
#[derive(Clone, Copy, PartialEq, Eq)]
pub(crate) struct Extent {
    pub(crate) start: u64,
    pub(crate) length: u64,
    pub(crate) content: Content,
}

/// The last line of `check`.
#[derive(Clone, Copy, PartialEq, Eq)]
pub(crate) struct Totals {
    pub(crate) leaked: u64,
    pub(crate) missing: u64,
    pub(crate) shared: u64,
    pub(crate) past: u64,
    pub(crate) false_flags: u64,
    pub(crate) late_flags: u64,
}

impl Mapping {
    /// The content at a distance from the cluster's start.
    pub(crate) fn content(self, distance: u64) -> Content {
        match self {
            Mapping::Data { offset, .. } => Content::Data(offset.wrapping_add(distance)),
            Mapping::Zeros => Content::Zeros,
            Mapping::AllocatedZeros { offset, .. } => {
                Content::AllocatedZeros(offset.wrapping_add(distance))
            }
            Mapping::Compressed { .. } => Content::Compressed,
            Mapping::Backing { .. } => Content::Absent,
        }
    }
}

impl Content {
    /// The content this much further on in the same extent.
    pub(crate) fn moved(self, distance: u64) -> Content {
        match self {
            Content::Data(offset) => Content::Data(offset.wrapping_add(distance)),
            Content::AllocatedZeros(offset) => {
                Content::AllocatedZeros(offset.wrapping_add(distance))
            }
            Content::Zeros | Content::Compressed | Content::Absent => self,
        }
    }
}

impl Totals {
    /// The totals of a consistent image.
    pub(crate) const NONE: Totals = Totals {
        leaked: 0,
        missing: 0,
        shared: 0,
        past: 0,
        false_flags: 0,
        late_flags: 0,
    };

    /// Whether the totals have something that may destroy data.
    pub(crate) fn has_errors(&self) -> bool {
        self.missing != 0 || self.shared != 0 || self.past != 0 || self.false_flags != 0
    }
}

/// Parses decimal digits.
pub(crate) fn number_of(word: &str) -> Option<u64> {
    word.parse::<u64>().ok()
}

/// Parses hexadecimal digits after `0x`.
pub(crate) fn offset_of(word: &str) -> Option<u64> {
    u64::from_str_radix(word.strip_prefix("0x")?, 16).ok()
}

/// Parses a mapping.
pub(crate) fn mapping_of(text: &str) -> Option<Mapping> {
    let (name, words) = text.split_once(' ').unwrap_or((text, ""));
    match name {
        "data" => {
            let (offset, is_copied) = place_of(words)?;
            Some(Mapping::Data { offset, is_copied })
        }
        "zero" if words.is_empty() => Some(Mapping::Zeros),
        "zero" => {
            let (offset, is_copied) = place_of(words)?;
            Some(Mapping::AllocatedZeros { offset, is_copied })
        }
        "compressed" => compressed_of(words),
        "backing" => Some(Mapping::Backing {
            offset: offset_of(words)?,
        }),
        _ => None,
    }
}

// Parses an offset, and whether ` copied` follows it.
fn place_of(words: &str) -> Option<(u64, bool)> {
    match words.split_once(' ') {
        None => Some((offset_of(words)?, false)),
        Some((offset, "copied")) => Some((offset_of(offset)?, true)),
        Some(_) => None,
    }
}

fn compressed_of(words: &str) -> Option<Mapping> {
    let (offset, length) = words.split_once(' ')?;
    Some(Mapping::Compressed {
        offset: offset_of(offset)?,
        length: number_of(length)?,
    })
}

/// Parses the lines of `list`. Returns nothing if one has another form.
pub(crate) fn listed_in(alloc: Global, text: &str) -> Result<Option<Vec<Listed>>, Fault> {
    let mut lines = Vec::new(alloc);
    for line in text.lines() {
        match listed_of(line) {
            Some(listed) => lines.push(listed)?,
            None => return Ok(None),
        }
    }
    Ok(Some(lines))
}

// Parses a line of `list` or `l2`.
fn listed_of(line: &str) -> Option<Listed> {
    let (label, mapping) = line.split_once(' ')?;
    Some(Listed {
        label: match offset_of(label) {
            Some(offset) => offset,
            None => number_of(label)?,
        },
        mapping: mapping_of(mapping)?,
    })
}

/// Parses the lines of `map`. Returns nothing if one has another form.
pub(crate) fn extents_in(alloc: Global, text: &str) -> Result<Option<Vec<Extent>>, Fault> {
    let mut extents = Vec::new(alloc);
    for line in text.lines() {
        match extent_of(line) {
            Some(extent) => extents.push(extent)?,
            None => return Ok(None),
        }
    }
    Ok(Some(extents))
}

fn extent_of(line: &str) -> Option<Extent> {
    let (start, rest) = line.split_once(' ')?;
    let (length, content) = rest.split_once(' ')?;
    Some(Extent {
        start: offset_of(start)?,
        length: offset_of(length)?,
        content: content_of(content)?,
    })
}

fn content_of(text: &str) -> Option<Content> {
    let (name, word) = text.split_once(' ').unwrap_or((text, ""));
    match name {
        "data" => Some(Content::Data(offset_of(word)?)),
        "zero" if word.is_empty() => Some(Content::Zeros),
        "zero" => Some(Content::AllocatedZeros(offset_of(word)?)),
        "compressed" => Some(Content::Compressed),
        "backing" => Some(Content::Absent),
        _ => None,
    }
}

/// The last line of a text, or an empty one.
pub(crate) fn last_line(text: &str) -> &str {
    text.lines().last().unwrap_or("")
}

/// Parses the totals in the last line of a check.
pub(crate) fn totals_in(text: &str) -> Option<Totals> {
    let line = last_line(text);
    if line == "consistent" {
        return Some(Totals::NONE);
    }
    let (leaked, line) = first_total(line, "leaked")?;
    let (missing, line) = first_total(line, "missing")?;
    let (shared, line) = first_total(line, "shared")?;
    let (false_flags, line) = first_total(line, "false")?;
    let (late_flags, line) = first_total(line, "late")?;
    let (past, line) = match line {
        "" => (0, line),
        _ => first_total(line, "past")?,
    };
    line.is_empty().then_some(Totals {
        leaked,
        missing,
        shared,
        past,
        false_flags,
        late_flags,
    })
}

// Returns the number after the name that a line begins with, and the rest of the line.
fn first_total<'a>(line: &'a str, name: &str) -> Option<(u64, &'a str)> {
    let (word, rest) = line.split_once(' ')?;
    if word != name {
        return None;
    }
    let (number, rest) = rest.split_once(' ').unwrap_or((rest, ""));
    Some((number_of(number)?, rest))
}

/// Returns the number of a key in a JSON object, or 0 if the object has no such key.
pub(crate) fn json_number(text: &str, key: &str) -> Option<u64> {
    for line in text.lines() {
        if let Some((name, value)) = line.trim().split_once(": ")
            && name == key
        {
            return number_of(value.trim_end_matches(','));
        }
    }
    Some(0)
}
