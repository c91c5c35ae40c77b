//! Lines of words, and the request of each.

use super::run::words_of;
use qcow2_session::Request;
use qcow2_testing::{each, rows, same};
use std::alloc::Global;
use std::test::Fail;

// The kind of a request.
#[derive(Clone, Copy, Debug, PartialEq)]
enum Asked<'a> {
    Text,
    Question,
    /// A command over the image of this path.
    Command(&'a str),
    Nothing,
}

impl<'a> Asked<'a> {
    fn by(request: &Request<'a>) -> Asked<'a> {
        match request {
            Request::Text(_) => Asked::Text,
            Request::Question(_) => Asked::Question,
            Request::Command { path, .. } => Asked::Command(path),
            Request::Nothing => Asked::Nothing,
        }
    }
}

const IMAGE: Asked<'static> = Asked::Command("image");

// A line, and the kind of its request.
type Row = (&'static str, Asked<'static>);

const ROWS: &[Row] = rows! {
    ("help", Asked::Text),
    ("--help", Asked::Text),
    ("-h", Asked::Text),
    ("help check", Asked::Text),
    ("check --help", Asked::Text),
    ("explain -h", Asked::Text),
    ("version", Asked::Text),
    ("--version", Asked::Text),
    ("explain", Asked::Text),
    ("explain 3", Asked::Text),
    ("explain 3 IMAGE", Asked::Question),
    ("explain 3 --help", Asked::Question),
    // some commands take any word as the name of an image
    ("info --help", Asked::Command("--help")),
    ("info IMAGE", IMAGE),
    ("check IMAGE repair", IMAGE),
    ("edit IMAGE 0 discard:3", IMAGE),
    ("edit IMAGE 0 --help", Asked::Nothing),
    // no words, texts that don't exist, and too many words
    ("", Asked::Nothing),
    ("help nothing", Asked::Nothing),
    ("nothing --help", Asked::Nothing),
    ("help check IMAGE", Asked::Nothing),
    ("version IMAGE", Asked::Nothing),
    ("explain 43", Asked::Nothing),
    ("explain 43 IMAGE", Asked::Nothing),
    ("explain 3 IMAGE IMAGE", Asked::Nothing),
};

fn check_row(alloc: Global, row: Row) -> Result<(), Fail> {
    let (line, expected) = row;
    let words = words_of(alloc, line, "image")?;
    match Request::parse(alloc, words.as_slice()) {
        Ok(request) => same(Asked::by(&request), expected, line),
        Err(error) => Err(Fail::from(error)),
    }
}

#[test]
fn each_line_asks_for_one_thing(rt: HostRuntime) -> Result<(), Fail> {
    each(rt.alloc(), ROWS, check_row)
}
