//! Comparisons for tests. A failed one reports the row of the table, and the found and the expected value,
//! as far as the text of a failure reaches.

ghost use Rattle.std.specs.Prelude.{IsTrue, OnOk};

use std::alloc::{AllocError, Global};
use std::fmt::{Debug, Display};
use std::test::Fail;

/// A table or a list, laid out by hand: each row on one line, if it fits. Rows of a struct have its name
/// before the first: `rows! { Width: { order: 0, counters: 4096 }, { order: 1, counters: 2048 } }`.
#[macro_export]
macro_rules! rows {
    ($row:ident: $({ $($fields:tt)* }),* $(,)?) => {
        &[$($row { $($fields)* }),*]
    };
    ($($row:expr),* $(,)?) => {
        &[$($row),*]
    };
}

/// Fails unless each value is the one after its arrow: `all_same! { "sums", 1 + 2 => 3, 2 + 2 => 4 }`.
#[macro_export]
macro_rules! all_same {
    ($row:expr, $($found:expr => $expected:expr),* $(,)?) => {
        $crate::same(($($found),*), ($($expected),*), $row)
    };
}

/// Fails unless both are the same.
pub fn same<T: PartialEq + Debug + Drop, R: Debug + Drop>(
    found: T,
    expected: T,
    row: R,
) -> Result<(), Fail> {
    if found == expected {
        return Ok(());
    }
    Err(Fail::new(format_args!("{row:?}: found {found:?}, expected {expected:?}")))
}

/// The `Debug` form of a value, which shows what no call returns.
pub fn printed<T: Debug>(alloc: Global, value: &T) -> Result<String, AllocError> {
    format!(in alloc; "{value:?}")
}

/// Fails unless both have the same bytes, and reports only the first that differs.
pub fn same_bytes<R: Debug + Drop>(found: &[u8], expected: &[u8], row: R) -> Result<(), Fail> {
    if found == expected {
        return Ok(());
    }
    let at = first_difference(found, expected);
    Err(Fail::new(format_args!(
        "{row:?}: byte {at} of {} is {:?}, expected {:?} of {}",
        found.len(),
        found.get(at),
        expected.get(at),
        expected.len()
    )))
}

/// Fails unless the `Display` form of the value is this text.
pub fn same_text<D: Display + Debug + Drop>(
    alloc: Global,
    value: D,
    expected: &str,
) -> Result<(), Fail> {
    let text = format!(in alloc; "{value}")?;
    same(text.as_str(), expected, value)
}

/// Fails unless the condition holds.
pub fn holds<R: Debug + Drop>(condition: bool, row: R) -> Result<(), Fail>
    ensures { OnOk result (IsTrue condition) }
{
    if condition {
        return Ok(());
    }
    Err(Fail::new(format_args!("{row:?}: does not hold")))
}

/// Returns the values of a list from `start` to before `end`. Fails if the list doesn't have both.
pub fn part_of<T>(list: &[T], start: usize, end: usize) -> Result<&[T], Fail> {
    match list.get(start..end) {
        Some(part) => Ok(part),
        None => Err(row_error((start, end))),
    }
}

/// The failure of a test whose row can't be read because of a typing error in it.
pub fn row_error<R: Debug + Drop>(part: R) -> Fail {
    Fail::new(format_args!("{part:?}: no row can have this"))
}

fn first_difference(found: &[u8], expected: &[u8]) -> usize {
    for at in 0..found.len() {
        if found.get(at) != expected.get(at) {
            return at;
        }
    }
    found.len()
}

/// Tests each row, until one fails.
pub fn each<R: Copy, F: Fn(Global, R) -> Result<(), Fail>>(
    alloc: Global,
    rows: &[R],
    test: F,
) -> Result<(), Fail>
    requires { F.IsAlwaysCallable test }
{
    for row in rows {
        test(alloc, *row)?;
    }
    Ok(())
}
