//! Calls that allocate nothing, although their arguments hold an allocator, each made a given number of
//! times. `scripts/refuse-each-allocation` counts the program's allocations, which must be as many for one
//! turn as for a thousand. Calls without an allocator in their arguments can't allocate.

mod headers;
mod tables;

use headers::Headers;
use qcow2_base::{Fault, FileStorage, MemStorage, Storage};
use tables::Tables;

/// The number of checks in one turn: 3 of a storage, one of a file, 13 of headers, and 54 of tables and
/// blocks. Each must hold, and one is missing for each call that isn't made.
pub(crate) const OF_A_TURN: u64 = 3 + 1 + 13 + 54;

/// The number of checks that held. They use each call's result, so that the compiler can't drop the call.
#[derive(Clone, Copy)]
pub(crate) struct Checks(pub(crate) u64);

impl Checks {
    // Counts a check if it holds.
    fn expect(&mut self, holds: bool) {
        self.0 = self.0.saturating_add(u64::from(holds));
    }
}

/// Makes each call this many times, on values made before the first turn.
pub(crate) fn make_calls(rt: &HostRuntime, turns: u64) -> Result<Checks, Fault> {
    let mut headers = headers::begin(rt.alloc())?;
    let mut tables = tables::begin(rt.alloc())?;
    Ok(make_turns(rt, turns, &mut headers, &mut tables))
}

fn make_turns(rt: &HostRuntime, turns: u64, headers: &mut Headers, tables: &mut Tables) -> Checks {
    let mut checks = Checks(0);
    for turn in 0..turns {
        make_storage_calls(rt, &mut checks);
        headers::make(turn, headers, &mut checks);
        tables::make(turn, tables, &mut checks);
    }
    checks
}

fn make_storage_calls(rt: &HostRuntime, checks: &mut Checks) {
    read(MemStorage::new(Vec::new(rt.alloc())), 9, checks);
    checks.expect(FileStorage::open(rt, "/dev/null", false).is_ok());
}

// Makes calls of an empty storage in memory. A read finds zeros.
fn read(image: MemStorage, alignment_bits: u32, checks: &mut Checks) {
    let mut image = image.with_align(1 << alignment_bits.min(30));
    let mut bytes = [1u8; 16];
    checks.expect(image.read(&mut bytes, 3).is_ok() && bytes == [0; 16]);
    checks.expect(image.mem_align() == 512 && image.req_align() == 512);
    checks.expect(image.bytes().is_empty());
}
