//! Makes the calls of runs.

mod commands;
mod copies;
mod headers;
mod sessions;
pub(crate) mod tables;

use crate::held::Held;
use crate::runs::Call;
use qcow2_base::{Device, Fault};
use qcow2_calls::{write_header, write_l1_table_pointer, write_reftable_pointer, write_size};
use std::fmt::Debug;
use std::io::Write;

/// The result of a call, as far as refusals matter.
#[derive(Clone, Copy, PartialEq, Eq)]
pub(crate) enum Answer {
    Done,
    StorageFailed,
    NoMemory,
    Other,
}

/// Makes a call.
pub(crate) fn make<S: Device>(call: Call, held: &mut Held, image: &mut S) -> Answer {
    held.out.clear();
    match make_call(call, held, image) {
        Ok(()) => Answer::Done,
        Err(Fault::Storage) => Answer::StorageFailed,
        Err(Fault::NoMemory) => Answer::NoMemory,
        Err(_) => Answer::Other,
    }
}

fn make_call<S: Device>(call: Call, held: &mut Held, image: &mut S) -> Result<(), Fault> {
    match call {
        Call::NewHeader => headers::new(held),
        Call::LoadHeader { for_writing } => headers::load(for_writing, held, image),
        Call::LoadSnapshots => headers::tell_snapshots(held, image),
        Call::WriteHeader => write_header(&mut held.header, image),
        Call::WriteSize => write_size(&held.header, image),
        Call::WriteL1TablePointer => write_l1_table_pointer(&held.header, image),
        Call::WriteReftablePointer => write_reftable_pointer(&held.header, image),
        Call::CopyExtension => copies::clone_extension(held),
        Call::Placed(call, kind) => tables::make(call, kind, held, image),
        Call::NewL2Table => copies::clear_table(held),
        Call::NewBlock => copies::clear_block(held),
        Call::CopyL2Table => copies::clone_table(held),
        Call::GrowL1Table => copies::tell_grown_l1_table(held),
        Call::GrowReftable => copies::tell_grown_reftable(held),
        Call::EditTable => sessions::edit(held),
        Call::StepBlock => sessions::step(held),
        Call::EditSettled => sessions::settle(held),
        Call::EditUnsettled => sessions::settle_in_vain(held),
        Call::EditImage => sessions::edit_in(held, image),
        Call::StepImage => sessions::step_in(held, image),
        Call::PlanEdits => sessions::plan(held, image),
        Call::ApplyEdits => sessions::apply(held, image),
        Call::LookUp => sessions::look_up(held, image),
        Call::LookUpImage => sessions::look_up_image(held, image),
        Call::Command(line) => commands::make(line, held, image),
    }
}

// Writes the `Debug` form of a value.
fn tell<T: Debug>(out: &mut Vec<u8>, value: &T) -> Result<(), Fault> {
    match write!(out, "{value:?}") {
        Ok(()) => Ok(()),
        Err(_) => Err(Fault::WrongLength),
    }
}
