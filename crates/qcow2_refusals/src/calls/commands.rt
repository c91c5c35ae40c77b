//! Commands over the disk.

use crate::held::Held;
use qcow2_base::{Device, Fault};
use qcow2_session::Command;
use qcow2_session_calls::{parse_command, run};
use std::alloc::{AllocError, Global};

fn words_of(alloc: Global, line: &str) -> Result<Vec<String>, AllocError> {
    let mut words = Vec::new(alloc);
    for word in line.split_whitespace() {
        words.push(String::from_str(alloc, word)?)?;
    }
    Ok(words)
}

fn command_of(alloc: Global, line: &str) -> Result<Command, Fault> {
    let words = words_of(alloc, line)?;
    let [name, arguments @ ..] = words.as_slice() else {
        return Err(Fault::WrongLength);
    };
    match parse_command(alloc, name.as_str(), "IMAGE", arguments) {
        Some(command) => Ok(command?),
        None => Err(Fault::WrongLength),
    }
}

/// Runs the command of these words, which name no image.
pub(super) fn make<S: Device>(line: &str, held: &mut Held, image: &mut S) -> Result<(), Fault> {
    let command = command_of(held.alloc, line)?;
    run_command(&command, held, image)
}

fn run_command<S: Device>(command: &Command, held: &mut Held, image: &mut S) -> Result<(), Fault> {
    run(held.alloc, image, command, &mut held.out)?;
    Ok(())
}
