//! Makes each call of the library that allocates memory, reports wrong results, and prints the number of
//! runs.
//!
//! `scripts/refuse-each-allocation` runs it with the number of each run, and refuses each of its
//! allocations in turn. With `once` and `often` it makes calls that must allocate nothing, once or a
//! thousand times. With `settled` and `refused` it makes edits that the refcounts follow or can't follow:
//! both must allocate equally often, as all memory is taken before the refcounts are looked at.
#![tactic(auto)]

mod attempts;
mod calls;
mod held;
mod memory;
mod rows;
mod runs;
mod without_memory;

use crate::memory::{Memory, Selected, again};
use crate::runs::Call;
use crate::without_memory::OF_A_TURN;
use std::alloc::Global;
use std::io::Write;
use std::process::ExitCode;
use std::{env, fs, io, process};

fn main(rt: HostRuntime) -> ExitCode {
    let Ok(word) = again(|| first_word(&rt)) else {
        return ExitCode::FAILURE;
    };
    if does(&rt, &word, &mut rt.stdout()) {
        ExitCode::SUCCESS
    } else {
        ExitCode::FAILURE
    }
}

// The first argument, or an empty text.
fn first_word(rt: &HostRuntime) -> io::Result<String> {
    let word = env::args(rt)?.nth(1);
    Ok(word.unwrap_or(String::new(rt.alloc())))
}

// Does what the argument asks for, and returns whether everything was right.
fn does<O: Write>(rt: &HostRuntime, word: &str, out: &mut O) -> bool {
    match word {
        "" => make_each(rt, Selected::All, out),
        "settled" => make_each(rt, Selected::Call(Call::EditSettled), out),
        "refused" => make_each(rt, Selected::Call(Call::EditUnsettled), out),
        "once" => make_calls(rt, 1, out),
        "often" => make_calls(rt, 1000, out),
        word => match word.parse::<u64>() {
            Ok(number) => make_each(rt, Selected::Number(number), out),
            Err(_) => false,
        },
    }
}

// Makes the selected runs.
fn make_each<O: Write>(rt: &HostRuntime, selected: Selected, out: &mut O) -> bool {
    let Ok(path) = again(|| temporary_path(rt)) else {
        return false;
    };
    let mut memory = Memory {
        rt,
        out,
        path: path.as_str(),
        selected,
        passed: 0,
        made: 0,
        all_right: true,
    };
    memory.make_all();
    let (runs, all_right) = (memory.made, memory.all_right);
    let _ = fs::remove_file(rt, path.as_str());
    writeln!(out, "{runs} runs").is_ok() && all_right && runs > 0
}

// The path of a run's file.
fn temporary_path(rt: &HostRuntime) -> io::Result<String> {
    let id = process::id(rt.process());
    let name = format!(in rt.alloc(); "qcow2-refusals-{id}")?;
    let path = env::temp_dir(rt)?.join(rt.alloc(), name.as_str())?;
    Ok(path.into_string())
}

// Makes the calls that allocate nothing, and returns whether each did its work.
fn make_calls<O: Write>(rt: &HostRuntime, turns: u64, out: &mut O) -> bool {
    let Ok(checks) = without_memory::make_calls(rt, turns) else {
        return false;
    };
    let expected = turns.saturating_mul(OF_A_TURN);
    if checks.0 != expected {
        let _ = writeln!(out, "{} of {expected} are as they must be", checks.0);
        return false;
    }
    writeln!(out, "{turns} turns").is_ok()
}
