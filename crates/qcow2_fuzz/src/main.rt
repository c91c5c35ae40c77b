//! Runs each command of `qmeta` on hostile images in memory, and checks that what they print and leave
//! agrees. `scripts/fuzz` runs it.
//!
//! Words: SEED COUNT [FILE..]. It draws an image for SEED, one for the next seed, and so on, until it has
//! made COUNT runs of commands. Some images are changed copies of the files, the others are made. It prints
//! a line for each wrong run, with the image's own seed: started with that seed and the same files it draws
//! that image first. With COUNT 0 it writes the bytes of the first image to standard output.
#![tactic(auto)]

mod checks;
mod fields;
mod images;
mod kinds;
mod mutations;
mod numbers;
mod random;
mod storage;
mod text;
mod trial;

use crate::random::Random;
use crate::trial::{Tally, Trial};
use qcow2_base::Fault;
use std::alloc::Global;
use std::io::Write;
use std::process::ExitCode;
use std::{env, fs};

// The arguments.
#[derive(Drop)]
struct Asked {
    seed: u64,
    count: u64,
    files: Vec<Vec<u8>>,
}

fn main(rt: HostRuntime) -> ExitCode {
    match run(&rt) {
        Ok(true) => ExitCode::SUCCESS,
        Ok(false) => ExitCode::FAILURE,
        Err(fault) => {
            let _ = eprintln!(rt; "qcow2_fuzz: {fault}");
            ExitCode::FAILURE
        }
    }
}

// Makes the runs that the arguments ask for, and returns whether all are right.
fn run(rt: &HostRuntime) -> Result<bool, Fault> {
    let Some(asked) = asked_by(rt)? else {
        let _ = eprintln!(rt; "usage: qcow2_fuzz SEED COUNT [FILE..]");
        return Ok(false);
    };
    if asked.count == 0 {
        let image = drawn_image(rt.alloc(), &mut Random::new(asked.seed), &asked.files)?;
        return Ok(rt.stdout().write_all(&image).is_ok());
    }
    try_images(rt, &asked)
}

// Parses the arguments, if they are valid, and reads the files.
fn asked_by(rt: &HostRuntime) -> Result<Option<Asked>, Fault> {
    let Ok(arguments) = env::args(rt) else {
        return Ok(None);
    };
    let words: Vec<String> = arguments.skip(1).collect(rt.alloc())?;
    let [seed, count, paths @ ..] = words.as_slice() else {
        return Ok(None);
    };
    let (Ok(seed), Ok(count)) = (seed.parse::<u64>(), count.parse::<u64>()) else {
        return Ok(None);
    };
    let files = read_files(rt, paths)?;
    Ok(Some(Asked { seed, count, files }))
}

// Reads files.
fn read_files(rt: &HostRuntime, paths: &[String]) -> Result<Vec<Vec<u8>>, Fault> {
    let mut files = Vec::new(rt.alloc());
    for path in paths {
        match fs::read(rt, path.as_str()) {
            Ok(bytes) => files.push(bytes)?,
            Err(_) => return Err(Fault::Storage),
        }
    }
    Ok(files)
}

// Tries image after image until enough runs are made, and prints the numbers of runs, faults and wrong
// runs. Returns whether none was wrong.
fn try_images(rt: &HostRuntime, asked: &Asked) -> Result<bool, Fault> {
    let mut tally = Tally {
        runs: 0,
        faults: 0,
        wrong: 0,
    };
    for seed in asked.seed..u64::MAX {
        if tally.runs >= asked.count {
            break;
        }
        try_image(rt, seed, &asked.files, &mut tally)?;
    }
    let Tally {
        runs,
        faults,
        wrong,
    } = tally;
    let is_told = println!(rt; "runs {runs} faults {faults} wrong {wrong}").is_ok();
    Ok(is_told && wrong == 0)
}

// Runs all commands on the image of a seed.
fn try_image(
    rt: &HostRuntime,
    seed: u64,
    files: &[Vec<u8>],
    tally: &mut Tally,
) -> Result<(), Fault> {
    let mut random = Random::new(seed);
    let image = drawn_image(rt.alloc(), &mut random, files)?;
    let mut trial = Trial::new(rt.alloc(), seed, &image, *tally)?;
    let ended = checks::check_image(&mut trial, &mut random);
    *tally = trial.tally;
    let _ = rt.stdout().write_all(&trial.report);
    ended
}

// Draws an image, with changes: a made one, or, if there are files, as often one of these.
fn drawn_image(alloc: Global, random: &mut Random, files: &[Vec<u8>]) -> Result<Vec<u8>, Fault> {
    let index = random.below((files.len() as u64).saturating_mul(2)) as usize;
    let mut image = match files.get(index) {
        Some(file) => Vec::from_slice(alloc, file)?,
        None => images::made_image(alloc, random)?,
    };
    mutations::mutate(&mut image, random)?;
    Ok(image)
}
