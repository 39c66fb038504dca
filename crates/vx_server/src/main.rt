//! The server: runs the script that comes on standard input, and writes the replies to standard
//! output.
#![tactic(auto)]

mod options;

ghost use Rattle.std.specs.Prelude.{◌<◌, ◌≤◌};
ghost use Rattle.vx_step.specs.declared.workers.TheConstants.{MAX_WORKERS};

use clap::error::ErrorKind;
use options::{JSON, REGIONS, WORKERS, command};
use std::io::BufWriter;
use std::process::ExitCode;
use std::sync::Wait;
use std::thread::Threads;
use std::{env, fs, io};
use vx_policy::Policy;
use vx_script::{Fault, read_regions, run};
use vx_step::MAX_WORKERS;

/// How many bytes of replies are kept before they are written.
const OUTPUT_BYTES: usize = 65_536;

/// What is said of a command line of which a word is no text.
const NO_TEXT: &str = "invalid UTF-8 was detected in one or more arguments";

fn main(rt: HostRuntime) -> ExitCode {
    match serve(&rt, &rt) {
        Ok(status) => ExitCode::from(status),
        Err(fault) => {
            // Where standard error takes no words, the status still tells.
            let _ = eprintln!(rt; "{fault}");
            ExitCode::from(fault.status())
        }
    }
}

// Does what the command line asks for, and answers the status. The command line is judged first,
// then the regions file, then the script.
fn serve<T: Threads + Wait + Sync>(rt: &HostRuntime, threads: &T) -> Result<u8, Fault> {
    let words = match env::args(rt) {
        Ok(words) => words,
        Err(error) if error.kind() == io::ErrorKind::InvalidData => return refuse_bytes(rt),
        Err(_) => return Err(Fault::NoMemory),
    };
    let words: Vec<String> = words.collect(rt.alloc())?;
    match command(rt.alloc())?.try_get_matches_from(words.as_slice()) {
        Ok(matches) => {
            let policy = first_policy(rt, matches.get_str(REGIONS))?;
            // The parser lets 1 to 8 through, so the bounds change nothing.
            let workers = matches.get_one::<u8>(WORKERS).unwrap_or(1);
            play(
                rt,
                threads,
                policy,
                workers.clamp(1, MAX_WORKERS as u8),
                matches.get_flag(JSON),
            )?;
            Ok(0)
        }
        Err(error) => tell(rt, &error),
    }
}

// Refuses a command line of which a word is no text.
fn refuse_bytes(rt: &HostRuntime) -> Result<u8, Fault> {
    let mut command = command(rt.alloc())?;
    let error = command.error(ErrorKind::InvalidValue, NO_TEXT)?;
    tell(rt, &error)
}

// Prints what the parser says, and answers the status: 0 for help, 1 for a refusal.
fn tell(rt: &HostRuntime, error: &clap::Error) -> Result<u8, Fault> {
    if error.kind() == ErrorKind::OutOfMemory {
        return Err(Fault::NoMemory);
    }
    error.print(rt).map_err(|error| not_written(error.kind()))?;
    Ok(if error.use_stderr() { 1 } else { 0 })
}

// The policy of a regions file, if there is one, else one without regions.
fn first_policy(rt: &HostRuntime, path: Option<&str>) -> Result<Policy, Fault> {
    match path {
        None => Ok(Policy::new(rt.alloc())?),
        Some(path) => {
            let mut file = fs::open(rt, path).map_err(|error| not_opened(error.kind()))?;
            read_regions(rt.alloc(), &mut file)
        }
    }
}

// Why a file was not opened.
fn not_opened(kind: io::ErrorKind) -> Fault {
    match kind {
        io::ErrorKind::OutOfMemory => Fault::NoMemory,
        _ => Fault::ReadFailed,
    }
}

// Why the words of the parser were not written.
fn not_written(kind: io::ErrorKind) -> Fault {
    match kind {
        io::ErrorKind::OutOfMemory => Fault::NoMemory,
        _ => Fault::WriteFailed,
    }
}

// Plays the script on standard input under this policy, with so many workers, and with the record
// where it is asked for.
fn play<T: Threads + Wait + Sync>(
    rt: &HostRuntime,
    threads: &T,
    policy: Policy,
    workers: u8,
    json: bool,
) -> Result<(), Fault>
    requires { (0 < workers) × (workers ≤ MAX_WORKERS) }
{
    let mut input = rt.stdin();
    let mut output = BufWriter::with_capacity(rt.alloc(), OUTPUT_BYTES, io::writer(rt)).map_err(
        |_| Fault::NoMemory,
    )?;
    run(
        threads,
        rt.alloc(),
        &mut input,
        &mut output,
        policy,
        workers as usize,
        json,
    )
}
