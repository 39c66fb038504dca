//! The command line of the server.
use clap::{Arg, ArgAction, Command, value_parser};
use std::alloc::{AllocError, Global};
use vx_step::MAX_WORKERS;

/// The option whose value is the path of a regions file.
pub const REGIONS: &str = "regions";

/// The option whose value is how many threads work each tick.
pub const WORKERS: &str = "workers";

/// The option that asks for the record of all calls.
pub const JSON: &str = "json";

const ABOUT: &str = "\
Plays the script that comes on standard input, in a world of blocks whose land is protected by
regions, and writes the reply to each of its lines to standard output.";

const USAGE: &str = "vx_server [--regions FILE] [--workers N] [--json] < SCRIPT";

const REGIONS_HELP: &str = "\
A regions file in TOML: the policy that stands as the script begins; without it there
are no regions";

const WORKERS_HELP: &str = "\
How many threads work each tick, from 1 to 8; 1 if it is not given";

const JSON_HELP: &str = "\
After the last reply, writes the record: a line of JSON for each call and for each move
that a piston asked for";

const EXAMPLE: &str = "\
Status 0: the script was played to its end. Status 1: a fault in it, in the regions file or on the
command line. Status 2: want of memory. A fault is told in a line on standard error.

Example: a script of four lines
  printf 'world 1 1 1\\nplayer ann\\nas ann place 0 0 0 stone\\nas ann look 0 0 0\\n' | vx_server
writes these three
  ok default
  seen stone
  done ticks 0 calls 2";

/// What the server takes on its command line.
pub fn command<'a>(alloc: Global) -> Result<Command<'a>, AllocError> {
    let regions = Arg::new(alloc, REGIONS)
        .long(REGIONS)
        .value_name("FILE")
        .help(REGIONS_HELP);
    let workers = Arg::new(alloc, WORKERS)
        .long(WORKERS)
        .value_name("N")
        .value_parser(value_parser!(u8).range(1..=MAX_WORKERS as i64))
        .help(WORKERS_HELP);
    let json = Arg::new(alloc, JSON)
        .long(JSON)
        .action(ArgAction::SetTrue)
        .help(JSON_HELP);
    Command::new(alloc, "vx_server")
        .about(ABOUT)
        .override_usage(USAGE)
        .after_help(EXAMPLE)
        .arg(regions)?
        .arg(workers)?
        .arg(json)
}
