// Plays the run file on standard input and prints where each host stands.
//
// What is read and written here is decided by the libraries: `run` plays, `report` makes the lines.
// No more of a file is held than a buffer of whole events, which is refilled.
#![tactic(auto)]

mod input;
mod output;

use input::Input;
use output::Output;
use run::Run;
use std::io;
use std::io::{Read, Write};

// The header and the records of 32 hosts, 98 bytes, are read first. In a smaller world the bytes
// behind its records are whole events, so that no event lies across two reads.
const FIRST: usize = 98;

// So many events fill the input's buffer.
const EVENTS: u32 = 771;

fn main(rt: HostRuntime) -> io::Result<()> {
    let mut input = Input::new(rt.stdin());
    let mut output = Output::new(rt.stdout());
    let mut table = [0; 14336];
    vote(&mut table, &mut input, &mut output)
}

// The whole program, over its memory. A file that holds no vote gives one line.
fn vote(
    table: &mut [u32],
    input: &mut Input<impl Read>,
    output: &mut Output<impl Write>,
) -> io::Result<()> {
    let more = input.read(FIRST)?;
    match run::start(input.bytes()) {
        Err(refusal) => output.put(|bytes| report::refusal_line(bytes, u8::from(refusal)))?,
        Ok(run) => {
            let mut run = play(run, table, run::rest(input.bytes()), output)?;
            if more {
                run = follow(run, table, input, output)?;
            }
            conclude(run, output)?;
        }
    }
    output.flush()
}

// Plays what the input still has, until it ends or the run takes no more events.
fn follow(
    mut run: Run,
    table: &mut [u32],
    input: &mut Input<impl Read>,
    output: &mut Output<impl Write>,
) -> io::Result<Run> {
    let mut more = true;
    let mut left = u32::MAX - run.events;
    while more && left > 0 {
        let events = left.min(EVENTS);
        more = input.read(3 * events as usize)?;
        run = play(run, table, input.bytes(), output)?;
        left -= events;
    }
    Ok(run)
}

// Plays events to their end, with a line for each refused one. A call itself is never refused: the
// table is whole, and the run was started.
fn play(
    mut run: Run,
    table: &mut [u32],
    mut events: &[u8],
    output: &mut Output<impl Write>,
) -> io::Result<Run> {
    while let Ok(played) = run::play(run, table, events) {
        run = played.run;
        events = &events[played.taken..];
        let Some(refusal) = played.stop else {
            break;
        };
        output.put(|bytes| report::event_line(bytes, run.events, u8::from(refusal)))?;
    }
    Ok(run)
}

// A line for each host, then the totals.
fn conclude(run: Run, output: &mut Output<impl Write>) -> io::Result<()> {
    for (me, host) in (0..run.world.n).zip(run.hosts) {
        output.put(|bytes| report::host_line(bytes, me, host, run.world))?;
    }
    output.put(|bytes| report::totals_line(bytes, run.events, run.refused))
}
