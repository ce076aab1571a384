// A whole run, by value.
ghost use Rattle.calls.specs.Runs.{StartsFlat, PlaysFlat};

use run::Run;

// `first` is where the first event stands in the bytes.
// Kept: a number with the run beside it, for C; so in the next one.
#[repr(C)]
#[derive(Clone, Copy, Debug, PartialEq, Eq, Drop)]
pub struct StartAnswer {
    pub refused: u8,
    pub run: Run,
    pub first: usize,
}

// `event` is the number by which the last event that was taken was refused, 0 where nothing is left
// to play. `refused` is of the call itself.
#[repr(C)]
#[derive(Clone, Copy, Debug, PartialEq, Eq, Drop)]
pub struct PlayAnswer {
    pub refused: u8,
    pub event: u8,
    pub run: Run,
    pub taken: usize,
}

// `run::start`: refusals 1, 2, 3, 4, then per host record 1, 4.
pub fn coircord_start(bytes: &[u8]) -> StartAnswer
    ensures { StartsFlat bytes.now result }
{
    match run::start(bytes) {
        Ok(run) => StartAnswer {
            refused: 0,
            run,
            first: 2 + 3 * run.world.n as usize,
        },
        Err(refusal) => StartAnswer {
            refused: u8::from(refusal),
            run: Run::default(),
            first: 0,
        },
    }
}

// `run::play`: refusals 13, 2, 3.
pub fn coircord_play(run: Run, table: &mut [u32], bytes: &[u8]) -> PlayAnswer
    ensures { PlaysFlat run table.old bytes.now result table.new }
{
    match run::play(run, table, bytes) {
        Ok(played) => PlayAnswer {
            refused: 0,
            event: played.stop.map_or(0, u8::from),
            run: played.run,
            taken: played.taken,
        },
        Err(refusal) => PlayAnswer {
            refused: u8::from(refusal),
            event: 0,
            run,
            taken: 0,
        },
    }
}
