// Reading the host records behind an accepted header.
ghost use Rattle.std.specs.Prelude.{◌≤◌, ◌≡◌};
ghost use Rattle.answer.specs.Answer.{accepted, past, says};
ghost use Rattle.run.specs.Starting.{liar, first_run, records_guards, blank};

use crate::Run;
use answer::Refusal;
use host::Host;
use quorum::World;

// A run of nobody, which stands where there is no run.
impl Default for Run {
    ghost is_default = { λ run. run ≡ blank };

    fn default() -> Run {
        Run {
            hosts: [nobody(); 32],
            world: quorum::world_of(0, 0),
            events: 0,
            refused: 0,
        }
    }
}

// The run of this world with the records that stand behind the header: per record 1, 4.
#[tactic(auto, unfolding(crate::specs::Starting::enrolled))]
pub(crate) fn enrol(bytes: &[u8], world: World) -> Result<Run, Refusal>
    requires { world.n ≤ 32 }
    ensures { says result ≡ past (records_guards bytes.now world.n) (accepted (first_run bytes.now world)) }
{
    let mut hosts = [nobody(); 32];
    // Kept: the host's number, since it gives the place in the file as well as that in the list.
    for i in 0..world.n as usize {
        hosts[i] = file::record_at(bytes, 2 + 3 * i)?;
    }
    Ok(Run {
        hosts,
        world,
        events: 0,
        refused: 0,
    })
}

// A liar's record.
// Kept: written out, since `file`, which makes records, makes them of a file's bytes alone.
fn nobody() -> Host
    ensures { result ≡ liar }
{
    Host {
        round: 1,
        phase: 1,
        stage: 0,
        own: 0,
        est: 0,
        decision: host::UNDECIDED,
        sent: 0,
        standing: host::LYING,
        coins: 0,
    }
}
