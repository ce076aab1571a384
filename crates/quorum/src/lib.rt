// The world of a vote: how many hosts there are, how many of them may lie, and the thresholds that
// follow from these two numbers; and sets of hosts as words.
#![tactic(auto)]

ghost use Rattle.std.specs.Prelude.{◌*◌, ◌≤◌, ◌<◌, ◌≡◌};
ghost use Rattle.quorum.specs.Sets.{Has};
ghost use Rattle.quorum.specs.World.{Makes, Checks, bad_hosts, bad_liars, thresholds_of};

use answer::Refusal;

// n hosts, numbered from 0, of which up to t may lie. It goes by value to every call that asks for it.
#[repr(C)]
#[derive(Clone, Copy, Debug, PartialEq, Eq, Drop)]
pub struct World {
    pub n: u32,
    pub t: u32,
}

// From how many senders on a value is echoed, a value is admitted, and a view is complete.
#[derive(Clone, Copy, Debug, PartialEq, Eq, Drop)]
pub struct Thresholds {
    pub echo: u32,
    pub admit: u32,
    pub view: u32,
}

// The one place where a world is made; `check` says whether a vote can be held in it.
pub fn world_of(n: u32, t: u32) -> World
    ensures { Makes n t result }
{
    World { n, t }
}

// The thresholds of a world: refusals 2, 3.
#[tactic(auto, unfolding(crate::specs::World::checking))]
pub fn check(world: World) -> Result<Thresholds, Refusal>
    ensures { Checks world result }
{
    if bad_hosts(world) {
        return Err(Refusal::Hosts);
    }
    if bad_liars(world) {
        return Err(Refusal::Liars);
    }
    Ok(thresholds_of(world))
}

// 2: too few hosts or too many.
fn bad_hosts(world: World) -> bool
    ensures { result ≡ bad_hosts world }
{
    world.n < 2 || 32 < world.n
}

// 3: too many liars for so few hosts. Three times the largest t does not fit t's own type.
fn bad_liars(world: World) -> bool
    ensures { result ≡ bad_liars world }
{
    u64::from(world.n) <= 3 * u64::from(world.t)
}

fn thresholds_of(world: World) -> Thresholds
    requires { (world.n ≤ 32) × (3 * world.t < world.n) }
    ensures { result ≡ thresholds_of world }
{
    Thresholds {
        echo: world.t + 1,
        admit: 2 * world.t + 1,
        view: world.n - world.t,
    }
}

// Whether host j is in a set, which has bit j for it.
pub fn has(set: u32, j: usize) -> bool
    ensures { Has set j result }
{
    j < 32 && set >> j & 1 == 1
}
