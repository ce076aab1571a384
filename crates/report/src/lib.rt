// The lines that the program prints, each written into lent bytes. The definitions stand in
// specs/Lines.antt.
//
// Each call takes every value of its parameters' types and answers document 01's refusal where it
// has one. A refused call changes no byte; an accepted one changes none behind its line.
#![tactic(auto)]

mod put;

ghost use Rattle.std.specs.Prelude.{◌+◌, ◌≤◌, ◌<◌, ◌≡◌, length};
ghost use Rattle.report.specs.Parts.{Adds};
ghost use Rattle.report.specs.Lines.{host_line, standing_word, decision_word, WritesRefusal, WritesEvent, WritesHost, WritesTotals};

use answer::Refusal;
use host::Host;
use put::Line;
use quorum::World;

// A call that is lent fewer bytes is refused. The longest line has 67.
// Kept: the test for it in each call, since it is the first of the call's own refusals.
const ROOM: usize = 80;

// "refused C": refusal 13.
// Kept: here and in the next call a refusal by its number, since both promise a line for every number,
// and C passes any.
#[tactic(auto, using(crate::proofs::Digits::three_digits), unfolding(crate::specs::Lines::writing))]
pub fn refusal_line(out: &mut [u8], number: u8) -> Result<usize, Refusal>
    ensures { WritesRefusal out.old number result out.new }
{
    if out.len() < ROOM {
        return Err(Refusal::Lent);
    }
    let mut line = Line { out, length: 0 };
    line.field(b"refused ", number as u32);
    line.text(b"\n");
    Ok(line.length)
}

// "event K refused C", where the first event is 1: refusal 13.
#[tactic(auto, using(crate::proofs::Digits::ten_digits, crate::proofs::Digits::three_digits), unfolding(crate::specs::Lines::writing))]
pub fn event_line(out: &mut [u8], event: u32, number: u8) -> Result<usize, Refusal>
    ensures { WritesEvent out.old event number result out.new }
{
    if out.len() < ROOM {
        return Err(Refusal::Lent);
    }
    let mut line = Line { out, length: 0 };
    line.field(b"event ", event);
    line.field(b" refused ", number as u32);
    line.text(b"\n");
    Ok(line.length)
}

// "events K refused M": refusal 13.
#[tactic(auto, using(crate::proofs::Digits::ten_digits), unfolding(crate::specs::Lines::writing))]
pub fn totals_line(out: &mut [u8], events: u32, refused: u32) -> Result<usize, Refusal>
    ensures { WritesTotals out.old events refused result out.new }
{
    if out.len() < ROOM {
        return Err(Refusal::Lent);
    }
    let mut line = Line { out, length: 0 };
    line.field(b"events ", events);
    line.field(b" refused ", refused);
    line.text(b"\n");
    Ok(line.length)
}

// "host I lying", or the host's number, its standing and the rest of its record: refusals 13, 2, 3, 5.
#[tactic(auto, unfolding(crate::specs::Lines::writing, quorum::specs::World::checking))]
pub fn host_line(out: &mut [u8], me: u32, host: Host, world: World) -> Result<usize, Refusal>
    ensures { WritesHost out.old me host world result out.new }
{
    if out.len() < ROOM || host::out_of_range(host) {
        return Err(Refusal::Lent);
    }
    quorum::check(world)?;
    if world.n <= me {
        return Err(Refusal::Unnamed);
    }
    let mut line = Line { out, length: 0 };
    put_host(&mut line, me, host);
    Ok(line.length)
}

// The line of a host; of one that lies it ends at "lying".
// Kept: room as a clause, here and of `put_decision`, since each part needs another.
#[tactic(auto, using(crate::proofs::Digits::two_digits, crate::proofs::Digits::three_digits), unfolding(crate::specs::Text::text))]
fn put_host(line: &mut Line, me: u32, host: Host)
    requires { (me < 32) × (line.old.length + 80 ≤ length line.old.out.now) }
    ensures { Adds line.old (host_line me host) line.new }
{
    line.field(b"host ", me);
    line.text(b" ");
    if host.standing == host::LYING {
        line.text(b"lying\n");
        return;
    }
    line.text(standing_word(host));
    line.field(b" round ", host.round as u32);
    line.field(b" phase ", host.phase as u32);
    line.field(b" stage ", host.stage as u32);
    line.field(b" est ", host.est as u32);
    line.text(b" decided ");
    put_decision(line, host);
    line.field(b" sent ", host.sent as u32);
    line.text(b"\n");
}

// The standing of a host that does not lie.
#[tactic(auto, unfolding(crate::specs::Text::text))]
fn standing_word(host: Host) -> &'static [u8]
    ensures word { result.now ≡ standing_word host }
    ensures short { length result.now ≤ 8 }
{
    match host.standing {
        host::FINISHED => b"finished",
        host::BROKEN => b"broken",
        _ => b"honest",
    }
}

// A host's decision, or "-" for a 2, which is none.
#[tactic(auto, using(crate::proofs::Digits::three_digits), unfolding(crate::specs::Text::text))]
fn put_decision(line: &mut Line, host: Host)
    requires { line.old.length + 3 ≤ length line.old.out.now }
    ensures adds { Adds line.old (decision_word host) line.new }
    ensures short { line.new.length ≤ line.old.length + 3 }
{
    if host.decision == host::UNDECIDED {
        line.text(b"-");
        return;
    }
    line.number(host.decision as u32);
}
