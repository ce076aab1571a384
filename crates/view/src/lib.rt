// After the view: where the view of an instance takes a host. What a view is stands in
// specs/View.antt, with document 01's sentence and the paper's line at each rule.
#![tactic(auto)]

ghost use Rattle.std.specs.Prelude.{◌≡◌};
ghost use Rattle.host.specs.Record.{coin};
ghost use Rattle.view.specs.View.{only_of, phase_estimate, decided, round_estimate, after_round, Views};

use host::Host;

// Where a view takes a host. A view is a set of values: bit v is one where it holds v.
#[tactic(auto, unfolding(crate::specs::View::after_view))]
pub fn after_view(host: Host, view: u8) -> Host
    ensures { Views host view result }
{
    if host.stage == 0 {
        return Host {
            stage: 1,
            own: only(view),
            ..host
        };
    }
    if quorum::has(view as u32, 0) && quorum::has(view as u32, 1) {
        return Host {
            standing: host::BROKEN,
            ..host
        };
    }
    if host.phase == 1 {
        let est = phase_estimate(view, coin_of(host));
        return Host {
            phase: 2,
            stage: 0,
            own: est,
            est,
            ..host
        };
    }
    let est = round_estimate(view, host.est);
    let decision = decision(view, host.decision);
    next_round(host, est, decision)
}

// The value of a view of one value 0 or 1, else neither.
#[tactic(auto, unfolding(crate::specs::View::only_of))]
fn only(view: u8) -> u8
    ensures { result ≡ only_of view }
{
    match view {
        1 => 0,
        2 => 1,
        _ => 2,
    }
}

// The host's coin bit of its round, round 1 first.
#[tactic(auto, unfolding(host::specs::Record::coin))]
fn coin_of(host: Host) -> u8
    ensures { result ≡ coin host }
{
    let left = 16u8.saturating_sub(host.round);
    (host.coins as u32 >> left & 1) as u8
}

// The estimate after a view of phase 1.
#[tactic(auto, unfolding(crate::specs::View::phase_estimate))]
fn phase_estimate(view: u8, coin: u8) -> u8
    ensures { result ≡ phase_estimate view coin }
{
    match only(view) {
        2 => coin,
        value => value,
    }
}

// The estimate after a view of phase 2.
#[tactic(auto, unfolding(crate::specs::View::round_estimate))]
fn round_estimate(view: u8, est: u8) -> u8
    ensures { result ≡ round_estimate view est }
{
    if quorum::has(view as u32, 0) {
        return 0;
    }
    if quorum::has(view as u32, 1) {
        return 1;
    }
    est
}

// The decision after a view of phase 2.
#[tactic(auto, unfolding(crate::specs::View::decided))]
fn decision(view: u8, old: u8) -> u8
    ensures { result ≡ decided view old }
{
    if old == host::UNDECIDED {
        only(view)
    } else {
        old
    }
}

// The next round, or after the last one finished.
#[tactic(auto, unfolding(crate::specs::View::after_round))]
fn next_round(host: Host, est: u8, decision: u8) -> Host
    ensures { result ≡ after_round host est decision }
{
    if 16 <= host.round {
        return Host {
            est,
            decision,
            standing: host::FINISHED,
            ..host
        };
    }
    Host {
        round: host.round + 1,
        phase: 1,
        stage: 0,
        own: est,
        est,
        decision,
        ..host
    }
}
