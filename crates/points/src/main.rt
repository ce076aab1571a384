// Runs document 01's known points on sizes, frames and the decision of phase 2, with a star or
// without, and prints what the calls answer. Then numbers and frames that are no world and no frame.
#![tactic(auto)]

use frame::Frame;
use host::Host;
use std::{fmt, io};

fn main(rt: HostRuntime) -> io::Result<()> {
    known_sizes(&rt)?;
    known_words(&rt)?;
    known_decision(&rt)?;
    bad_sizes(&rt)?;
    bad_frames(&rt)
}

fn known_sizes(rt: &impl Print) -> io::Result<()> {
    for (n, t) in [(4, 1), (3, 1), (32, 10), (32, 11), (2, 0), (1, 5)] {
        sizes(rt, n, t)?;
    }
    Ok(())
}

fn known_words(rt: &impl Print) -> io::Result<()> {
    let words = [
        0x0220, 0x43c3, 0x2000, 0x2200, 0x0000, 0x0240, 0x0260, 0x02c0, 0x8000,
    ];
    for word in words {
        unpack(rt, word)?;
    }
    Ok(())
}

// Phase 2, estimate 0, view {1}, undecided; then the same with the view {1, neither}, {neither} and,
// as more than t liars could make it, {0, 1}.
fn known_decision(rt: &impl Print) -> io::Result<()> {
    for values in [2, 6, 4, 3] {
        view(rt, values)?;
    }
    Ok(())
}

// Both ends of the numbers' type, 2 before 3, and a t whose threefold would wrap.
fn bad_sizes(rt: &impl Print) -> io::Result<()> {
    let bad = [
        (0, 0),
        (33, 0),
        (33, 11),
        (32, 1431655766),
        (32, u32::MAX),
        (u32::MAX, u32::MAX),
    ];
    for (n, t) in bad {
        sizes(rt, n, t)?;
    }
    Ok(())
}

// A frame that packs, then the same with one field that is none, then with several: the order of
// the refusals.
fn bad_frames(rt: &impl Print) -> io::Result<()> {
    let good = Frame {
        kind: 1,
        round: 16,
        phase: 2,
        stage: 1,
        value: 2,
        sender: 31,
    };
    let all = Frame {
        kind: 255,
        round: 16,
        phase: 255,
        stage: 255,
        value: 255,
        sender: 255,
    };
    let frames = [
        good,
        Frame { round: 0, ..good },
        Frame { round: 17, ..good },
        Frame { round: 31, ..good },
        Frame { value: 3, ..good },
        Frame { stage: 0, ..good },
        Frame { kind: 2, ..good },
        Frame { phase: 0, ..good },
        Frame { phase: 3, ..good },
        Frame { stage: 2, ..good },
        Frame { sender: 32, ..good },
        Frame {
            sender: 255,
            ..good
        },
        all,
        Frame { round: 255, ..all },
    ];
    for frame in frames {
        pack(rt, frame)?;
    }
    Ok(())
}

fn sizes(rt: &impl Print, n: u32, t: u32) -> io::Result<()> {
    match quorum::check(quorum::world_of(n, t)) {
        Ok(at) => println!(rt;
            "n {n} t {t}: echo at {} admit at {} view at {}",
            at.echo, at.admit, at.view
        ),
        Err(refusal) => println!(rt; "n {n} t {t}: {refusal}"),
    }
}

fn unpack(rt: &impl Print, word: u16) -> io::Result<()> {
    match frame::unpack(word) {
        Ok(frame) => println!(rt; "{word:04x}: {}", Fields(frame)),
        Err(refusal) => println!(rt; "{word:04x}: {refusal}"),
    }
}

fn pack(rt: &impl Print, frame: Frame) -> io::Result<()> {
    match frame::pack(frame) {
        Ok(word) => println!(rt; "{}: {word:04x}", Fields(frame)),
        Err(refusal) => println!(rt; "{}: {refusal}", Fields(frame)),
    }
}

fn view(rt: &impl Print, values: u8) -> io::Result<()> {
    let before = Host {
        round: 1,
        phase: 2,
        stage: 1,
        own: 2,
        est: 0,
        decision: host::UNDECIDED,
        sent: 2,
        standing: host::HONEST,
        coins: 0,
    };
    let after = view::after_view(before, values);
    println!(rt; "view {values}: {}", Record(after))
}

// A frame's fields by their names.
#[derive(Clone, Copy, Drop)]
struct Fields(Frame);

impl fmt::Display for Fields {
    fn fmt<W: fmt::Write>(&self, f: &mut fmt::Formatter<W>) -> fmt::Result {
        let frame = self.0;
        write!(
            f,
            "kind {} round {} phase {}",
            frame.kind, frame.round, frame.phase
        )?;
        write!(
            f,
            " stage {} value {} sender {}",
            frame.stage, frame.value, frame.sender
        )
    }
}

// A record's fields by their names, without its coins and its sent count.
#[derive(Clone, Copy, Drop)]
struct Record(Host);

impl fmt::Display for Record {
    fn fmt<W: fmt::Write>(&self, f: &mut fmt::Formatter<W>) -> fmt::Result {
        let host = self.0;
        write!(
            f,
            "round {} phase {} stage {}",
            host.round, host.phase, host.stage
        )?;
        write!(
            f,
            " own {} est {} decision {}",
            host.own, host.est, host.decision
        )?;
        write!(f, " standing {}", host.standing)
    }
}
