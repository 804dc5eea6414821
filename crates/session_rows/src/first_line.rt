//! The first line: at which ends the rows act, and within which limits.
ghost use Rattle.std.specs.Prelude.{◌≤◌, ◌^◌, ◌<◌, IfOk};

use anyhow::{Context, Result, bail};
use giop_session::Limits;
use rows::{number, split};
use std::alloc::Global;

/// Limits of an end that can be made.
#[derive(Clone, Copy)]
pub struct EndLimits {
    pub limits: Limits,
    pub ghost sound: { limits.gathered ≤ 2 ^ 62 },
}

/// How an end is given what its rows say.
#[derive(Clone, Copy)]
pub struct Steps {
    pub within: EndLimits,
    /// How many octets a read has at most.
    pub read: usize,
}

/// Limits of both ends of a connection.
#[derive(Clone, Copy)]
pub struct BothLimits {
    pub client: EndLimits,
    pub server: EndLimits,
}

/// At which ends the rows act.
#[derive(Clone, Copy)]
pub enum Ends {
    /// At a server's end, one after the other.
    Server(Steps),
    /// At a client's end, one after the other.
    Client(Steps),
    /// At a server's end, which is given all of them in one list.
    ServerInputs(EndLimits),
    /// At a client's end, which is given all of them in one list.
    ClientInputs(EndLimits),
    /// At a client's end and a server's, joined.
    Ends(BothLimits),
    /// At the ends of a world, of which all of them are the schedule.
    World(BothLimits),
}

/// What the first line says: its first word, and then limits, each `NAME=NUMBER`. Those of two ends
/// are the server's, and behind `client-` the client's.
pub fn ends_in(alloc: Global, line: &str) -> Result<Ends> {
    let words = split(alloc, line)?;
    let [kind, limits @ ..] = words.as_slice() else {
        bail!("the first line is empty");
    };
    let mut steps = Steps {
        within: defaults(),
        read: usize::MAX,
    };
    let mut client = steps;
    for word in limits {
        match word.strip_prefix("client-") {
            Some(word) => set(&mut client, word)?,
            None => set(&mut steps, word)?,
        }
    }
    let both = BothLimits {
        client: client.within,
        server: steps.within,
    };
    Ok(match *kind {
        "server" => Ends::Server(steps),
        "client" => Ends::Client(steps),
        "server-inputs" => Ends::ServerInputs(steps.within),
        "client-inputs" => Ends::ClientInputs(steps.within),
        "ends" => Ends::Ends(both),
        "world" => Ends::World(both),
        _ => bail!("no such ends: {kind}"),
    })
}

// The default limits.
fn defaults() -> EndLimits {
    EndLimits {
        limits: Limits::default(),
    }
}

// Limits, where an end can be made with them.
fn within(limits: Limits) -> Result<EndLimits> {
    if limits.gathered > 1 << 62 {
        bail!("gathered is at most 2^62");
    }
    Ok(EndLimits { limits })
}

// Sets what a word says.
fn set(steps: &mut Steps, word: &str) -> Result<()> {
    let (name, value) = word.split_once('=').context("a limit is NAME=NUMBER")?;
    let value = number(value)?;
    let limits = steps.within.limits;
    match name {
        "calls" => {
            steps.within = within(Limits {
                calls: value,
                ..limits
            })?;
        }
        "message" => {
            steps.within = within(Limits {
                message: value,
                ..limits
            })?;
        }
        "gathered" => {
            steps.within = within(Limits {
                gathered: value as u64,
                ..limits
            })?;
        }
        "read" => steps.read = value as usize,
        _ => bail!("no such limit: {name}"),
    }
    Ok(())
}
