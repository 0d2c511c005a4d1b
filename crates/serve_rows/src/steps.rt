// Scenes: a server, and what happens to it one after the other.
ghost use Rattle.parked_gate.specs.Passes.{IsPassOf};
ghost use Rattle.std.specs.Prelude.{◌≡◌};

use crate::link::{Manner, RowLink};
use crate::scene::{OneWorker, Place, Scene, TURNS, begin, host};
use bosh_types::{Stanzas, Text};
use session_pump::Hosts;
use std::alloc::{AllocError, Global};
use std::sync::Wait;
use xmpp_backend::{BackendCall, Echo, Failing, InMemory, Room, Scripted, are_answers};

/// What is told of a scene: of its first row, which says what stands behind the host, and of each row that follows.
pub fn scene<R: Wait + Copy + Drop>(
    rt: &R,
    alloc: Global,
    behind: &str,
    rows: &[String],
) -> Result<Vec<String>, AllocError> {
    match behind {
        "echo" => {
            let host = host(alloc, InMemory::Echo(Echo::new(alloc)), Vec::new(alloc))?;
            let hosts = Hosts::new(alloc, vec![in alloc; host]?)?;
            played(rt, alloc, hosts, rows)
        }
        "room" => {
            let host = host(alloc, InMemory::Room(Room::new(alloc)), Vec::new(alloc))?;
            let hosts = Hosts::new(alloc, vec![in alloc; host]?)?;
            played(rt, alloc, hosts, rows)
        }
        "failing, then an echo" => {
            let mut spares: Vec<InMemory> = Vec::new(alloc);
            spares.push(InMemory::Echo(Echo::new(alloc)))?;
            let host = host(alloc, InMemory::Scripted(failing(alloc)?), spares)?;
            let hosts = Hosts::new(alloc, vec![in alloc; host]?)?;
            played(rt, alloc, hosts, rows)
        }
        "failing" => {
            let host = host(alloc, InMemory::Scripted(failing(alloc)?), Vec::new(alloc))?;
            let hosts = Hosts::new(alloc, vec![in alloc; host]?)?;
            played(rt, alloc, hosts, rows)
        }
        _ => Ok(vec![in alloc; String::from_str(alloc, "nothing stands behind it")?]?),
    }
}

/// A back end whose second pass fails, and which gives nothing for the first item that it takes, and `<d/>` for the second.
fn failing(alloc: Global) -> Result<Scripted, AllocError> {
    let second = Failing {
        call: BackendCall::Pass,
        number: 2,
    };
    let answer = Stanzas::from_vec(vec![in alloc; Text::from_vec(b"<d/>".to_vec(alloc)?)]?);
    let answers = vec![in alloc; Stanzas::from_vec(Vec::new(alloc)), answer]?;
    let Ok(true) = are_answers(alloc, answers.as_slice()) else {
        return Err(AllocError);
    };
    Ok(Scripted::new(alloc, answers, vec![in alloc; second]?))
}

/// What is told of the rows over a server of these hosts.
fn played<R: Wait + Copy + Drop>(
    rt: &R,
    alloc: Global,
    hosts: Hosts<InMemory>,
    rows: &[String],
) -> Result<Vec<String>, AllocError> {
    let Scene { place, worker } = begin(rt, alloc, hosts)?;
    let mut worker = worker;
    let mut told = vec![in alloc; String::from_str(alloc, "serves")?]?;
    for row in rows {
        let (step, rest) = row_text::first_word(row.as_str());
        told.push(played_step(rt, &place, &mut worker, step, rest)?)?;
    }
    Ok(told)
}

/// Whether a row with this first word goes on with a scene.
pub fn is_step(word: &str) -> bool {
    ["link", "alone", "lost", "turn", "at"].contains(&word)
}

/// What one step does.
fn played_step<R: Wait + Copy + Drop>(
    rt: &R,
    place: &Place,
    worker: &mut OneWorker<R>,
    step: &str,
    rest: &str,
) -> Result<String, AllocError>
    requires { IsPassOf place.now.directory worker.old.own.purse.directory }
    ensures { IsPassOf place.now.directory worker.new.own.purse.directory }
{
    let alloc = place.alloc;
    match step {
        "link" => linked(rt, place, worker, rest, TURNS),
        "alone" => linked(rt, place, worker, rest, 0),
        "lost" => lost(rt, place, worker, rest),
        "turn" => match worker.tools.bell.turn() {
            Some(live) => format!(in alloc; "{live} live"),
            None => String::from_str(alloc, "no memory"),
        },
        _ => {
            worker.tools.bell.at = rest.parse::<u64>().unwrap_or(0);
            let at = worker.tools.bell.at;
            format!(in alloc; "{at}")
        }
    }
}

/// Serves a link with these bytes.
fn linked<R: Wait + Copy + Drop>(
    rt: &R,
    place: &Place,
    worker: &mut OneWorker<R>,
    text: &str,
    turns: u32,
) -> Result<String, AllocError>
    requires { IsPassOf place.now.directory worker.old.own.purse.directory }
    ensures { IsPassOf place.now.directory worker.new.own.purse.directory }
{
    let Some(bytes) = row_text::bytes_of(place.alloc, text)? else {
        return String::from_str(place.alloc, "a wrong escape");
    };
    place.told(rt, worker, bytes.as_slice(), Manner::PLAIN, turns)
}

/// Serves so many links with these bytes, of which each fails at its first give. How many ended so.
fn lost<R: Wait + Copy + Drop>(
    rt: &R,
    place: &Place,
    worker: &mut OneWorker<R>,
    row: &str,
) -> Result<String, AllocError>
    requires { IsPassOf place.now.directory worker.old.own.purse.directory }
    ensures { IsPassOf place.now.directory worker.new.own.purse.directory }
{
    let alloc = place.alloc;
    let (count, text) = row_text::first_word(row);
    let Some(bytes) = row_text::bytes_of(alloc, text)? else {
        return String::from_str(alloc, "a wrong escape");
    };
    let manner = Manner {
        failing_give: 1,
        ..Manner::PLAIN
    };
    let mut last = String::new(alloc);
    for _ in 0..count.parse::<u32>().unwrap_or(0) {
        let mut link = RowLink::new(alloc, bytes.as_slice(), manner)?;
        if let Some(end) = place.serve(rt, worker, &mut link, 0) {
            last = format!(in alloc; "{end:?}")?;
        }
    }
    format!(in alloc; "{count} {last}")
}
