// The ends of workers are taken: each pass is joined and each share given back.
ghost use Rattle.std.specs.Prelude.{◌≡◌};
ghost use Rattle.parked_gate.specs.Passes.{IsPassOf, gate_of, known};
ghost use Rattle.client_run.specs.Running.{Gathers, TakesBoth, TakesOne, gathered_of, worse_of};

use crate::ends::{End, Ends, Naming};
use crate::object::ClientObject;
use crate::worked::Worked;
use parked_gate::{Gate, Pass};
use server_ports::Network;
use std::alloc::AllocError;
use std::sync::Wait;

/// What workers came to.
#[derive(Clone, Copy, Debug, PartialEq, Eq)]
pub(crate) enum Gathered {
    /// The client was over.
    Over,
    /// A fault of the network ended one.
    NetFault,
    /// Three responses in a row with another status than 200 ended one; the last had this one.
    Refused { status: u16 },
    /// Want of memory ended one, or one left since the other had failed.
    NoMemory,
}

/// Takes one end, once there is one.
pub(crate) fn gather_one<J: Naming, R: Wait, N: Network + Drop>(
    rt: &R,
    gate: &Gate<ClientObject>,
    pass: &mut Pass<ClientObject>,
    net: &mut N,
    ends: &Ends<J, N>,
) -> Gathered
    requires pass { IsPassOf gate.now pass.old }
    requires named { gate_of gate.now ≡ J.gate }
    ensures pass { IsPassOf gate.now pass.new }
    ensures gathers { Gathers (known pass.old) (known pass.new) (N.counts net.old) (N.counts net.new) result }
    ensures takes { TakesOne (known pass.new).seen (N.counts net.old) (N.counts net.new) result }
{
    let End {
        worked,
        pass: other,
        share,
        ear: _,
        of: _,
    } = ends.take(rt);
    gate.join(pass, other);
    net.back(share);
    gathered_of(worked)
}

/// Takes two ends.
pub(crate) fn gather_two<J: Naming, R: Wait, N: Network + Drop>(
    rt: &R,
    gate: &Gate<ClientObject>,
    pass: &mut Pass<ClientObject>,
    net: &mut N,
    ends: &Ends<J, N>,
) -> Gathered
    requires pass { IsPassOf gate.now pass.old }
    requires named { gate_of gate.now ≡ J.gate }
    ensures pass { IsPassOf gate.now pass.new }
    ensures gathers { Gathers (known pass.old) (known pass.new) (N.counts net.old) (N.counts net.new) result }
    ensures takes { TakesBoth (known pass.new).seen (N.counts net.old) (N.counts net.new) result }
{
    let first = gather_one(rt, gate, pass, net, ends);
    let second = gather_one(rt, gate, pass, net, ends);
    worse_of(first, second)
}

fn gathered_of(worked: Result<Worked, AllocError>) -> Gathered
    ensures { result ≡ gathered_of worked }
{
    match worked {
        Ok(Worked::Done) => Gathered::Over,
        Ok(Worked::Ended(_)) => Gathered::Over,
        Ok(Worked::DialFault) => Gathered::NetFault,
        Ok(Worked::ReadFault) => Gathered::NetFault,
        Ok(Worked::WriteFault) => Gathered::NetFault,
        Ok(Worked::Refused { status }) => Gathered::Refused { status },
        Ok(Worked::Silent) => Gathered::NoMemory,
        Err(AllocError) => Gathered::NoMemory,
    }
}

// A fault goes first, then refusals, then want of memory.
fn worse_of(first: Gathered, second: Gathered) -> Gathered
    ensures { result ≡ worse_of first second }
{
    match first {
        Gathered::NetFault => first,
        Gathered::Refused { .. } => match second {
            Gathered::NetFault => second,
            Gathered::Refused { .. } => first,
            Gathered::Over => first,
            Gathered::NoMemory => first,
        },
        Gathered::Over => second,
        Gathered::NoMemory => match second {
            Gathered::NetFault => second,
            Gathered::Refused { .. } => second,
            Gathered::Over => first,
            Gathered::NoMemory => first,
        },
    }
}
