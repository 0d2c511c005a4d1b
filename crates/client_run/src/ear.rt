// A worker's place at the alarm of its crew.
ghost use Rattle.std.specs.Prelude.{◌≡◌, ◌+◌, IfOk, [], length, true};
ghost use Rattle.std.specs.Arc.{arc_value};
ghost use Rattle.parked_gate.specs.Passes.{IsPassOf, gate_of, known};
ghost use Rattle.client_run.specs.Alarms.{is_raised};

use crate::alarm::{Alarm, Raise};
use crate::ends::Naming;
use parked_gate::{Gate, Pass};
use std::alloc::{AllocError, Global};
use std::marker::PhantomData;
use std::sync::{Arc, Wait};

/// An alarm behind its gate, with the first place there.
#[derive(Drop)]
pub(crate) struct Siren {
    pub(crate) gate: Arc<Gate<Alarm>>,
    pub(crate) pass: Pass<Alarm>,
    pub(crate) ghost fits: { IsPassOf (arc_value gate) pass },
}

impl Siren {
    /// Nobody raised it yet. The only error is want of memory.
    pub(crate) fn new(alloc: Global) -> Result<Siren, AllocError>
        ensures { IfOk result (λ siren. (known siren.pass).seen ≡ []) }
    {
        let Ok((gate, pass)) = Gate::new(alloc, Alarm::new()) else {
            return Err(AllocError);
        };
        match Arc::new(alloc, gate) {
            Ok(gate) => Ok(Siren { gate, pass }),
            Err(_) => Err(AllocError),
        }
    }
}

/// A place of its own at the alarm of a crew, from which the alarm is heard and raised. It takes no memory.
#[derive(Drop)]
pub(crate) struct Ear<J: Naming> {
    pub(crate) gate: Arc<Gate<Alarm>>,
    pub(crate) pass: Pass<Alarm>,
    pub(crate) of: PhantomData<J>,
    pub(crate) ghost here: { gate_of (arc_value gate) ≡ J.alarm },
    pub(crate) ghost fits: { IsPassOf (arc_value gate) pass },
}

impl<J: Naming> Ear<J> {
    /// The first place at the alarm of that name.
    pub(crate) fn new(siren: Siren) -> Ear<J>
        requires { gate_of (arc_value siren.gate) ≡ J.alarm }
    {
        let Siren { gate, pass } = siren;
        Ear {
            gate,
            pass,
            of: PhantomData,
        }
    }

    /// Whether somebody raised the alarm by now.
    pub(crate) fn hears<R: Wait>(&mut self, rt: &R) -> bool
        ensures heard { result ≡ is_raised (known self.new.pass).seen }
        ensures anew { length (known self.new.pass).learnt ≡ length (known self.old.pass).learnt + 1 }
        ensures mine { (known self.new.pass).mine ≡ (known self.old.pass).mine }
    {
        self.gate.look(rt, &mut self.pass, &())
    }

    /// Raises the alarm.
    pub(crate) fn raise<R: Wait>(&mut self, rt: &R)
        ensures { is_raised (known self.new.pass).seen ≡ true }
    {
        self.gate.call(rt, &mut self.pass, Raise)
    }

    /// One more place at the same alarm, from which it was not raised. The only error is want of memory.
    pub(crate) fn split<R: Wait>(&mut self, rt: &R) -> Result<Ear<J>, AllocError>
        ensures { IfOk result (λ ear. (known ear.pass).mine ≡ []) }
    {
        let gate = Arc::try_clone(&self.gate)?;
        let pass = gate.split(rt, &mut self.pass);
        Ok(Ear {
            gate,
            pass,
            of: PhantomData,
        })
    }
}
