// What a copy breaks when it is processed.
ghost use Rattle.std.specs.Prelude.{◌≡◌, ◌≤◌, ◌&&◌, ◌==◌, length, min, IsTrue};
ghost use Rattle.std.specs.Option.{SomeIff, option_copied};
ghost use Rattle.pause_rules.specs.Overactive.{apart, is_overactive};
ghost use Rattle.session_core.specs.Rules.{Pauses, Activity, breaks, broken_rule, names_none};
ghost use Rattle.session_core.specs.StandsFor.{asks_of};

use crate::copy::RequestCopy;
use crate::session::Session;
use bosh_types::{Ending, Text};
use pause_rules::{Deadlines, Mark};
use stream_names::Streams;

impl Session {
    /// How the copy ends the session by the first rule that it breaks. It changes nothing.
    pub(crate) fn broken_rule(&self, copy: &RequestCopy) -> Option<Ending>
        ensures { result ≡ broken_rule (asks_of self.now) copy.now }
    {
        let rid = copy.request.rid;
        if !self.keys.fits(copy.request.key.as_ref()) {
            return Some(Ending::WrongKey { rid });
        }
        if names_none(&self.streams, copy.request.stream.as_ref()) {
            return Some(Ending::UnknownStream { rid });
        }
        let too_long = self.pause_too_long(copy);
        if too_long.is_some() {
            return too_long;
        }
        self.overactive(copy)
    }

    // How a pause of more seconds than the session allows ends it.
    fn pause_too_long(&self, copy: &RequestCopy) -> Option<Ending>
        ensures { result ≡ breaks (asks_of self.now) copy.now Pauses }
    {
        let pause = copy.request.pause?;
        let maxpause = self.deadlines.terms().maxpause;
        if copy.is_pause() && pause > maxpause {
            return Some(Ending::PauseTooLong {
                rid: copy.request.rid,
                pause,
                maxpause,
            });
        }
        None
    }

    // How an empty request too soon after the one before it ends the session.
    fn overactive(&self, copy: &RequestCopy) -> Option<Ending>
        ensures { result ≡ breaks (asks_of self.now) copy.now Activity }
    {
        let apart = too_close(&self.deadlines, self.held.len(), copy.mark(), self.prior())?;
        Some(Ending::Overactive {
            rid: copy.request.rid,
            apart,
        })
    }

    // What the rule on activity asks of the copy that was processed last.
    fn prior(&self) -> Mark
        ensures { result ≡ record self.now.latest { bare = (length self.now.held == 0) && self.now.last_bare } }
    {
        Mark {
            arrived: self.latest.arrived,
            empty: self.latest.empty,
            creation: self.latest.creation,
            bare: self.held.len() == 0 && self.last_bare,
        }
    }
}

// Whether this names a stream that isn't open.
fn names_none(streams: &Streams, name: Option<&Text>) -> bool
    ensures { result ≡ names_none streams.now.running (option_copied name.entry) }
{
    match name {
        None => false,
        Some(name) => streams.running().find(name.as_slice()).is_none(),
    }
}

// By how many milliseconds a copy lies apart from the one before it, where that is too close and so many are held.
fn too_close(deadlines: &Deadlines, held: usize, this: Mark, prior: Mark) -> Option<u64>
    ensures { SomeIff result (IsTrue (is_overactive deadlines.now.terms held this prior)) (apart this prior) }
{
    // The proof learns here that the session's `hold` has 32 bits.
    in_range(deadlines.terms().hold);
    deadlines.overactive(capped(held), this, prior)
}

fn in_range(number: u32)
    ensures { number ≤ 4294967295 }
{
    let _number = number;
}

// The number, as far as 32 bits tell.
fn capped(number: usize) -> u32
    ensures { result ≡ min number 4294967295 }
{
    match u32::try_from(number) {
        Ok(number) => number,
        Err(_) => u32::MAX,
    }
}
