// A request that creates a session.
ghost use Rattle.std.specs.Prelude.{◌≡◌, ◌<◌, IfOk, IsTrue, OnErr, Some, length, slice_get};
ghost use Rattle.std.specs.List.{list_all};
ghost use Rattle.parked_gate.specs.Passes.{IsPassOf, known};
ghost use Rattle.serve_loop.specs.Answering.{Adds, Answers, IsLost, ShowsDirectory};
ghost use Rattle.serve_loop.specs.Asked.{asked_of};
ghost use Rattle.serve_loop.specs.Drawing.{OpensAsDrawn};
ghost use Rattle.session_attrs.specs.Serving.{can_serve};
ghost use Rattle.serve_loop.specs.Trail.{IsNow, IsOpeningAt, Setting, refusal_text, setting};
ghost use Rattle.session_attrs.specs.declared.request.Creation.{Creation};
ghost use Rattle.session_attrs.specs.declared.request.Kind.TheVariants as kinds;
ghost use Rattle.session_core.specs.Journal.{IsReadFrom};
ghost use Rattle.server_ports.specs.Names.{IsNamePart};
ghost use Rattle.session_table.specs.Replies.{MayOpen};

use crate::answering::{Answering, evidence_of, session_of};
use crate::arriving::ring;
use crate::asked::Asked;
use crate::trail::TrailLine;
use crate::worker::{Site, Tools, Worker};
use bosh_ports::Bell;
use bosh_types::{
    Condition, CopyIn, HostName, HostNames, Moment, SharedText, Stanzas, Text, copy_items,
};
use server_ports::{Clock, Names};
use session_attrs::Request;
use session_table::{Limits, NewSession, Opening};
use std::alloc::{AllocError, Global};
use std::sync::Wait;

impl Worker {
    /// Opens a session at the host at this place.
    pub(crate) fn create<R: Wait, C: Clock, B: Bell, M: Names>(
        &mut self,
        rt: &R,
        site: &Site<'_, C>,
        tools: &mut Tools<B, M>,
        request: Request,
        body: SharedText,
        place: usize,
    ) -> Result<Answering, AllocError>
        requires pass { IsPassOf site.now.directory.now self.old.purse.directory }
        requires asks { asked_of site.now.hosts.now body ≡ Asked.Creation request place }
        ensures pass { IsPassOf site.now.directory.now self.new.purse.directory }
        ensures answers { IfOk result (Answers (setting site.now.hosts.now site.now.limits (C.moment site.now.clock.now)) body self.old.trail self.new.trail
            self.old.purse self.new.purse) }
        ensures err { OnErr result (self.new.trail ≡ self.old.trail) }
        ensures lost { OnErr result (IsLost (setting site.now.hosts.now site.now.limits (C.moment site.now.clock.now)) body self.old.purse self.new.purse) }
        ensures drawn { OpensAsDrawn (M.drawn tools.old.names) (M.drawn tools.new.names) (known self.old.purse.directory) (known self.new.purse.directory) }
        ensures silences { B.silences tools.new.bell ≡ B.silences tools.old.bell }
    {
        let name = tools.names.name()?;
        let host = host_at(site.hosts, place);
        let at = site.clock.now();
        let opening = opening_at(site.alloc, name, host, request, body, at, site.limits)?;
        let new = self.purse.open(rt, site.directory, opening)?;
        match new {
            NewSession::Opened { number, answer } => {
                ring(&mut tools.bell, number);
                self.trail.open(session_of(&self.purse, number))?;
                Ok(Answering::Now(answer))
            }
            NewSession::TableFull => {
                tools.refused.table_full = tools.refused.table_full.saturating_add(1);
                self.no_room(site.alloc)
            }
            NewSession::OpeningsSpent => {
                tools.refused.openings_spent = tools.refused.openings_spent.saturating_add(1);
                self.no_room(site.alloc)
            }
        }
    }

    /// The directory said that it has no room.
    fn no_room(&mut self, alloc: Global) -> Result<Answering, AllocError>
        ensures text { IfOk result (λ answering. answering ≡ Answering.Now (refusal_text Condition.UndefinedCondition)) }
        ensures line { IfOk result (λ _. Adds self.old.trail self.new.trail (TrailLine.NoSession Condition.UndefinedCondition)
            (ShowsDirectory (known self.old.purse.directory))) }
        ensures purse { self.new.purse ≡ self.old.purse }
        ensures err { OnErr result (self.new.trail ≡ self.old.trail) }
    {
        let evidence = evidence_of(&self.purse);
        self.trail
            .refuse(alloc, Condition::UndefinedCondition, evidence)
    }
}

// The host at this place, at which a session can be opened.
fn host_at(hosts: &HostNames, place: usize) -> &HostName
    requires within { place < length hosts.now }
    requires served { IsTrue (list_all can_serve hosts.now) }
    ensures host { slice_get hosts.now place ≡ Some result.now }
    ensures serves { IsTrue (can_serve result.now) }
{
    &hosts.as_slice()[place]
}

// What a session is opened with, for this body and at this host.
fn opening_at(
    alloc: Global,
    name: Text,
    host: &HostName,
    request: Request,
    body: SharedText,
    at: Moment,
    limits: Limits,
) -> Result<Opening, AllocError>
    requires name { IsNamePart name }
    requires host { IsTrue (can_serve host.now) }
    requires read { IsReadFrom body request }
    requires creation { (creation : Creation) × (request.kind ≡ kinds.Creation creation) }
    ensures may { IfOk result MayOpen }
    ensures name { IfOk result (λ opening. opening.name ≡ name) }
    ensures is { (site : Setting) → IsNow site at → limits ≡ site.limits → IfOk result (IsOpeningAt site host.now request body) }
{
    let host_name = SharedText::new(alloc, host.name.copy_in(alloc)?)?;
    let greeting = Stanzas::from_vec(copy_items(alloc, host.greeting.as_slice())?);
    Ok(Opening {
        name,
        host: host_name,
        greeting,
        request,
        body,
        at,
        limits,
    })
}
