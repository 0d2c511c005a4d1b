// A copy of a request comes.
ghost use Rattle.std.specs.Prelude.{◌≡◌, ◌+◌, ◌∷◌, ◌<◌, ◌≤◌, ℕ, [], IfOk, IfSome, List, None, Some, length, slice_get};
ghost use Rattle.session_attrs.specs.declared.request.Kind.TheVariants as kinds;
ghost use Rattle.session_attrs.specs.Admission.{admitted_of};
ghost use Rattle.session_attrs.specs.Terms.{terms_of};
ghost use Rattle.session_core.specs.Opened.{opening_of};
ghost use Rattle.session_journal.specs.Entries.{request_in};
ghost use Rattle.two_ends.specs.Copies.{creation_in};
ghost use Rattle.two_ends.specs.Worlds.{IsPlain, IsPlainStep};
ghost use Rattle.world_laws.specs.Manager.{opens};
ghost use Rattle.world_laws.specs.Steps.{admits, carried, carries, comes, host_of, name, opening, refuses, turns};
ghost use Rattle.world_laws.specs.World.{PlainWorld};

use crate::manager::Manager;
use crate::reading::request_in;
use crate::refusing::refusal;
use crate::site::Site;
use crate::telling::see_all;
use crate::world::{World, nothing, only};
use bosh_types::limits::JOURNAL_BYTES;
use bosh_types::{
    Condition, CopyIn, HostName, HostNames, Moment, Rid, SharedText, Stanzas, Text, copy_items,
};
use session_attrs::{Admitted, Creation, Kind, Request, admit, negotiate};
use session_core::{Opening, copied_request};
use session_journal::Journalled;
use std::alloc::{AllocError, Global};
use world_laws::{Seen, SeenItem, Told};

impl World {
    // A copy of the request with this id comes, where it was made.
    pub(crate) fn carry(&mut self, alloc: Global, rid: Rid) -> Result<Seen, AllocError>
        ensures { IfOk result (λ seen. (w : PlainWorld) → IsPlain self.old w → IsPlainStep seen self.new (carries w rid)) }
    {
        match place_in(self.first, rid, self.sent.as_slice()) {
            Some(place) => {
                let body = body_at(self.sent.as_slice(), place).again()?;
                self.carried(alloc, rid, body)
            }
            None => only(alloc, SeenItem::NoCopy),
        }
    }

    // A copy with this body comes to the request with this id; a body that gives no request is refused.
    fn carried(&mut self, alloc: Global, rid: Rid, body: SharedText) -> Result<Seen, AllocError>
        ensures { IfOk result (λ seen. (w : PlainWorld) → IsPlain self.old w → IsPlainStep seen self.new (carried w rid body (request_in body))) }
    {
        match request_in(alloc, body.as_slice())? {
            Some(request) => self.come(alloc, body, request),
            None => self.refuse(alloc, rid, Condition::BadRequest),
        }
    }

    // The request with this id is refused, and no session is touched.
    fn refuse(&mut self, alloc: Global, rid: Rid, condition: Condition) -> Result<Seen, AllocError>
        ensures { IfOk result (λ seen. (w : PlainWorld) → IsPlain self.old w → IsPlainStep seen self.new (refuses w rid condition)) }
    {
        let mut told = Vec::new(alloc);
        let body = refusal(alloc, condition)?;
        told.push(Told::Answer { rid, body })?;
        see_all(&mut self.written, Vec::new(alloc), told)
    }

    // It comes to the session, or creates it.
    fn come(
        &mut self,
        alloc: Global,
        body: SharedText,
        request: Request,
    ) -> Result<Seen, AllocError>
        requires { request_in body ≡ Some request }
        ensures { IfOk result (λ seen. (w : PlainWorld) → IsPlain self.old w → IsPlainStep seen self.new (comes w body request request.kind w.manager)) }
    {
        match creation_in(&request.kind) {
            Some(creation) => self.come_first(alloc, &body, &request, creation),
            None => self.come_later(alloc, body, request),
        }
    }

    // The first creation opens the session, and changes nothing again.
    fn come_first(
        &mut self,
        alloc: Global,
        body: &SharedText,
        request: &Request,
        creation: Creation,
    ) -> Result<Seen, AllocError>
        requires read { request_in body.now ≡ Some request.now }
        requires kind { request.now.kind ≡ kinds.Creation creation }
        ensures { IfOk result (λ seen. (w : PlainWorld) → IsPlain self.old w → IsPlainStep seen self.new (comes w body.now request.now (kinds.Creation creation) w.manager)) }
    {
        let rid = request.rid;
        if self.manager.is_some() {
            return only(alloc, SeenItem::Dup { rid });
        }
        self.admit(alloc, body, request, creation)
    }

    // It is admitted by the name of the host that it is for.
    fn admit(
        &mut self,
        alloc: Global,
        body: &SharedText,
        request: &Request,
        creation: Creation,
    ) -> Result<Seen, AllocError>
        requires read { request_in body.now ≡ Some request.now }
        requires kind { request.now.kind ≡ kinds.Creation creation }
        ensures { IfOk result (λ seen. (w : PlainWorld) → IsPlain self.old w
            → IsPlainStep seen self.new (admits w body.now request.now creation (admitted_of request.now.to (host_of w ∷ [])))) }
    {
        let rid = request.rid;
        match admitted(alloc, request, &self.site)? {
            Admitted::Host(_) => self.create(alloc, body, request, creation),
            Admitted::Improper => self.refuse(alloc, rid, Condition::ImproperAddressing),
            Admitted::Unknown => self.refuse(alloc, rid, Condition::HostUnknown),
        }
    }

    // The session is created, and answered at once.
    fn create(
        &mut self,
        alloc: Global,
        body: &SharedText,
        request: &Request,
        creation: Creation,
    ) -> Result<Seen, AllocError>
        requires read { request_in body.now ≡ Some request.now }
        requires kind { request.now.kind ≡ kinds.Creation creation }
        ensures { IfOk result (λ seen. (w : PlainWorld) → IsPlain self.old w → IsPlainStep seen self.new (turns w [] (opens (opening w request.now body.now creation)))) }
    {
        let opening = opening_of(alloc, &self.site, body, request, &creation, self.moment)?;
        let (session, answer) = Journalled::open(alloc, opening, 0)?;
        let (manager, told) = Manager::open(alloc, session, request.rid, answer)?;
        self.manager = Some(manager);
        see_all(&mut self.written, Vec::new(alloc), told)
    }

    // A copy of a later request comes to the session; before the creation came it is lost.
    fn come_later(
        &mut self,
        alloc: Global,
        body: SharedText,
        request: Request,
    ) -> Result<Seen, AllocError>
        requires read { request_in body ≡ Some request }
        requires kind { (sid : List ℕ) × (request.kind ≡ kinds.Later sid) }
        ensures { IfOk result (λ seen. (w : PlainWorld) → IsPlain self.old w → IsPlainStep seen self.new (comes w body request request.kind w.manager)) }
    {
        match &mut self.manager {
            Some(manager) => {
                let told = manager.arrive(alloc, request, body, self.moment)?;
                see_all(&mut self.written, Vec::new(alloc), told)
            }
            None => Ok(nothing(alloc)),
        }
    }
}

// What a request that creates a session asks for.
fn creation_in(kind: &Kind) -> Option<Creation>
    ensures { result ≡ creation_in kind.now }
{
    match kind {
        Kind::Creation(creation) => Some(*creation),
        Kind::Later { .. } => None,
    }
}

// Whether a request is for the host of this site.
fn admitted(alloc: Global, request: &Request, site: &Site) -> Result<Admitted, AllocError>
    ensures { IfOk result (λ admitted. admitted ≡ admitted_of request.now.to (record { name = site.now.host; greeting = site.now.greeting } ∷ [])) }
{
    let mut hosts = Vec::new(alloc);
    let name = site.host.copy_in(alloc)?;
    let greeting = copy_items(alloc, site.greeting.as_slice())?;
    hosts.push(HostName {
        name,
        greeting: Stanzas::from_vec(greeting),
    })?;
    Ok(admit(request, &HostNames::from_vec(hosts)))
}

// The place of the request with this id among these, which go on by one from the first.
pub(crate) fn place_in(first: Rid, rid: Rid, sent: &[SharedText]) -> Option<usize>
    ensures some { IfSome result (λ place. (rid ≡ first + place) × (place < length sent.now)) }
    ensures none { result ≡ None → first ≤ rid → first + length sent.now ≤ rid }
{
    if rid.value() < first.value() {
        return None;
    }
    let place = rid.value() - first.value();
    if place >= sent.len() as u64 {
        return None;
    }
    Some(place as usize)
}

fn body_at(sent: &[SharedText], place: usize) -> &SharedText
    requires { place < length sent.now }
    ensures { slice_get sent.now place ≡ Some result.now }
{
    &sent[place]
}

// What opens the one session of a world.
fn opening_of(
    alloc: Global,
    site: &Site,
    body: &SharedText,
    request: &Request,
    creation: &Creation,
    at: Moment,
) -> Result<Opening, AllocError>
    ensures { IfOk result (λ opening. opening ≡ opening_of request.now body.now (terms_of creation.now) name site.now.host site.now.greeting at) }
{
    let request = copied_request(alloc, request)?;
    let sid = Vec::from_slice(alloc, b"s1")?;
    let host = SharedText::new(alloc, site.host.copy_in(alloc)?)?;
    let greeting = copy_items(alloc, site.greeting.as_slice())?;
    Ok(Opening {
        request,
        body: body.again()?,
        terms: negotiate(creation),
        sid: Text::from_vec(sid),
        host,
        greeting: Stanzas::from_vec(greeting),
        at,
        limit: JOURNAL_BYTES,
        gap_waits: 1,
    })
}
