// What the lines of a trace told so far, and whether one more line keeps its rules.
ghost use Rattle.std.specs.Prelude.{[], IfOk};
ghost use Rattle.trace_audit.specs.declared.line.TraceLine.TheVariants.{Gave, Sent, Came, In, Answer, Took, Got};
ghost use Rattle.trace_audit.specs.Stands.{Judges, Stands};
ghost use Rattle.trace_audit.specs.Told.{Told, told};

use crate::bodies::{Posted, Reply, read_posted, read_reply};
use crate::ids::{answer_at, distance, is_marked, mark, request_at};
use crate::line::{Item, TraceLine};
use crate::outcome::Rule;
use crate::searches::{
    changed, follows, handed_after, is_begun_well, is_lowest, next_item, next_payload, same_item,
};
use bosh_types::{Rid, Text};
use std::alloc::{AllocError, Global};

// A place in a list of lists.
#[derive(Clone, Copy, Debug)]
pub(crate) struct Place {
    pub(crate) index: usize,
    pub(crate) offset: usize,
}

// What the lines so far told.
#[derive(Drop)]
pub(crate) struct Heard {
    pub(crate) gave: Vec<Text>,
    pub(crate) sent: Vec<Posted>,
    // Of each request whether it came.
    pub(crate) came: Vec<bool>,
    // Where the next item to go inward stands.
    pub(crate) inward: Place,
    // The first answer without a type for each id.
    pub(crate) counted: Vec<Reply>,
    // How many stanzas their payloads are.
    pub(crate) handed: usize,
    // Of each of these answers whether it was taken.
    pub(crate) took: Vec<bool>,
    // Where the next stanza to be got stands.
    pub(crate) outward: Place,
}

impl Heard {
    // Nothing was told. Takes no memory.
    pub(crate) fn new(alloc: Global) -> Heard
        ensures { Stands result (told []) }
    {
        let start = Place {
            index: 0,
            offset: 0,
        };
        Heard {
            gave: Vec::new(alloc),
            sent: Vec::new(alloc),
            came: Vec::new(alloc),
            inward: start,
            counted: Vec::new(alloc),
            handed: 0,
            took: Vec::new(alloc),
            outward: start,
        }
    }

    // The first rule that the line breaks. Where it breaks none it is kept.
    pub(crate) fn judge(
        &mut self,
        alloc: Global,
        line: TraceLine,
    ) -> Result<Option<Rule>, AllocError>
        ensures { (t : Told) → Stands self.old t → IfOk result (λ broken. Judges broken self.new t line) }
    {
        match line {
            TraceLine::Gave(stanza) => self.gave(stanza),
            TraceLine::Sent(body) => self.sent(alloc, body),
            TraceLine::Came(body) => self.came(alloc, body),
            TraceLine::In(item) => Ok(self.passed(&item)),
            TraceLine::Answer { rid, body } => self.answered(alloc, rid, body),
            TraceLine::Took { rid } => Ok(self.took(rid)),
            TraceLine::Got(stanza) => Ok(self.got(&stanza)),
            TraceLine::End => Ok(None),
        }
    }

    fn gave(&mut self, stanza: Text) -> Result<Option<Rule>, AllocError>
        ensures { (t : Told) → Stands self.old t → IfOk result (λ broken. Judges broken self.new t (Gave stanza)) }
    {
        self.gave.push(stanza)?;
        Ok(None)
    }

    fn sent(&mut self, alloc: Global, body: Text) -> Result<Option<Rule>, AllocError>
        ensures { (t : Told) → Stands self.old t → IfOk result (λ broken. Judges broken self.new t (Sent body)) }
    {
        let Some(posted) = read_posted(alloc, body)? else {
            return Ok(Some(Rule::Body));
        };
        if !is_begun_well(&self.sent, posted.creates) {
            return Ok(Some(Rule::Body));
        }
        if !follows(&self.sent, posted.rid) {
            return Ok(Some(Rule::Number));
        }
        self.sent.push(posted)?;
        self.came.push(false)?;
        Ok(None)
    }

    fn came(&mut self, alloc: Global, body: Text) -> Result<Option<Rule>, AllocError>
        ensures { (t : Told) → Stands self.old t → IfOk result (λ broken. Judges broken self.new t (Came body)) }
    {
        let Some(posted) = read_posted(alloc, body)? else {
            return Ok(Some(Rule::Altered));
        };
        let Some(place) = distance(&self.sent, posted.rid) else {
            return Ok(Some(Rule::Altered));
        };
        let Some(sent) = request_at(&self.sent, place) else {
            return Ok(Some(Rule::Altered));
        };
        if sent.body.as_slice() != posted.body.as_slice() {
            return Ok(Some(Rule::Altered));
        }
        mark(&mut self.came, place);
        Ok(None)
    }

    fn passed(&mut self, item: &Item) -> Option<Rule>
        ensures { (t : Told) → Stands self.old t → Judges result self.new t (In item.now) }
    {
        let Some((next, place)) = next_item(&self.sent, &self.came, self.inward) else {
            return Some(Rule::Inward);
        };
        if !same_item(next, item) {
            return Some(Rule::Inward);
        }
        self.inward = place;
        None
    }

    fn answered(&mut self, alloc: Global, rid: Rid, body: Text) -> Result<Option<Rule>, AllocError>
        ensures { (t : Told) → Stands self.old t → IfOk result (λ broken. Judges broken self.new t (Answer rid body)) }
    {
        let Some(reply) = read_reply(alloc, rid, body)? else {
            return Ok(Some(Rule::Body));
        };
        let Some(place) = distance(&self.sent, reply.rid) else {
            return Ok(Some(Rule::Order));
        };
        if !is_marked(&self.came, place) {
            return Ok(Some(Rule::Order));
        }
        if reply.typed {
            return Ok(None);
        }
        if let Some(earlier) = answer_at(&self.counted, place) {
            return Ok(changed(earlier, &reply));
        }
        if !is_lowest(&self.sent, self.counted.len(), reply.rid) {
            return Ok(Some(Rule::Order));
        }
        let Some(handed) = handed_after(&self.gave, self.handed, reply.payloads.as_slice()) else {
            return Ok(Some(Rule::Payload));
        };
        self.handed = handed;
        self.counted.push(reply)?;
        self.took.push(false)?;
        Ok(None)
    }

    fn took(&mut self, rid: Rid) -> Option<Rule>
        ensures { (t : Told) → Stands self.old t → Judges result self.new t (Took rid) }
    {
        let Some(place) = distance(&self.sent, rid) else {
            return Some(Rule::Took);
        };
        if place >= self.counted.len() {
            return Some(Rule::Took);
        }
        mark(&mut self.took, place);
        None
    }

    fn got(&mut self, stanza: &Text) -> Option<Rule>
        ensures { (t : Told) → Stands self.old t → Judges result self.new t (Got stanza.now) }
    {
        let Some((next, place)) = next_payload(&self.counted, &self.took, self.outward) else {
            return Some(Rule::Got);
        };
        if next.as_slice() != stanza.as_slice() {
            return Some(Rule::Got);
        }
        self.outward = place;
        None
    }
}
