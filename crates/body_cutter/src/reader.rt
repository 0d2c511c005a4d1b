ghost use Rattle.std.specs.Prelude.{◌≡◌, ◌<◌, ◌^◌, ◌||◌, OnOk, IfOk, encode_utf8};
ghost use Rattle.body_cutter.specs.Reader.{acted, attr_named, first_state, next_move, with_name_begun, with_name_grown, is_body_tag, matched, move_of, place_next, reference_moved, deepest, step, with_attr, with_attr_name, with_element, with_value, without_element};
ghost use Rattle.body_cutter.specs.Reading.{Takes, cut_of, state_of};

use crate::chars::wide_next;
use crate::content::{
    content_next, end_name_next, end_space_next, opened_next, section_next, section_word_next,
    stanza_start_next,
};
use crate::names::{NameSet, OpenNames};
use crate::parts::{Attr, Attrs, Cut, Span, Spans};
use crate::place::{Act, Around, Kind, Move, Place, Reference, ReferenceMove, Wide};
use crate::prolog::{
    body_word_next, declaration_next, declaration_word_next, first_next, prolog_next, start_next,
};
use crate::references::reference_next;
use crate::tags::{
    after_value_next, attr_equals_next, attr_name_next, attr_quote_next, tag_name_next,
    tag_slash_next, tag_space_next, value_next,
};
use bosh_types::Text;
use bosh_types::limits::{MOST_ATTRIBUTES, MOST_DEPTH};
use std::alloc::{AllocError, Global};
use std::mem;

/// A reader of one text, from left to right.
#[derive(Drop)]
pub(crate) struct Reader {
    alloc: Global,
    pub(crate) kind: Kind,
    pub(crate) place: Place,
    pub(crate) wide: Wide,
    pub(crate) reference: Option<Reference>,
    pub(crate) elements: OpenNames,
    pub(crate) name: Vec<u8>,
    name_start: usize,
    name_end: usize,
    seen: NameSet,
    value: Vec<u8>,
    pub(crate) attrs: Vec<Attr>,
    child_start: usize,
    pub(crate) children: Vec<Span>,
    pub(crate) too_many_attributes: bool,
    pub(crate) too_deep: bool,
}

/// Where a byte leads after a whole character.
#[inline]
#[tactic(auto, unfolding(crate::specs::Reader::place_next, crate::specs::Names::around, crate::specs::Names::due))]
fn place_next(place: Place, around: Around, due: Option<(u8, usize)>, b: u8) -> Option<Move>
    ensures { result ≡ place_next place around due b }
{
    match place {
        Place::Start => start_next(b),
        Place::First => first_next(b),
        Place::DeclarationWord(count) => declaration_word_next(count, b),
        Place::Declaration(after_mark) => declaration_next(after_mark, b),
        Place::Prolog => prolog_next(b),
        Place::BodyWord(count) => body_word_next(count, b),
        Place::StanzaStart => stanza_start_next(b),
        Place::Content(brackets) => content_next(around, brackets, b),
        Place::Opened => opened_next(around, b),
        Place::SectionWord(count) => section_word_next(count, b),
        Place::Section(brackets) => section_next(brackets, b),
        Place::EndName(_) => end_name_next(due, b),
        Place::EndSpace => end_space_next(b),
        Place::TagName => tag_name_next(b),
        Place::TagSpace => tag_space_next(b),
        Place::TagSlash => tag_slash_next(b),
        Place::AttrName => attr_name_next(b),
        Place::AttrEquals => attr_equals_next(b),
        Place::AttrQuote => attr_quote_next(b),
        Place::Value(quote, after_cr) => value_next(quote, after_cr, b),
        Place::AfterValue => after_value_next(b),
    }
}

/// How many bytes of the innermost name an end tag has.
#[inline]
#[tactic(auto, unfolding(crate::specs::Reader::matched))]
fn matched(place: Place) -> usize
    ensures { result ≡ matched place }
{
    match place {
        Place::EndName(count) => count,
        _ => 0,
    }
}

fn reference_moved(place: Place, next: Option<ReferenceMove>) -> Option<Move>
    ensures { result ≡ reference_moved place next }
{
    match next {
        Some(ReferenceMove::More(reference)) => Some(Move {
            place,
            reference: Some(reference),
            act: Act::Pass,
        }),
        Some(ReferenceMove::Done(character)) => Some(Move {
            place,
            reference: None,
            act: Act::ValueChar(character),
        }),
        None => None,
    }
}

/// Where a byte leads.
#[inline]
#[tactic(auto, unfolding(crate::specs::Reader::move_of, crate::specs::Names::around, crate::specs::Names::due))]
fn move_of(
    place: Place,
    reference: Option<Reference>,
    around: Around,
    due: Option<(u8, usize)>,
    b: u8,
) -> Option<Move>
    ensures { result ≡ move_of place reference around due b }
{
    match reference {
        None => place_next(place, around, due, b),
        Some(reference) => reference_moved(place, reference_next(reference, b)),
    }
}

#[inline]
#[tactic(auto, unfolding(crate::specs::Reader::is_body_tag, crate::specs::Names::around))]
fn is_body_tag(around: Around) -> bool
    ensures { result ≡ is_body_tag around }
{
    match around {
        Around::Body => true,
        _ => false,
    }
}

fn deepest(kind: Kind) -> usize
    ensures { result ≡ deepest kind }
{
    match kind {
        Kind::Body => MOST_DEPTH + 1,
        Kind::Stanza => MOST_DEPTH,
    }
}

fn either(a: bool, b: bool) -> bool
    ensures { result ≡ (a || b) }
{
    a || b
}

impl Reader {
    #[tactic(auto, unfolding(crate::specs::Reader::first_state))]
    pub(crate) fn new(alloc: Global, kind: Kind, place: Place) -> Self
        ensures { state_of result ≡ first_state kind place }
    {
        Reader {
            alloc,
            kind,
            place,
            wide: Wide::Whole,
            reference: None,
            elements: OpenNames::new(alloc),
            name: Vec::new(alloc),
            name_start: 0,
            name_end: 0,
            seen: NameSet::new(alloc),
            value: Vec::new(alloc),
            attrs: Vec::new(alloc),
            child_start: 0,
            children: Vec::new(alloc),
            too_many_attributes: false,
            too_deep: false,
        }
    }

    /// The attributes and the children of the body.
    pub(crate) fn into_cut(self) -> Cut
        ensures { result ≡ cut_of (state_of self) }
    {
        Cut {
            attrs: Attrs::from_vec(self.attrs),
            children: Spans::from_vec(self.children),
        }
    }

    #[tactic(auto, unfolding(crate::specs::Reader::with_name_begun))]
    fn begin_name(&mut self, at: usize, b: u8) -> Result<(), AllocError>
        ensures { OnOk result (state_of self.new ≡ with_name_begun (state_of self.old) at b) }
    {
        self.name.clear();
        self.name.push(b)?;
        self.name_start = at;
        Ok(())
    }

    #[inline]
    #[tactic(auto, unfolding(crate::specs::Reader::with_name_grown))]
    fn grow_name(&mut self, b: u8) -> Result<(), AllocError>
        ensures { OnOk result (state_of self.new ≡ with_name_grown (state_of self.old) b) }
    {
        self.name.push(b)?;
        Ok(())
    }

    #[tactic(auto, unfolding(crate::specs::Reader::with_element))]
    fn open_element(&mut self) -> Result<(), AllocError>
        ensures { OnOk result (state_of self.new ≡ with_element (state_of self.old)) }
    {
        let name = mem::replace(&mut self.name, Vec::new(self.alloc));
        self.elements.push(name)?;
        self.seen = NameSet::new(self.alloc);
        self.too_deep = either(self.too_deep, self.elements.len() > deepest(self.kind));
        Ok(())
    }

    /// Answers whether the tag has no attribute of this name yet.
    #[tactic(auto, unfolding(crate::specs::Reader::attr_named, crate::specs::Reader::with_attr_name))]
    fn end_attr_name(&mut self, at: usize) -> Result<bool, AllocError>
        ensures { IfOk result (λ added. Takes (attr_named (state_of self.old) at) (state_of self.old) added (state_of self.new)) }
    {
        let name = Vec::from_slice(self.alloc, self.name.as_slice())?;
        if !self.seen.add(name)? {
            return Ok(false);
        }
        self.name.clear();
        self.name_end = at;
        self.too_many_attributes = either(
            self.too_many_attributes,
            self.seen.len() > MOST_ATTRIBUTES,
        );
        Ok(true)
    }

    #[inline]
    #[tactic(auto, unfolding(crate::specs::Reader::with_value))]
    pub(crate) fn grow_value(&mut self, bytes: &[u8]) -> Result<(), AllocError>
        ensures { OnOk result (state_of self.new ≡ with_value (state_of self.old) bytes.now) }
    {
        if is_body_tag(self.elements.around(self.kind)) {
            self.value.extend_from_slice(bytes)?;
        }
        Ok(())
    }

    #[tactic(auto, unfolding(crate::specs::Reader::with_attr))]
    fn end_attr(&mut self) -> Result<(), AllocError>
        ensures { OnOk result (state_of self.new ≡ with_attr (state_of self.old)) }
    {
        if is_body_tag(self.elements.around(self.kind)) {
            let value = Text::from_vec(mem::replace(&mut self.value, Vec::new(self.alloc)));
            let name = Span {
                start: self.name_start,
                end: self.name_end,
            };
            self.attrs.push(Attr { name, value })?;
        }
        Ok(())
    }

    #[tactic(auto, unfolding(crate::specs::Reader::without_element))]
    fn close_element(&mut self, at: usize) -> Result<(), AllocError>
        requires { at < 2 ^ 63 }
        ensures { OnOk result (state_of self.new ≡ without_element (state_of self.old) at) }
    {
        self.elements.pop();
        if is_body_tag(self.elements.around(self.kind)) {
            self.children.push(Span {
                start: self.child_start,
                end: at + 1,
            })?;
        }
        Ok(())
    }

    #[tactic(auto, unfolding(crate::specs::Reader::with_value))]
    fn grow_value_by(&mut self, character: char) -> Result<(), AllocError>
        ensures { OnOk result (state_of self.new ≡ with_value (state_of self.old) (encode_utf8 character)) }
    {
        let mut room = [0u8; 4];
        let text = character.encode_utf8(&mut room);
        self.grow_value(text.as_bytes())
    }

    #[inline]
    #[tactic(auto, unfolding(crate::specs::Reader::acted))]
    fn act(&mut self, act: Act, at: usize, b: u8) -> Result<bool, AllocError>
        requires { at < 2 ^ 63 }
        ensures { IfOk result (λ alive. Takes (acted act (state_of self.old) at b) (state_of self.old) alive (state_of self.new)) }
    {
        match act {
            Act::Pass => Ok(true),
            Act::Mark => {
                self.child_start = at;
                Ok(true)
            }
            Act::BeginName => {
                self.begin_name(at, b)?;
                Ok(true)
            }
            Act::GrowName => {
                self.grow_name(b)?;
                Ok(true)
            }
            Act::OpenElement => {
                self.open_element()?;
                Ok(true)
            }
            Act::EndAttrName => self.end_attr_name(at),
            Act::ValueByte => {
                self.grow_value(&[b])?;
                Ok(true)
            }
            Act::ValueChar(character) => {
                self.grow_value_by(character)?;
                Ok(true)
            }
            Act::EndAttr => {
                self.end_attr()?;
                Ok(true)
            }
            Act::CloseElement => {
                self.close_element(at)?;
                Ok(true)
            }
        }
    }

    /// Where a byte leads from here.
    #[inline]
    #[tactic(auto, unfolding(crate::specs::Reader::next_move))]
    fn move_at(&self, b: u8) -> Option<Move>
        ensures { result ≡ next_move (state_of self.now) b }
    {
        let due = self.elements.due(matched(self.place));
        move_of(
            self.place,
            self.reference,
            self.elements.around(self.kind),
            due,
            b,
        )
    }

    /// Takes the byte `b`, which lies at `at`, and answers whether some text goes on so. If none does, nothing changes.
    #[inline]
    #[tactic(auto, unfolding(crate::specs::Reader::step))]
    pub(crate) fn step(&mut self, at: usize, b: u8) -> Result<bool, AllocError>
        requires { at < 2 ^ 63 }
        ensures { IfOk result (λ alive. Takes (step (state_of self.old) at b) (state_of self.old) alive (state_of self.new)) }
    {
        let Some(wide) = wide_next(self.wide, b) else {
            return Ok(false);
        };
        let Some(next) = self.move_at(b) else {
            return Ok(false);
        };
        if !self.act(next.act, at, b)? {
            return Ok(false);
        }
        self.wide = wide;
        self.place = next.place;
        self.reference = next.reference;
        Ok(true)
    }
}
