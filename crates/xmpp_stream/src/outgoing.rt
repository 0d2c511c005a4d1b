// What is owed on a stream to its link.
ghost use Rattle.std.specs.Prelude.{◌≡◌, ◌≢◌, ◌<◌, ◌≤◌, ◌++◌, ◌∷◌, [], ℕ, List, Option, None, Some, IfNone, IfOk, IfSome, OnErr, OnOk, drop, length, true, false};
ghost use Rattle.std.specs.Io.KnownBytes.{Keeps};
ghost use Rattle.bosh_ports.specs.Faults.{HasRisen};
ghost use Rattle.bosh_types.specs.declared.inward.Inward.{Inward};
ghost use Rattle.xmpp_stream.specs.Text.{end_tag, item_text};
ghost use Rattle.xmpp_stream.specs.Wire.{IsWritten};

use crate::kept::Kept;
use crate::poll_link::PollLink;
use crate::stream_text::{push_end, push_header, push_item};
use bosh_ports::Gave;
use bosh_types::{Inward, Text};
use std::alloc::{AllocError, Global};
use std::marker::Model;

/// What is owed on a stream to its link, which may have no room for it now: what the link was given, and after it what is owed, is
/// the text of what was passed.
#[derive(Drop)]
pub struct Outgoing {
    alloc: Global,
    to: Text,
    owed: Kept,
    is_closed: bool,
}

impl Model for Outgoing {
    ghost use Rattle.xmpp_stream.specs.Wire.{Outgoing};

    ghost Value = { Outgoing };

    ghost view = { λ o. record { to = o.to; owed = o.owed; closed = o.is_closed } };
}

/// What became of giving what is owed.
#[derive(Clone, Copy, Debug, PartialEq, Eq)]
pub enum Paid {
    /// Nothing is owed any more.
    All,
    /// The link has no room for the rest now.
    Waits,
    /// The link failed.
    Failed,
}

impl Outgoing {
    /// A stream to this host, whose header is owed. The only error is want of memory.
    pub fn new(alloc: Global, to: &[u8]) -> Result<Outgoing, AllocError>
        ensures written { (start : Option (List ℕ)) → IfOk result (λ outgoing. IsWritten start start outgoing []) }
        ensures to { IfOk result (λ outgoing. outgoing.to ≡ to.now) }
        ensures closed { IfOk result (λ outgoing. outgoing.closed ≡ false) }
    {
        let mut text = Vec::new(alloc);
        push_header(alloc, &mut text, to)?;
        let to = Text::from_vec(Vec::from_slice(alloc, to)?);
        Ok(Outgoing {
            alloc,
            to,
            owed: Kept::of(text),
            is_closed: false,
        })
    }

    /// Owes the text of an item, on a stream that isn't closed; on one that is, nothing. The only error is want of memory, after
    /// which all is as before.
    pub fn pass(&mut self, item: &Inward) -> Result<(), AllocError>
        ensures ok { (start given : Option (List ℕ)) (passed : List Inward) → IsWritten start given self.old passed → self.old.closed ≡ false → OnOk result (IsWritten start given self.new (passed ++ item.now ∷ [])) }
        ensures past { self.old.closed ≡ true → self.new ≡ self.old }
        ensures err { OnErr result (self.new ≡ self.old) }
        ensures others { self.new ≡ record self.old { owed = self.new.owed } }
    {
        if self.is_closed {
            return Ok(());
        }
        self.owe_item(item)?;
        Ok(())
    }

    fn owe_item(&mut self, item: &Inward) -> Result<(), AllocError>
        ensures ok { OnOk result (self.new ≡ record self.old { owed = self.old.owed ++ item_text self.old.to item.now }) }
        ensures err { OnErr result (self.new ≡ self.old) }
    {
        let mut text = Vec::new(self.alloc);
        push_item(self.alloc, &mut text, self.to.as_slice(), item)?;
        self.owed.push(text.as_slice())
    }

    /// Owes the end tag, unless it was owed before. The only error is want of memory, after which all is as before.
    pub fn close(&mut self) -> Result<(), AllocError>
        ensures ok { (start given : Option (List ℕ)) (passed : List Inward) → IsWritten start given self.old passed → OnOk result (IsWritten start given self.new passed) }
        ensures closed { OnOk result (self.new.closed ≡ true) }
        ensures err { OnErr result (self.new ≡ self.old) }
        ensures to { self.new.to ≡ self.old.to }
    {
        if self.is_closed {
            return Ok(());
        }
        self.owe_end()?;
        self.is_closed = true;
        Ok(())
    }

    fn owe_end(&mut self) -> Result<(), AllocError>
        ensures ok { OnOk result (self.new ≡ record self.old { owed = self.old.owed ++ end_tag }) }
        ensures err { OnErr result (self.new ≡ self.old) }
    {
        let mut text = Vec::new(self.alloc);
        push_end(&mut text)?;
        self.owed.push(text.as_slice())
    }

    /// Gives what is owed, as far as the link has room for it.
    pub fn give<L: PollLink>(&mut self, link: &mut L) -> Paid
        ensures written { (start : Option (List ℕ)) (passed : List Inward) → IsWritten start (L.given link.old) self.old passed → IsWritten start (L.given link.new) self.new passed }
        ensures all { result ≡ Paid.All → self.new.owed ≡ [] }
        ensures waits { result ≡ Paid.Waits → HasRisen (L.idle link.old) (L.idle link.new) }
        ensures failed { result ≡ Paid.Failed → HasRisen (L.faults link.old) (L.faults link.new) }
        ensures never_falls { (L.idle link.old ≤ L.idle link.new) × (L.faults link.old ≤ L.faults link.new) }
        ensures left { Keeps (L.left link.old) (L.left link.new) }
        ensures others { self.new ≡ record self.old { owed = self.new.owed } }
    {
        'pay: while self.owed() > 0 {
            match self.give_some(link) {
                Some(paid) => return paid,
                None => {}
            }
        }
        Paid::All
    }

    // Gives some of what is owed, or says why not.
    fn give_some<L: PollLink>(&mut self, link: &mut L) -> Option<Paid>
        requires { 0 < length self.old.owed }
        ensures written { (start : Option (List ℕ)) (passed : List Inward) → IsWritten start (L.given link.old) self.old passed → IsWritten start (L.given link.new) self.new passed }
        ensures less { IfNone result (length self.new.owed < length self.old.owed) }
        ensures idle { IfNone result (L.idle link.new ≡ L.idle link.old) }
        ensures faultless { IfNone result (L.faults link.new ≡ L.faults link.old) }
        ensures some { IfSome result (λ paid. paid ≢ Paid.All) }
        ensures waits { result ≡ Some Paid.Waits → HasRisen (L.idle link.old) (L.idle link.new) }
        ensures failed { result ≡ Some Paid.Failed → HasRisen (L.faults link.old) (L.faults link.new) }
        ensures never_falls { (L.idle link.old ≤ L.idle link.new) × (L.faults link.old ≤ L.faults link.new) }
        ensures left { Keeps (L.left link.old) (L.left link.new) }
        ensures others { self.new ≡ record self.old { owed = self.new.owed } }
    {
        match link.try_give(self.as_slice()) {
            None => Some(Paid::Waits),
            Some(gave) => match gave {
                Gave::Wrote(count) => {
                    self.skip(count);
                    None
                }
                Gave::Failed => Some(Paid::Failed),
            },
        }
    }

    fn as_slice(&self) -> &[u8]
        ensures { result.now ≡ self.now.owed }
    {
        self.owed.as_slice()
    }

    // So many bytes are owed no longer.
    fn skip(&mut self, count: usize)
        requires { count ≤ length self.old.owed }
        ensures { self.new ≡ record self.old { owed = drop count self.old.owed } }
    {
        self.owed.skip(count);
    }

    /// How many bytes are owed.
    pub fn owed(&self) -> usize
        ensures { result ≡ length self.now.owed }
    {
        self.owed.as_slice().len()
    }
}
