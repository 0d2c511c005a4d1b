// Reading requests whose contents go to a feed as they come.
ghost use Rattle.std.specs.Prelude.{◌≡◌, ◌≢◌, ◌≤◌, ◌==◌, ◌+◌, ℕ, List, drop, length, if◌then◌else◌, IfOk, OnErr, Ok};

use crate::heads::Head;
use crate::reader::Opened;
use crate::reading::RequestReader;
use crate::refusal::HttpRefusal;
use crate::taken::Filled;
use bosh_ports::{Feed, Link};
use std::alloc::AllocError;

/// What reading the next request gives, where its content goes to a feed.
#[derive(Clone, Copy, Debug, PartialEq, Eq)]
pub enum HttpFed {
    /// A request, whose content the feed has. The connection ends after its response, or goes on.
    Request { closing: bool },
    /// What comes next is no request that is served.
    Refused(HttpRefusal),
    /// The stream ended between messages.
    End,
    /// The link failed.
    ReadFault,
}

impl RequestReader {
    ghost use Rattle.std.specs.Io.KnownBytes.{Keeps, prepend_known};
    ghost use Rattle.bosh_ports.specs.Faults.{HasRisen};
    ghost use Rattle.bosh_http.specs.Feeding.{FedOver, LetsGo, ReadsFed};
    ghost use Rattle.bosh_http.specs.Judging.{IsServed};

    /// Reads the next request off a link as `next` does, and feeds its content as it comes. The head and what was fed are let go
    /// of: after a failure inside a content the place of the next request isn't known, and the reader answers want of memory.
    pub fn next_fed<L: Link, F: Feed>(
        &mut self,
        link: &mut L,
        feed: &mut F,
    ) -> Result<HttpFed, AllocError>
        // Where the link tells its bytes, the answer is by the whole rest of the stream. After a request the feed has its content.
        ensures reads { IfOk result (ReadsFed (prepend_known self.old (L.left link.old)) (prepend_known self.new (L.left link.new)) (F.fed feed.new)) }

        // By any link, the answer is by the bytes that had come: a refusal needs no more of them, or the stream has ended.
        ensures answers { IfOk result (FedOver (L.left link.old) (L.left link.new) self.old self.new (F.fed feed.new)) }

        // Want of memory lets go of no more than some bytes at the front of those that had come.
        ensures kept { OnErr result (LetsGo (L.left link.old) (L.left link.new) self.old self.new) }

        ensures given { Keeps (L.given link.old) (L.given link.new) }
        ensures fault { result ≡ Ok HttpFed.ReadFault → HasRisen (L.faults link.old) (L.faults link.new) }
        ensures quiet { result ≢ Ok HttpFed.ReadFault → L.faults link.new ≡ L.faults link.old }
        ensures faults { L.faults link.old ≤ L.faults link.new }
    {
        match self.reader.next_head(link)? {
            Opened::Head(head) => self.feed_content(link, feed, &head),
            Opened::Wrong(refusal) => Ok(HttpFed::Refused(refusal)),
            Opened::Ended => Ok(ended(self.reader.len())),
            Opened::Failed => Ok(HttpFed::ReadFault),
        }
    }

    // Feeds the content behind a head that was let go of.
    fn feed_content<L: Link, F: Feed>(
        &mut self,
        link: &mut L,
        feed: &mut F,
        head: &Head<bool>,
    ) -> Result<HttpFed, AllocError>
        requires { head.now.start + head.now.content ≤ 1056768 }
        ensures answers { (seen : List ℕ) → IsServed seen head.now.start head.now.content head.now.said → head.now.start ≤ length seen → self.old ≡ drop head.now.start seen
            → IfOk result (FedOver (L.left link.old) (L.left link.new) seen self.new (F.fed feed.new)) }
        ensures kept { (seen : List ℕ) → head.now.start ≤ length seen → self.old ≡ drop head.now.start seen → OnErr result (LetsGo (L.left link.old) (L.left link.new) seen self.new) }
        ensures given { Keeps (L.given link.old) (L.given link.new) }
        ensures fault { result ≡ Ok HttpFed.ReadFault → HasRisen (L.faults link.old) (L.faults link.new) }
        ensures quiet { result ≢ Ok HttpFed.ReadFault → L.faults link.new ≡ L.faults link.old }
        ensures faults { L.faults link.old ≤ L.faults link.new }
    {
        feed.begin();
        let mut left = self.reader.feed(head.content, feed)?;
        while left > 0 {
            match self.reader.fill(link)? {
                Filled::More => {}
                Filled::End => {
                    let count = head.start + (head.content - left);
                    return Ok(HttpFed::Refused(HttpRefusal::Cut(count)));
                }
                Filled::Failed => return Ok(HttpFed::ReadFault),
            }
            left = self.reader.feed(left, feed)?;
        }
        Ok(HttpFed::Request { closing: head.said })
    }
}

// What is answered where the stream ended and no head is whole in so many bytes.
fn ended(count: usize) -> HttpFed
    ensures { result ≡ (if count == 0 then HttpFed.End else HttpFed.Refused (HttpRefusal.Cut count)) }
{
    match count {
        0 => HttpFed::End,
        _ => HttpFed::Refused(HttpRefusal::Cut(count)),
    }
}
