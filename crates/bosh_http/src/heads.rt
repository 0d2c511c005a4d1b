// The heads of messages: what a kind of messages says of them, for the one reader that reads all kinds.
ghost use Rattle.std.specs.Prelude.{◌≡◌, ◌+◌, ◌<◌, ◌≤◌, ℕ, List, [], ◌++◌, length, take, IfOk};
ghost use Rattle.bosh_http.specs.Heads.{TellsOf};
ghost use Rattle.bosh_http.specs.Message.{longest_head, longest_content};
ghost use Rattle.bosh_http.specs.Scanning.{NoHeadEnds, Scans};
ghost use Rattle.bosh_http.specs.declared.heads.Judged.TheVariants.{Begun};

use crate::scan::Scan;
use bosh_types::limits::LONGEST_HEAD;
use httparse::spans::HeaderSpan;
use std::alloc::AllocError;

// A whole head that is read.
#[derive(Clone, Copy, Debug)]
pub(crate) struct Head<S> {
    // How many bytes it has.
    pub(crate) start: usize,
    // How many bytes the content has.
    pub(crate) content: usize,
    // What else it says.
    pub(crate) said: S,
}

// What some bytes at the front of a stream tell.
#[derive(Clone, Copy, Debug)]
pub(crate) enum Judged<S, F> {
    Whole(Head<S>),
    // No message that is read begins so.
    Wrong(F),
    // The head isn't whole, and more bytes may make it so.
    Begun,
}

// A kind of messages.
pub(crate) trait Heads {
    // What a head says beside its content's length.
    type Said: Copy;

    // Why a message isn't read.
    type Fault: Copy;

    // These bytes begin with a head of so many bytes that is read, it says that so many bytes of content follow it, and this.
    ghost reads: { List ℕ → ℕ → ℕ → Self.Said → Type 0 };

    // No message that is read begins so, whatever follows.
    ghost denies: { List ℕ → Self.Fault → Type 0 };

    // No head is whole in these bytes, and they may begin one.
    ghost begins: { List ℕ → Type 0 };

    // No head is whole in these bytes.
    ghost lacks: { List ℕ → Type 0 };

    // A scan of the bytes to come.
    fn scan() -> Scan
        ensures scans { (bytes : List ℕ) → Scans result.seen result.place bytes }
        ensures none { result.seen ≡ 0 };

    // What is wrong with a head that isn't whole within the limit.
    fn too_long() -> Self::Fault
        ensures { (bytes : List ℕ) → longest_head ≤ length bytes → begins (take longest_head bytes) → denies bytes result };

    // What bytes within the limit tell. The spans are room for the fields of a head.
    fn judge(
        spans: &mut Vec<HeaderSpan>,
        front: &[u8],
    ) -> Result<Judged<Self::Said, Self::Fault>, AllocError>
        requires { length front.now ≤ longest_head }
        ensures { IfOk result (TellsOf reads denies begins front.now) };

    // What holds of these words, with no code.
    fn laws()
        ensures reads_more { (bytes more : List ℕ) (start content : ℕ) (said : Self.Said) → reads bytes start content said → reads (bytes ++ more) start content said }
        ensures denies_more { (bytes more : List ℕ) (fault : Self.Fault) → denies bytes fault → denies (bytes ++ more) fault }
        ensures is_short { (bytes : List ℕ) (start content : ℕ) (said : Self.Said) → reads bytes start content said → start + content ≤ longest_head + longest_content }
        ensures is_there { (bytes : List ℕ) (start content : ℕ) (said : Self.Said) → reads bytes start content said → start ≤ length bytes }
        ensures begun_lacks { (bytes : List ℕ) → begins bytes → lacks bytes }
        ensures lacks_before { (seen : ℕ) (bytes : List ℕ) → lacks bytes → lacks (take seen bytes) }
        ensures lacks_on { (seen : ℕ) (bytes : List ℕ) → lacks (take seen bytes) → NoHeadEnds seen (length bytes) bytes → lacks bytes }
        ensures empty_lacks { lacks [] };
}

// What the bytes that have come tell.
pub(crate) fn judge<H: Heads>(
    spans: &mut Vec<HeaderSpan>,
    bytes: &[u8],
) -> Result<Judged<H::Said, H::Fault>, AllocError>
    ensures tells { IfOk result (TellsOf H.reads H.denies H.begins bytes.now) }
    ensures begun { IfOk result (λ judged. judged ≡ Begun → length bytes.now < longest_head) }
{
    H::laws();
    if bytes.len() < LONGEST_HEAD {
        return H::judge(spans, bytes);
    }
    match H::judge(spans, bytes.split_at(LONGEST_HEAD).0)? {
        Judged::Begun => Ok(Judged::Wrong(H::too_long())),
        judged => Ok(judged),
    }
}
