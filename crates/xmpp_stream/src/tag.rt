// Where a tag ends.
ghost use Rattle.std.specs.Prelude.{◌≡◌, ◌≤◌, ◌<◌, None, Some, IfSome, length};
ghost use Rattle.body_cutter.specs.Chars.{is_space};
ghost use Rattle.body_cutter.specs.Grammar.{is_quote};
ghost use Rattle.body_cutter.specs.Viable.{ends_name};
ghost use Rattle.xmpp_stream.specs.Tag.{ends_tag, quote_after, tag_end};

#[tactic(auto, unfolding(body_cutter::specs::Chars::is_space))]
pub(crate) fn is_space(b: u8) -> bool
    ensures { result ≡ is_space b }
{
    b == b' ' || b == b'\t' || b == b'\n' || b == b'\r'
}

// Whether a byte ends the name of a start tag.
pub(crate) fn ends_name(b: u8) -> bool
    ensures { result ≡ ends_name b }
{
    is_space(b) || b == b'/' || b == b'>'
}

fn is_quote(b: u8) -> bool
    ensures { result ≡ is_quote b }
{
    b == b'\'' || b == b'"'
}

// The quote of the value that is open after a byte.
pub(crate) fn quote_after(quote: Option<u8>, b: u8) -> Option<u8>
    ensures { result ≡ quote_after quote b }
{
    match quote {
        None => {
            if is_quote(b) {
                return Some(b);
            }
            None
        }
        Some(open) => {
            if b == open {
                return None;
            }
            Some(open)
        }
    }
}

// Whether a byte is a `>` outside of all values.
pub(crate) fn ends_tag(quote: Option<u8>, b: u8) -> bool
    ensures { result ≡ ends_tag quote b }
{
    match quote {
        None => b == b'>',
        Some(_) => false,
    }
}

// How many bytes the tag has with which the text begins, where its end is there.
#[tactic(auto, unfolding(crate::specs::Tag::tag_end))]
pub(crate) fn tag_end(text: &[u8]) -> Option<usize>
    ensures end { result ≡ tag_end 0 None text.now }
    ensures within { IfSome result (λ count. count ≤ length text.now) }
    ensures some { IfSome result (λ count. 0 < count) }
{
    let mut quote = None;
    for (at, b) in text.iter().enumerate() {
        if ends_tag(quote, *b) {
            return Some(at + 1);
        }
        quote = quote_after(quote, *b);
    }
    None
}
