// The words of a value.
ghost use Rattle.std.specs.Prelude.{◌≡◌, ◌<◌, ◌==◌, length, reverse, position, IfSome};
ghost use Rattle.std.specs.Str.{str_eq_ignore_ascii_case};
ghost use Rattle.httparse.specs.Ascii.{comma};
ghost use Rattle.httparse.specs.Grammar.{skip_ows, trim_ows};
ghost use Rattle.bosh_http.specs.Fields.{has_word};

use httparse::is_space_or_tab;

// Whether these are the same without ASCII case.
pub(crate) fn is_same_word(word: &[u8], bytes: &[u8]) -> bool
    ensures { result ≡ str_eq_ignore_ascii_case word.now bytes.now }
{
    word.eq_ignore_ascii_case(bytes)
}

fn trim_start(bytes: &[u8]) -> &[u8]
    ensures { result.now ≡ skip_ows bytes.now }
{
    let mut left = bytes;
    while let [first, others @ ..] = left {
        if !is_space_or_tab(*first) {
            return left;
        }
        left = others;
    }
    left
}

fn trim_end(bytes: &[u8]) -> &[u8]
    ensures { result.now ≡ reverse (skip_ows (reverse bytes.now)) }
{
    let mut left = bytes;
    while let [others @ .., last] = left {
        if !is_space_or_tab(*last) {
            return left;
        }
        left = others;
    }
    left
}

// The bytes without the optional white space at both ends.
#[tactic(auto, unfolding(httparse::specs::Grammar::trim_ows))]
fn trim(bytes: &[u8]) -> &[u8]
    ensures { result.now ≡ trim_ows bytes.now }
{
    trim_end(trim_start(bytes))
}

// Where the first comma is.
fn first_comma(bytes: &[u8]) -> Option<usize>
    ensures at { result ≡ position (λ byte. byte == comma) bytes.now }
    ensures within { IfSome result (λ i. i < length bytes.now) }
{
    bytes.iter().position(|byte| *byte == b',')
}

// Whether a list has this word.
pub(crate) fn has_word(word: &[u8], list: &[u8]) -> bool
    ensures { result ≡ has_word word.now list.now }
{
    let mut left = list;
    while let Some(end) = first_comma(left) {
        let (part, others) = left.split_at(end);
        if is_same_word(word, trim(part)) {
            return true;
        }
        left = others.split_at(1).1;
    }
    is_same_word(word, trim(left))
}
