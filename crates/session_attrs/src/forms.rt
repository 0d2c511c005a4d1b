ghost use Rattle.std.specs.Prelude.{◌≡◌, ◌==◌, position};
ghost use Rattle.session_attrs.specs.Forms.{is_httpbind, number_of, pause_of, version_of, wish_of, ack_of, terminate_of, flag_of};

use bosh_types::Rid;

/// The most digits of a number.
const MOST_DIGITS: usize = 9;

/// Whether the text is the namespace of the body.
#[tactic(auto, unfolding(crate::specs::Forms::is_httpbind))]
pub fn is_httpbind(text: &[u8]) -> bool
    ensures { result ≡ is_httpbind text.now }
{
    text == b"http://jabber.org/protocol/httpbind".as_slice()
}

/// A number of 1 to 9 digits.
pub fn number_of(text: &[u8]) -> Option<u32>
    ensures { result ≡ number_of text.now }
{
    if text.is_empty() {
        return None;
    }
    if text.len() > MOST_DIGITS {
        return None;
    }
    let mut value = 0u32;
    for digit in text {
        if !digit.is_ascii_digit() {
            return None;
        }
        value = value * 10 + u32::from(*digit - b'0');
    }
    Some(value)
}

/// A number that isn't 0.
#[tactic(auto, unfolding(crate::specs::Forms::pause_of))]
pub(crate) fn pause_of(text: &[u8]) -> Option<u32>
    ensures { result ≡ pause_of text.now }
{
    let seconds = number_of(text)?;
    if seconds == 0 {
        return None;
    }
    Some(seconds)
}

/// Two numbers with a full stop between them.
#[tactic(auto, unfolding(crate::specs::Forms::version_of))]
pub(crate) fn version_of(text: &[u8]) -> Option<(u32, u32)>
    ensures { result ≡ version_of text.now }
{
    let stop = first_stop(text)?;
    let major = number_of(&text[..stop])?;
    let minor = number_of(&text[stop + 1..])?;
    Some((major, minor))
}

// Where the first full stop is.
fn first_stop(text: &[u8]) -> Option<usize>
    ensures { result ≡ position (λ byte. byte == 46) text.now }
{
    text.iter().position(|byte| *byte == b'.')
}

/// The wish for acknowledgements, which only `1` says.
#[tactic(auto, unfolding(crate::specs::Forms::wish_of))]
pub(crate) fn wish_of(text: &[u8]) -> Option<bool>
    ensures { result ≡ wish_of text.now }
{
    if text == b"1".as_slice() {
        return Some(true);
    }
    None
}

/// A request id lower than this one.
#[tactic(auto, unfolding(crate::specs::Forms::ack_of))]
pub(crate) fn ack_of(rid: Rid, text: &[u8]) -> Option<Rid>
    ensures { result ≡ ack_of rid text.now }
{
    let ack = Rid::read(text)?;
    if ack.value() < rid.value() {
        return Some(ack);
    }
    None
}

/// The end of a session, which only `terminate` says.
#[tactic(auto, unfolding(crate::specs::Forms::terminate_of))]
pub fn terminate_of(text: &[u8]) -> Option<bool>
    ensures { result ≡ terminate_of text.now }
{
    if text == b"terminate".as_slice() {
        return Some(true);
    }
    None
}

/// A boolean in its four forms.
#[tactic(auto, unfolding(crate::specs::Forms::flag_of))]
pub(crate) fn flag_of(text: &[u8]) -> Option<bool>
    ensures { result ≡ flag_of text.now }
{
    if text == b"true".as_slice() || text == b"1".as_slice() {
        return Some(true);
    }
    if text == b"false".as_slice() || text == b"0".as_slice() {
        return Some(false);
    }
    None
}
