// Whether some bytes end inside a request's target, which is judged only once it has ended.
ghost use Rattle.std.specs.Prelude.{◌≡◌};
ghost use Rattle.std.specs.List.{list_all};
ghost use Rattle.httparse.specs.Grammar.{is_uri_byte};
ghost use Rattle.bosh_http.specs.Target.{after_blank, after_token, begins_token, is_begun_target, ends_in_target};

use httparse::{is_method_token, is_uri_token};

// The bytes after the empty lines at the front.
fn after_blank(bytes: &[u8]) -> &[u8]
    ensures { result.now ≡ after_blank bytes.now }
{
    let mut left = bytes;
    while !left.is_empty() {
        match left {
            [b'\n', others @ ..] => left = others,
            [b'\r', b'\n', others @ ..] => left = others,
            _ => return left,
        }
    }
    left
}

// The bytes from the first that belongs to no token.
fn after_token(bytes: &[u8]) -> &[u8]
    ensures { result.now ≡ after_token bytes.now }
{
    let mut left = bytes;
    while let [first, others @ ..] = left {
        if !is_method_token(*first) {
            return left;
        }
        left = others;
    }
    left
}

fn begins_token(bytes: &[u8]) -> bool
    ensures { result ≡ begins_token bytes.now }
{
    match bytes {
        [first, ..] => is_method_token(*first),
        [] => false,
    }
}

// Whether each byte may stand in a target.
fn are_target_bytes(bytes: &[u8]) -> bool
    ensures { result ≡ list_all is_uri_byte bytes.now }
{
    bytes.iter().all(|byte| is_uri_token(*byte))
}

// Whether these are a space and then bytes of a target alone.
fn is_begun_target(bytes: &[u8]) -> bool
    ensures { result ≡ is_begun_target bytes.now }
{
    match bytes {
        [first, others @ ..] => {
            if *first != b' ' {
                return false;
            }
            are_target_bytes(others)
        }
        [] => false,
    }
}

// Whether the bytes end inside a request's target.
pub(crate) fn ends_in_target(bytes: &[u8]) -> bool
    ensures { result ≡ ends_in_target bytes.now }
{
    let line = after_blank(bytes);
    if !begins_token(line) {
        return false;
    }
    is_begun_target(after_token(line))
}
