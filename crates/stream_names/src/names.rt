ghost use Rattle.std.specs.Prelude.{◌≡◌, ◌<◌, ℕ, IfSome, IfNone};
ghost use Rattle.bosh_types.specs.Limits.{most_streams};
ghost use Rattle.stream_names.specs.Streams.{name_of};

use bosh_types::StreamNo;

/// The name of a stream: `t` and the digit of its number.
pub fn name_of(stream: StreamNo) -> [u8; 2]
    ensures { result ≡ name_of stream }
{
    [b't', b'0' + stream.number() as u8]
}

/// The number that a name gives: `None` exactly where it is no stream's name.
pub fn number_of(name: &[u8]) -> Option<StreamNo>
    ensures number { IfSome result (λ stream. name.now ≡ name_of stream) }
    ensures small { IfSome result (λ stream. stream < most_streams) }
    ensures refused { IfNone result ((stream : ℕ) → stream < most_streams → name.now ≡ name_of stream → ⊥) }
{
    match name {
        [b't', digit] => StreamNo::new(u16::from(digit.checked_sub(b'0')?)),
        _ => None,
    }
}
