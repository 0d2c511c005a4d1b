// Numbers in a script of two ends.
ghost use Rattle.std.specs.Prelude.{◌≡◌};
ghost use Rattle.pair_text.specs.Numbers.{number_of};

use bosh_types::Rid;

// A number in plain decimal.
#[tactic(auto, unfolding(crate::specs::Numbers::number_of))]
pub(crate) fn read_number(text: &[u8]) -> Option<u64>
    ensures { result ≡ number_of text.now }
{
    if text == b"0".as_slice() {
        return Some(0);
    }
    Some(Rid::read(text)?.value())
}
