ghost use Rattle.std.specs.Prelude.{◌≡◌, length};
ghost use Rattle.hex.specs.Hex.{encode_lower};
ghost use Rattle.key_sequence.specs.Chain.{hex_digest};

use bosh_types::Key;
use sha1::Sha1;

/// The SHA-1 digest of a text, in lower-case hexadecimal.
#[tactic(auto, unfolding(crate::specs::Chain::hex_digest))]
pub fn digest_of(text: &[u8]) -> Key
    ensures { result ≡ hex_digest text.now }
{
    let digest = Sha1::digest(text);
    in_hexadecimal(&digest)
}

// Twenty bytes as a key.
fn in_hexadecimal(bytes: &[u8]) -> Key
    requires { length bytes.now ≡ 20 }
    ensures { result ≡ encode_lower bytes.now }
{
    let mut digits = [0u8; 40];
    let _ = hex::encode_to_slice(bytes, &mut digits);
    Key::new(digits)
}
