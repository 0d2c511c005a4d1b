// Names that can't be foreseen.
ghost use Rattle.std.specs.Prelude.{◌≡◌, ◌<◌, ◌≤◌, IfOk, true, false};
ghost use Rattle.rand_chacha.specs.ChaCha.{of_seed};
ghost use Rattle.server_ports.specs.Names.{IsNamePart, is_name_byte};

use crate::names::Names;
use bosh_types::{Rid, Text};
use http_server::Log;
use rand_chacha::ChaCha20Rng;
use rand_core::utils::NextWord;
use rand_core::{Rng, SeedableRng};
use std::alloc::{AllocError, Global};
use std::fs::File;
use std::io;
use std::io::Read;
use std::rt::Files;

/// The system's device of random bytes.
const DEVICE: &str = "/dev/urandom";

/// Names of 16 hexadecimal digits and `-`, and ids from 1 to 4294967296, drawn by ChaCha20 from a seed. A share draws from a
/// seed that it was given by the one that shared it.
#[derive(Drop)]
pub struct RealNames {
    alloc: Global,
    rng: ChaCha20Rng,
    drawn: Log<Text, ()>,
}

impl RealNames {
    ghost use Rattle.std.specs.Prelude.{[]};
    ghost use Rattle.server_ports.specs.Names.{drawn_in};

    pub fn new(alloc: Global, seed: [u8; 32]) -> RealNames
        ensures seed { result.rng ≡ of_seed seed }
        ensures drawn { drawn_in result.drawn.items ≡ [] }
    {
        RealNames {
            alloc,
            rng: ChaCha20Rng::from_seed(seed),
            drawn: Log::new(),
        }
    }
}

/// A seed that the operating system gives.
pub fn system_seed<R: Files>(rt: &R) -> io::Result<[u8; 32]> {
    let mut seed = [0u8; 32];
    File::open(rt, DEVICE)?.read_exact(&mut seed)?;
    Ok(seed)
}

// The lowest four bits, as a hexadecimal digit.
fn hex_digit(bits: u64) -> u8
    ensures { is_name_byte result ≡ true }
{
    b"0123456789abcdef"[(bits & 15) as usize]
}

// A name whose digits are these bits.
#[tactic(auto, using(crate::proofs::NameLemmas::named, crate::proofs::NameLemmas::allowed_more))]
fn written(alloc: Global, bits: u64) -> Result<Vec<u8>, AllocError>
    ensures { IfOk result (λ bytes. IsNamePart bytes.items) }
{
    let mut bytes = Vec::with_capacity(alloc, 17)?;
    for place in 0..16u32 {
        bytes.push(hex_digit(bits >> (4 * place)))?;
    }
    bytes.push(b'-')?;
    Ok(bytes)
}

impl Names for RealNames {
    ghost use Rattle.server_ports.specs.Names.{drawn_in};

    ghost drawn = { λ n. drawn_in n.drawn.items };

    fn name(&mut self) -> Result<Text, AllocError> {
        let bits = self.rng.next_u64();
        let name = Text::from_vec(written(self.alloc, bits)?);
        self.drawn = self.drawn.and(&name, &());
        Ok(name)
    }

    fn first_rid(&mut self) -> Rid {
        match Rid::new(u64::from(self.rng.next_word()) + 1) {
            Some(rid) => rid,
            None => unreachable!(),
        }
    }

    fn share(&mut self) -> RealNames {
        let mut seed = [0u8; 32];
        self.rng.fill_bytes(&mut seed);
        RealNames::new(self.alloc, seed)
    }
}
