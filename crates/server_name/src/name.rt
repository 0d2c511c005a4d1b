// What a server may be called.
ghost use Rattle.std.specs.Prelude.{◌≡◌, true};
ghost use Rattle.std.specs.List.{list_all};
ghost use Rattle.server_ports.specs.Names.{is_name_byte};
ghost use Rattle.server_name.specs.Names.{begins_as_name, is_server_name, name_read};

use std::marker::Model;

/// How many bytes a name has at most: with `-` and the 17 bytes that are drawn for a session it has 32.
const LONGEST: usize = 14;

/// The name of a server: 1 to 14 ASCII letters, digits and `-`, of which the first is a letter.
#[derive(Debug, Drop)]
pub struct ServerName {
    bytes: [u8; LONGEST],
    count: usize,
}

impl Model for ServerName {
    ghost use Rattle.std.specs.Prelude.{ℕ, List, take, ◌≡◌, true};
    ghost use Rattle.server_name.specs.Names.{Fits};

    ghost Value = { List ℕ };

    ghost view = { λ n. take n.count n.bytes };

    ghost invariant = { λ n. Fits n.count n.bytes };
}

impl ServerName {
    /// The name that this text is; None exactly where it is none. It takes no memory.
    pub fn read(text: &[u8]) -> Option<ServerName>
        ensures { result ≡ name_read text.now }
    {
        if !is_server_name(text) {
            return None;
        }
        let mut bytes = [0u8; LONGEST];
        bytes[..text.len()].copy_from_slice(text);
        Some(ServerName {
            bytes,
            count: text.len(),
        })
    }

    /// The same name once more. It takes no memory.
    pub fn again(&self) -> ServerName
        ensures { result ≡ self.now }
    {
        ServerName {
            bytes: self.bytes,
            count: self.count,
        }
    }

    /// Its bytes.
    pub fn as_slice(&self) -> &[u8]
        ensures bytes { result.now ≡ self.now }
        ensures fits { is_server_name result.now ≡ true }
    {
        &self.bytes[..self.count]
    }
}

// Whether this may be a server's name.
fn is_server_name(text: &[u8]) -> bool
    ensures { result ≡ is_server_name text.now }
{
    if text.len() > LONGEST {
        return false;
    }
    begins_as_name(text)
}

// Whether it is a letter, and then letters, digits and `-`.
fn begins_as_name(text: &[u8]) -> bool
    ensures { result ≡ begins_as_name text.now }
{
    match text {
        [first, others @ ..] => {
            if !first.is_ascii_alphabetic() {
                return false;
            }
            are_name_bytes(others)
        }
        [] => false,
    }
}

// Whether each of these is a letter, a digit or `-`.
fn are_name_bytes(text: &[u8]) -> bool
    ensures { result ≡ list_all is_name_byte text.now }
{
    let mut left = text;
    while let [byte, others @ ..] = left {
        if !is_name_byte(*byte) {
            return false;
        }
        left = others;
    }
    true
}

fn is_name_byte(byte: u8) -> bool
    ensures { result ≡ is_name_byte byte }
{
    if byte == b'-' {
        return true;
    }
    byte.is_ascii_alphanumeric()
}
