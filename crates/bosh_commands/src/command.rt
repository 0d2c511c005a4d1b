// The commands over a source and a sink.
ghost use Rattle.std.specs.Prelude.{◌≡◌};
ghost use Rattle.bosh_commands.specs.Run.{command_of, load_command, script_command};

use crate::number::read_number;

/// A command over a source and a sink.
#[derive(Clone, Copy, Debug, PartialEq, Eq)]
pub enum LocalCommand {
    /// `drive`: a script of what reaches a manager.
    Drive,
    /// `pair`: a script of a client and a manager in one world.
    Pair,
    /// `audit`: a recorded trace of what two peers exchanged.
    Audit,
    /// `load`: the run of this number in such a world.
    Load(u64),
    /// `--help`: what the program does for which words.
    Help,
    /// `--version`.
    Version,
}

/// The command that the words are, which leave out the program's own name: `None` exactly where they are none.
pub fn command_of(words: &[String]) -> Option<LocalCommand>
    ensures { result ≡ command_of words.now }
{
    match words {
        [word] => script_command(word.as_bytes()),
        [word, number] => load_command(word.as_bytes(), number.as_bytes()),
        _ => None,
    }
}

#[tactic(auto, unfolding(crate::specs::Run::load_command))]
fn load_command(word: &[u8], number: &[u8]) -> Option<LocalCommand>
    ensures { result ≡ load_command word.now number.now }
{
    if word == b"load".as_slice() {
        return Some(LocalCommand::Load(read_number(number)?));
    }
    None
}

#[tactic(auto, unfolding(crate::specs::Run::script_command))]
fn script_command(word: &[u8]) -> Option<LocalCommand>
    ensures { result ≡ script_command word.now }
{
    if word == b"drive".as_slice() {
        return Some(LocalCommand::Drive);
    }
    if word == b"pair".as_slice() {
        return Some(LocalCommand::Pair);
    }
    if word == b"audit".as_slice() {
        return Some(LocalCommand::Audit);
    }
    if word == b"--help".as_slice() {
        return Some(LocalCommand::Help);
    }
    if word == b"--version".as_slice() {
        return Some(LocalCommand::Version);
    }
    None
}
