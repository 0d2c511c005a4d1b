// Names of sessions that begin with the name of their server.
ghost use Rattle.std.specs.Prelude.{◌≡◌, ◌≤◌, ◌-◌, ◌∷◌, ◌++◌, IfOk, IfSome, length};
ghost use Rattle.server_ports.specs.Names.{IsNamePart, greatest_first};
ghost use Rattle.server_name.specs.Names.{BeginsWith, last_of};

use crate::name::ServerName;
use bosh_types::{Rid, Text};
use http_server::Log;
use server_ports::Names;
use std::alloc::{AllocError, Global};

/// How many bytes of what is drawn stand behind the name of a server and `-`, where that name has no bytes.
const LEFT: usize = 31;

/// A maker of names. Where the server has a name, what is drawn has that and `-` before it; where it has none, nothing changes. Ids are drawn
/// as ever.
#[derive(Drop)]
pub struct NamedNames<M: Names + Drop> {
    alloc: Global,
    names: M,
    name: Option<ServerName>,
    drawn: Log<Text, ()>,
}

impl<M: Names + Drop> NamedNames<M> {
    ghost use Rattle.std.specs.Prelude.{[]};
    ghost use Rattle.server_ports.specs.Names.{drawn_in};

    pub fn new(alloc: Global, names: M, name: Option<ServerName>) -> NamedNames<M>
        ensures names { result.names ≡ names }
        ensures name { result.name ≡ name }
        ensures drawn { drawn_in result.drawn.items ≡ [] }
    {
        NamedNames {
            alloc,
            names,
            name,
            drawn: Log::new(),
        }
    }

    // What is drawn next. The only error is want of memory.
    fn draw(&mut self) -> Result<Text, AllocError>
        ensures part { IfOk result IsNamePart }
        ensures begins { IfOk result (λ made. IfSome self.old.name (λ name. BeginsWith name made)) }
        ensures name { self.new.name ≡ self.old.name }
        ensures drawn { self.new.drawn ≡ self.old.drawn }
    {
        let drawn = self.names.name()?;
        match &self.name {
            Some(name) => joined(self.alloc, name.as_slice(), drawn.as_slice()),
            None => Ok(drawn),
        }
    }
}

// The same once more.
fn again(name: &Option<ServerName>) -> Option<ServerName>
    ensures { result ≡ name.now }
{
    match name {
        Some(name) => Some(name.again()),
        None => None,
    }
}

// The last bytes of a text, at most so many.
fn last_of(text: &[u8], most: usize) -> &[u8]
    ensures { result.now ≡ last_of most text.now }
{
    if text.len() <= most {
        return text;
    }
    &text[text.len() - most..]
}

// The name of a server, `-`, and what was drawn. The only error is want of memory.
fn joined(alloc: Global, name: &[u8], drawn: &[u8]) -> Result<Text, AllocError>
    requires { length name.now ≤ 14 }
    ensures { IfOk result (λ made. made ≡ name.now ++ 45 ∷ last_of (31 - length name.now) drawn.now) }
{
    let mut made = Vec::from_slice(alloc, name)?;
    made.push(b'-')?;
    made.extend_from_slice(last_of(drawn, LEFT - name.len()))?;
    Ok(Text::from_vec(made))
}

impl<M: Names + Drop> Names for NamedNames<M> {
    ghost use Rattle.std.specs.Prelude.{[]};
    ghost use Rattle.server_ports.specs.Names.{Draws, drawn_in};

    ghost drawn = { λ n. drawn_in n.drawn.items };

    fn name(&mut self) -> Result<Text, AllocError>
        ensures part { IfOk result IsNamePart }
        ensures begins { IfOk result (λ made. IfSome self.old.name (λ name. BeginsWith name made)) }
        ensures drawn { Draws (drawn_in self.old.drawn.items) (drawn_in self.new.drawn.items) result }
    {
        let made = self.draw()?;
        self.drawn = self.drawn.and(&made, &());
        Ok(made)
    }

    fn first_rid(&mut self) -> Rid {
        self.names.first_rid()
    }

    fn share(&mut self) -> NamedNames<M>
        ensures fresh { drawn_in result.drawn.items ≡ [] }
        ensures drawn { drawn_in self.new.drawn.items ≡ drawn_in self.old.drawn.items }
        ensures name { result.name ≡ self.old.name }
    {
        let names = self.names.share();
        NamedNames::new(self.alloc, names, again(&self.name))
    }
}
