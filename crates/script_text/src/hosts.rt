// The hosts of a script.
ghost use Rattle.std.specs.Prelude.{◌≡◌, ◌<◌, ◌++◌, ◌∷◌, [], length, slice_get, IfOk, IsTrue, Some, nat_lt, not, ◌&&◌};
ghost use Rattle.std.specs.List.{list_any};
ghost use Rattle.std.specs.Str.{bytes_eq};
ghost use Rattle.session_attrs.specs.Serving.{can_serve};
ghost use Rattle.script_text.specs.Hosts.{takes_name};

use bosh_types::{HostName, HostNames, Stanzas, Text};
use std::alloc::{AllocError, Global};
use std::marker::Model;

const MOST_HOSTS: usize = 16;

// Hosts by whose names and greetings sessions may be opened.
#[derive(Drop)]
pub(crate) struct Hosts {
    names: HostNames,
}

impl Model for Hosts {
    ghost use Rattle.std.specs.Prelude.{List};
    ghost use Rattle.bosh_types.specs.declared.hosts.HostName.{HostName};

    ghost Value = { List HostName };

    ghost use Rattle.std.specs.Prelude.{IsTrue};
    ghost use Rattle.std.specs.List.{list_all};
    ghost use Rattle.session_attrs.specs.Serving.{can_serve};

    ghost view = { λ h. h.names };

    ghost invariant = { λ h. IsTrue (list_all can_serve h.names) };
}

impl Hosts {
    pub(crate) fn new(alloc: Global) -> Hosts
        ensures { result ≡ [] }
    {
        Hosts {
            names: HostNames::from_vec(Vec::new(alloc)),
        }
    }

    pub(crate) fn names(&self) -> &HostNames
        ensures { result.now ≡ self.now }
    {
        &self.names
    }

    pub(crate) fn len(&self) -> usize
        ensures { result ≡ length self.now }
    {
        self.names.len()
    }

    // The host at this place, by whose name and greeting a session may be opened.
    pub(crate) fn at(&self, place: usize) -> &HostName
        requires { place < length self.now }
        ensures host { slice_get self.now place ≡ Some result.now }
        ensures good { IsTrue (can_serve result.now) }
    {
        &self.names.as_slice()[place]
    }

    // Whether one more of this name may come: it is new, and the sixteenth at most.
    pub(crate) fn takes(&self, name: &[u8]) -> bool
        ensures { result ≡ takes_name self.now name.now }
    {
        if self.names.len() >= MOST_HOSTS {
            return false;
        }
        !self.has(name)
    }

    fn has(&self, name: &[u8]) -> bool
        ensures { result ≡ list_any (λ host. bytes_eq host.name name.now) self.now }
    {
        self.names
            .as_slice()
            .iter()
            .any(|host| host.name.as_slice() == name)
    }

    // These hosts and one more.
    pub(crate) fn with(self, name: Text, greeting: Stanzas) -> Result<Hosts, AllocError>
        requires { IsTrue (can_serve (record { name = name; greeting = greeting })) }
        ensures { IfOk result (λ hosts. hosts ≡ self ++ record { name = name; greeting = greeting } ∷ []) }
    {
        let mut names = self.names.into_vec();
        names.push(HostName { name, greeting })?;
        Ok(Hosts {
            names: HostNames::from_vec(names),
        })
    }
}
