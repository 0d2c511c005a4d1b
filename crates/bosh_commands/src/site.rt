// Which hosts a server has.
ghost use Rattle.std.specs.Prelude.{◌≡◌, ◌≤◌, IfOk, IfSome, map, option_map};
ghost use Rattle.std.specs.List.{list_all};
ghost use Rattle.std.specs.Str.{bytes_eq};
ghost use Rattle.bosh_commands.specs.Site.{are_different, are_domains, is_among, is_domain, is_test_host, named_site, site_of, usual_site};

use bosh_types::{Row, Text};
use session_attrs::is_host_name;
use std::alloc::{AllocError, Global};

/// Which hosts a server has.
#[derive(Debug, Drop)]
pub struct Site {
    /// The domains whose XMPP server listens at `port` of 127.0.0.1.
    pub domains: Row<Text>,
    pub port: u16,
    /// Whether there are an echo at echo.localhost and a room at room.localhost too.
    pub has_test_hosts: bool,
}

/// How many domains may be named.
const MOST_DOMAINS: usize = 8;

/// The site that these options name, where it can be served: xmpp.localhost and the test hosts where no domain is named, and else the
/// named ones, with the test hosts where these are wanted. The only error is want of memory.
pub(crate) fn site_of(
    alloc: Global,
    has_test_hosts: bool,
    port: Option<u32>,
    names: Option<&[&str]>,
) -> Result<Option<Site>, AllocError>
    requires { IfSome port (λ port. port ≤ 65535) }
    ensures { IfOk result (λ site. site ≡ site_of has_test_hosts port (option_map (λ s. map (λ v. v.now) s.now) names.entry)) }
{
    let Some(port) = port else {
        return Ok(None);
    };
    match names {
        Some(names) => named_site(alloc, has_test_hosts, port as u16, names),
        None => {
            let site = usual_site(alloc, port as u16)?;
            Ok(Some(site))
        }
    }
}

// Where no domain is named.
fn usual_site(alloc: Global, port: u16) -> Result<Site, AllocError>
    ensures { IfOk result (λ site. site ≡ usual_site port) }
{
    let domain = Text::from_vec(Vec::from_slice(alloc, b"xmpp.localhost")?);
    Ok(Site {
        domains: Row::from_vec(vec![in alloc; domain]?),
        port,
        has_test_hosts: true,
    })
}

// Where these are named.
fn named_site(
    alloc: Global,
    has_test_hosts: bool,
    port: u16,
    names: &[&str],
) -> Result<Option<Site>, AllocError>
    ensures { IfOk result (λ site. site ≡ named_site has_test_hosts port (map (λ v. v.now) names.now)) }
{
    if !are_domains(names) {
        return Ok(None);
    }
    let domains = copied(alloc, names)?;
    Ok(Some(Site {
        domains: Row::from_vec(domains),
        port,
        has_test_hosts,
    }))
}

fn copied(alloc: Global, names: &[&str]) -> Result<Vec<Text>, AllocError>
    ensures { IfOk result (λ copies. copies.items ≡ map (λ v. v.now) names.now) }
{
    let mut copies = Vec::new(alloc);
    let mut left = names;
    while let [name, others @ ..] = left {
        copies.push(copy(alloc, name.as_bytes())?)?;
        left = others;
    }
    Ok(copies)
}

fn copy(alloc: Global, name: &[u8]) -> Result<Text, AllocError>
    ensures { IfOk result (λ copy. copy ≡ name.now) }
{
    Ok(Text::from_vec(Vec::from_slice(alloc, name)?))
}

// Whether these may be the domains of a server.
fn are_domains(names: &[&str]) -> bool
    ensures { result ≡ are_domains (map (λ v. v.now) names.now) }
{
    names.len() <= MOST_DOMAINS && are_different(names) && can_all_be_domains(names)
}

fn can_all_be_domains(names: &[&str]) -> bool
    ensures { result ≡ list_all is_domain (map (λ v. v.now) names.now) }
{
    let mut left = names;
    while let [name, others @ ..] = left {
        if !is_domain(name.as_bytes()) {
            return false;
        }
        left = others;
    }
    true
}

// Whether this is a host's name, and that of no test host.
fn is_domain(name: &[u8]) -> bool
    ensures { result ≡ is_domain name.now }
{
    if is_test_host(name) {
        return false;
    }
    is_host_name(name)
}

#[tactic(auto, unfolding(crate::specs::Site::is_test_host))]
fn is_test_host(name: &[u8]) -> bool
    ensures { result ≡ is_test_host name.now }
{
    if name == b"echo.localhost".as_slice() {
        return true;
    }
    name == b"room.localhost".as_slice()
}

// Whether each of these stands once.
#[tactic(auto, unfolding(crate::specs::Site::are_different))]
fn are_different(names: &[&str]) -> bool
    ensures { result ≡ are_different (map (λ v. v.now) names.now) }
{
    let mut left = names;
    while let [name, others @ ..] = left {
        if is_among(name.as_bytes(), others) {
            return false;
        }
        left = others;
    }
    true
}

fn is_among(name: &[u8], names: &[&str]) -> bool
    ensures { result ≡ is_among name.now (map (λ v. v.now) names.now) }
{
    let mut left = names;
    while let [other, others @ ..] = left {
        if is_same(other.as_bytes(), name) {
            return true;
        }
        left = others;
    }
    false
}

fn is_same(name: &[u8], other: &[u8]) -> bool
    ensures { result ≡ bytes_eq name.now other.now }
{
    name == other
}
