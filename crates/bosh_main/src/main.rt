// The program: it hands its words and the real streams to the top calls.
#![tactic(auto)]

mod keeping;
mod logging;
mod named;
mod serving;
mod streams;
mod tracing;
mod typed;

use crate::named::NamedDisk;
use crate::serving::serve_for_real;
use crate::typed::{ClosingBell, Shelf, Typed, read_to_shelf};
use bosh_commands::{
    NO_MEMORY, WRONG_WORDS, run_client_command, run_kept, run_local, status_without_words,
    wrong_words_text,
};
use bosh_ports::{Bell, ReadSource, RealBell, Sink, Source, WriteSink, give_all};
use client_run::Outside;
use server_ports::{RealClock, RealNames, TcpNetwork, ThreadSpawner, system_seed};
use std::alloc::{AllocError, Global};
use std::fs::File;
use std::io::Read;
use std::net::{Net, TcpListener, TcpStream};
use std::process::ExitCode;
use std::rt::{Clock, Files};
use std::sync::{Arc, Wait};
use std::thread::Threads;
use std::{env, io, thread};

fn main(rt: HostRuntime) -> ExitCode {
    let words = match words(&rt) {
        Ok(words) => words,
        Err(error) => return ExitCode::from(status_without_words(error.kind())),
    };
    let mut source = ReadSource::new(rt.reader());
    let mut sink = WriteSink::new(io::writer(&rt));
    let mut errors = WriteSink::new(rt.stderr());
    let status = if is_command(&words, "serve") {
        let log = WriteSink::new(rt.stderr());
        serve_for_real(
            &rt,
            rt.alloc(),
            &words,
            rt.stdin(),
            &mut sink,
            &mut errors,
            log,
        )
        .unwrap_or(NO_MEMORY)
    } else if is_command(&words, "client") {
        ask_for_real(&rt, rt.alloc(), &words, rt.stdin(), &mut sink, &mut errors).unwrap_or(
            NO_MEMORY,
        )
    } else if is_command(&words, "keep") {
        keep_for_real(&rt, rt.alloc(), &words, &mut source, &mut sink).unwrap_or(NO_MEMORY)
    } else {
        run_local(rt.alloc(), &words, &mut source, &mut sink)
    };
    if status == WRONG_WORDS {
        tell_wrong_words(rt.alloc(), &words, &mut errors);
    }
    ExitCode::from(status)
}

/// Says what is wrong with the words, where memory and the stream allow it.
fn tell_wrong_words<E: Sink>(alloc: Global, words: &[String], errors: &mut E) {
    if let Ok(text) = wrong_words_text(alloc, words) {
        let _ = give_all(errors, text.as_bytes());
    }
}

/// The program's words without its own name.
fn words(rt: &HostRuntime) -> io::Result<Vec<String>> {
    let mut words = Vec::new(rt.alloc());
    for word in env::args(rt)?.skip(1) {
        words.push(word)?;
    }
    Ok(words)
}

/// Whether the first word names this command.
fn is_command(words: &[String], name: &str) -> bool {
    match words {
        [first, ..] => first.as_str() == name,
        _ => false,
    }
}

/// Runs a script over the sessions of a file.
fn keep_for_real<R, S, K>(
    rt: &R,
    alloc: Global,
    words: &[String],
    source: &mut S,
    sink: &mut K,
) -> Result<u8, AllocError>
where
    R: Files<File = File> + Copy + Drop,
    S: Source,
    K: Sink,
{
    let name = match words {
        [_, name] => name.clone()?,
        _ => String::new(alloc),
    };
    let disk = NamedDisk::new(*rt, name);
    Ok(run_kept(alloc, words, source, sink, disk).status())
}

/// Runs a client over the real network, with the real clock, bell, threads and names. A thread of its own reads the input, and is left
/// behind where the client ends before that does.
fn ask_for_real<R, I, K, E>(
    rt: &R,
    alloc: Global,
    words: &[String],
    input: I,
    sink: &mut K,
    errors: &mut E,
) -> Result<u8, AllocError>
where
    R: Wait
        + Threads
        + Files
        + Clock
        + Net<Listener = TcpListener, Stream = TcpStream>
        + Copy
        + Send
        + Drop
        + 'static,
    I: Read + Send + Drop + 'static,
    K: Sink,
    E: Sink,
{
    let Ok(seed) = system_seed(rt) else {
        return Ok(NO_MEMORY);
    };
    let mut names = RealNames::new(alloc, seed);
    let shelf = Shelf::new(alloc)?;
    let bell = RealBell::new(alloc, *rt)?;
    read_apart(rt, input, Arc::try_clone(&shelf)?, bell.share()?)?;
    let mut source = Typed::new(*rt, Arc::try_clone(&shelf)?);
    let mut outside = Outside {
        net: TcpNetwork::new(*rt),
        clock: RealClock::new(*rt),
        bell: ClosingBell::new(*rt, bell, shelf),
        spawner: ThreadSpawner::new(alloc),
    };
    let status = run_client_command(
        rt,
        alloc,
        words,
        &mut source,
        sink,
        errors,
        &mut outside,
        &mut names,
    );
    let Outside {
        net: _net,
        clock: _clock,
        bell: _bell,
        spawner,
    } = outside;
    spawner.join_all(rt);
    Ok(status)
}

/// Starts the thread that reads the input.
fn read_apart<R, I>(
    rt: &R,
    input: I,
    shelf: Arc<Shelf>,
    bell: RealBell<R>,
) -> Result<(), AllocError>
where
    R: Wait + Threads + Clock + Copy + Send + Drop + 'static,
    I: Read + Send + Drop + 'static,
{
    let own = *rt;
    let mut input = input;
    let mut bell = bell;
    match thread::spawn(
        rt,
        move || read_to_shelf(&own, &mut input, &shelf, &mut bell),
    ) {
        Ok(reader) => {
            drop(reader);
            Ok(())
        }
        Err(_) => Err(AllocError),
    }
}
