// The gate with the object `Counter`, at work in threads.
ghost use Rattle.std.specs.Prelude.{◌≡◌, ◌+◌, ◌<◌, ◌≤◌, ◌^◌, [], sum_by};
ghost use Rattle.std.specs.Thread.{IsSync};
ghost use Rattle.parked_gate.specs.Passes.{IsPassOf};

use bosh_ports::{ListedBell, SteadyBell};
use parked_gate::{Gate, Object, Pass, Refused, Waited};
use std::alloc::Global;
use std::process::Abort;
use std::sync::Wait;
use std::test::Fail;
use std::thread;
use std::thread::{Threads, join};

/// Numbers that were added, each with its caller.
#[derive(Drop)]
struct Counter {
    entries: Vec<(u32, u64)>,
    sum: u64,
    ghost total: { sum ≡ sum_by (λ e. e.1) entries.items },
    ghost small: { sum < 2 ^ 64 },
}

impl Counter {
    fn new(alloc: Global) -> Counter
        ensures { result.entries.items ≡ [] }
    {
        Counter {
            entries: Vec::new(alloc),
            sum: 0,
        }
    }
}

/// A call adds a number and replies the sum, or nothing where there is no room for it.
impl Object for Counter {
    ghost use Rattle.std.specs.Prelude.{◌≡◌, ◌+◌, ◌<◌, ◌≤◌, ◌^◌, List, sum_by, MatchOption, IsSomeAnd, None, count_by, ◌==◌};

    type Call = u64;

    type Reply = Option<u64>;

    type Ask = u64;

    type Found = u64;

    type Question = u32;

    type Answer = usize;

    type Entry = (u32, u64);

    ghost history = { λ counter. counter.entries.items };

    ghost caller_of = { λ e. e.0 };

    ghost is_legal = { λ log. sum_by (λ e. e.1) log < 2 ^ 64 };

    ghost may = { λ _. Unit {0} };

    ghost replies = { λ log number reply made. MatchOption reply (made ≡ None)
        (λ sum. (sum ≡ sum_by (λ e. e.1) log + number) × IsSomeAnd made (λ e. e.1 ≡ number)) };

    ghost lacks = { λ log number. sum_by (λ e. e.1) log < number };

    ghost finds = { λ log number sum made. (made ≡ None) × (sum ≡ sum_by (λ e. e.1) log) × (number ≤ sum) };

    ghost answers = { λ log caller count. count ≡ count_by (λ e. e.0 == caller) log };

    fn step(&mut self, caller: u32, number: u64) -> Option<u64> {
        let sum = self.sum.checked_add(number)?;
        if self.entries.push((caller, number)).is_err() {
            return None;
        }
        self.sum = sum;
        Some(sum)
    }

    fn poll(&mut self, caller: u32, number: u64) -> Option<u64> {
        if self.sum < number {
            None
        } else {
            Some(self.sum)
        }
    }

    fn look(&self, caller: &u32) -> usize {
        self.entries.iter().filter(|e| e.0 == *caller).count()
    }

    fn count(&self) -> u64 {
        self.entries.len() as u64
    }
}

#[test]
fn two_passes_add_and_are_joined(rt: HostRuntime) -> Result<(), Fail> {
    let (gate, mut first) = Gate::new(rt.alloc(), Counter::new(rt.alloc()))
        .ok()
        .ok_or("memory")?;
    let mut second = gate.split(&rt, &mut first);
    let third = gate.try_split(&mut second).ok_or("no number")?;
    assert_eq!(rt; gate.call(&rt, &mut first, 2), Some(2));
    assert_eq!(rt; gate.call(&rt, &mut second, 3), Some(5));
    assert_eq!(rt;
        (first.number(), second.number(), third.number()),
        (0, 1, 2)
    );
    assert_eq!(rt;
        (
            gate.poll(&rt, &mut second, 5),
            gate.poll(&rt, &mut first, 6)
        ),
        (Some(5), None)
    );
    assert_eq!(rt;
        (first.length(), second.length(), third.length()),
        (2, 2, 0)
    );
    assert_eq!(rt; gate.look(&rt, &mut second, &0), 1);
    assert_eq!(rt; gate.look(&rt, &mut second, &1), 1);
    gate.join(&mut first, second);
    assert_eq!(rt; first.length(), 2);
    Ok(())
}

/// Each of the threads makes so many calls with a pass of its own, and the passes are joined.
#[cycle(adding)]
fn add_in_threads<R: Threads + Wait + Sync>(
    rt: &R,
    gate: &Gate<Counter>,
    mut pass: Pass<Counter>,
    threads: u32,
    calls: u32,
) -> Pass<Counter>
    requires { IsPassOf gate.now pass }
    ensures { IsPassOf gate.now result }
{
    if threads <= 1 {
        for _ in 0..calls {
            gate.call(rt, &mut pass, 1);
        }
        return pass;
    }
    let other = gate.split(rt, &mut pass);
    let half = threads / 2;
    let rest = threads - half;
    let (mut pass, other) = join(
        rt,
        || -> Pass<Counter>
            requires { IsSync R.row × IsPassOf gate.now pass }
            ensures { IsPassOf gate.entry.now result }
        { add_in_threads(rt, gate, pass, half, calls) },
        || -> Pass<Counter>
            requires { IsSync R.row × IsPassOf gate.now other }
            ensures { IsPassOf gate.entry.now result }
        { add_in_threads(rt, gate, other, rest, calls) },
    );
    gate.join(&mut pass, other);
    pass
}

#[test]
fn each_call_of_many_threads_is_there_once(rt: HostRuntime) -> Result<(), Fail> {
    for (threads, calls) in [(2, 1), (8, 1000)] {
        let (gate, pass) = Gate::new(rt.alloc(), Counter::new(rt.alloc()))
            .ok()
            .ok_or("memory")?;
        let mut all = add_in_threads(&rt, &gate, pass, threads, calls);
        assert_eq!(rt; all.length(), u64::from(threads) * u64::from(calls));
        for caller in 0..threads {
            assert_eq!(rt; gate.look(&rt, &mut all, &caller), calls as usize);
        }
    }
    Ok(())
}

#[test]
fn a_wait_ends_where_the_bell_is_silent(rt: HostRuntime) -> Result<(), Fail> {
    let (gate, mut pass) = Gate::new(rt.alloc(), Counter::new(rt.alloc()))
        .ok()
        .ok_or("memory")?;
    let mut bell = ListedBell::new(rt.alloc(), vec![in rt.alloc(); 2]?);
    gate.call(&rt, &mut pass, 5);
    assert!(rt; matches!(gate.wait_for(&rt, &mut pass, 6, &mut bell), Waited::Silent));
    assert_eq!(rt; bell.silences(), 1);
    gate.call(&rt, &mut pass, 2);
    assert!(rt;
        matches!(
            gate.wait_for(&rt, &mut pass, 6, &mut bell),
            Waited::Found(7)
        )
    );
    Ok(())
}

#[test]
fn a_waiter_finds_what_another_thread_added(rt: HostRuntime) -> Result<(), Fail> {
    let (gate, mut pass) = Gate::new(rt.alloc(), Counter::new(rt.alloc()))
        .ok()
        .ok_or("memory")?;
    let other = gate.split(&rt, &mut pass);
    let (found, _) = join(
        &rt,
        || match gate.wait_for(&rt, &mut pass, 6, &mut SteadyBell) {
            Waited::Found(sum) => sum,
            Waited::Silent => 0,
        },
        || add_in_threads(&rt, &gate, other, 1, 6),
    );
    assert_eq!(rt; found, 6);
    Ok(())
}

#[test]
fn a_refused_object_comes_back(rt: HostRuntime) -> Result<(), Fail> {
    let mut counter = Counter::new(rt.alloc());
    counter.step(0, 4);
    match Gate::new(rt.alloc(), counter) {
        Ok((gate, mut pass)) => assert_eq!(rt; gate.call(&rt, &mut pass, 1), Some(5)),
        Err(Refused { object }) => assert_eq!(rt; (object.sum, object.count()), (4, 1)),
    }
    Ok(())
}
