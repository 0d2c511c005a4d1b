// Loops whose seats wait for rings.
use crate::seats::{Ticket, Waiter};
use bosh_ports::BellKey;
use connection_loops::{CountedRouse, Door, Inbox, ListedPoller, Loop, Turned};
use std::alloc::{AllocError, Global};
use std::sync::atomic::{AtomicU64, Ordering};
use std::sync::{Arc, Wait};
use std::test::Fail;

const SESSIONS: u64 = 256;

// It is never due.
const NEVER: u64 = u64::MAX;

// A loop with its inbox, and what its seats count in.
#[derive(Drop)]
struct Scene {
    alloc: Global,
    looped: Loop<u64, Waiter, ListedPoller>,
    inbox: Inbox<Ticket, CountedRouse>,
    roused: Arc<AtomicU64>,
    steps: Arc<AtomicU64>,
    ended: Arc<AtomicU64>,
}

fn count(alloc: Global) -> Result<Arc<AtomicU64>, AllocError> {
    match Arc::new(alloc, AtomicU64::new(0)) {
        Ok(count) => Ok(count),
        Err(_) => Err(AllocError),
    }
}

impl Scene {
    fn new(alloc: Global, news: Vec<Vec<usize>>) -> Result<Scene, AllocError> {
        let roused = count(alloc)?;
        let rouse = CountedRouse {
            count: Arc::try_clone(&roused)?,
        };
        let Ok(door) = Arc::new(alloc, Door::new(alloc, rouse)?) else {
            return Err(AllocError);
        };
        Ok(Scene {
            alloc,
            looped: Loop::new(alloc, ListedPoller::new(news), 0)?,
            inbox: Inbox::with_room(alloc, 1024, door)?,
            roused,
            steps: count(alloc)?,
            ended: count(alloc)?,
        })
    }

    // One more seat, which waits for this many rises of a number under this key, and for its link up to this moment.
    fn put<R: Wait>(
        &self,
        rt: &R,
        key: u64,
        number: &Arc<AtomicU64>,
        rises: u64,
        due: u64,
    ) -> Result<(), AllocError> {
        let ticket = Ticket {
            key,
            rises,
            due,
            number: Arc::try_clone(number)?,
            steps: Arc::try_clone(&self.steps)?,
            ended: Arc::try_clone(&self.ended)?,
            door: Arc::try_clone(&self.inbox.door)?,
        };
        self.inbox.put(rt, ticket);
        Ok(())
    }

    fn turn<R: Wait>(&mut self, rt: &R) -> Turned {
        self.looped.turn(rt, &self.inbox)
    }

    fn steps(&self) -> u64 {
        self.steps.load(Ordering::SeqCst)
    }
}

fn rise(number: &AtomicU64) {
    number.fetch_add(1, Ordering::SeqCst);
}

// 256 sessions with two parked each: one ring steps just the two that wait for it, and what comes for nobody wakes nobody.
#[test]
fn a_ring_steps_those_who_wait_for_it(rt: HostRuntime) -> Result<(), Fail> {
    let alloc = rt.alloc();
    let mut scene = Scene::new(alloc, Vec::new(alloc))?;
    let mut numbers = Vec::new(alloc);
    for key in 0..SESSIONS {
        let number = count(alloc)?;
        scene.put(&rt, key, &number, 1, NEVER)?;
        scene.put(&rt, key, &number, 1, NEVER)?;
        numbers.push(number)?;
    }
    scene.turn(&rt);
    assert!(rt; (scene.looped.len(), scene.steps()) == (512, 512));
    scene.turn(&rt);
    assert!(rt; scene.steps() == 512);
    rise(numbers.get(77).ok_or("a number")?);
    scene.inbox.door.ring(BellKey(77));
    let ended = scene.turn(&rt);
    let seen = (
        scene.looped.len(),
        scene.steps(),
        scene.ended.load(Ordering::SeqCst),
        ended,
    );
    assert!(rt; seen == (510, 514, 2, Turned::On));
    scene.inbox.door.ring(BellKey(77));
    scene.turn(&rt);
    assert!(rt; scene.steps() == 514);
    Ok(())
}

// Seats whose keys differ by 1,024 are in one chain: a ring for one of them steps both, and the other waits on. A ring for a key that differs by
// 65,536 is one for both.
#[test]
fn a_chain_is_stepped_as_one(rt: HostRuntime) -> Result<(), Fail> {
    let alloc = rt.alloc();
    let mut scene = Scene::new(alloc, Vec::new(alloc))?;
    let keys = [5_u64, 1029, 6, 65_541, 4];
    for key in keys {
        let number = count(alloc)?;
        scene.put(&rt, key, &number, 1, NEVER)?;
    }
    scene.turn(&rt);
    let mut steps = Vec::new(alloc);
    for key in [5_u64, 1029, 131_077, 6, 7, 2048, 65_540] {
        scene.inbox.door.ring(BellKey(key));
        scene.turn(&rt);
        steps.push(scene.steps())?;
    }
    assert_eq!(rt;
        steps.as_slice(),
        [8_u64, 11, 14, 15, 15, 15, 16].as_slice()
    );
    assert!(rt; scene.looped.len() == 5);
    Ok(())
}

// All keys that were rung for before a turn are found in it, from the least bit to the greatest.
#[test]
fn a_turn_finds_all_rings(rt: HostRuntime) -> Result<(), Fail> {
    let alloc = rt.alloc();
    let mut scene = Scene::new(alloc, Vec::new(alloc))?;
    let number = count(alloc)?;
    let keys = [0_u64, 63, 64, 127, 4095, 4096, 4160, 40_000, 65_535];
    for key in keys {
        scene.put(&rt, key, &number, 1, NEVER)?;
    }
    scene.turn(&rt);
    rise(&number);
    for key in keys {
        scene.inbox.door.ring(BellKey(key));
    }
    assert!(rt; !scene.inbox.door.lie_down());
    scene.turn(&rt);
    assert!(rt; (scene.looped.len(), scene.steps()) == (0, 18));
    assert!(rt; scene.inbox.door.lie_down());
    Ok(())
}

// News of a link steps no seat that waits for a ring; and a seat that waits for its link is stepped by news, once it is told.
#[test]
fn news_steps_those_at_their_links(rt: HostRuntime) -> Result<(), Fail> {
    let alloc = rt.alloc();
    let mut news = Vec::new(alloc);
    news.push(Vec::new(alloc))?;
    news.push(vec![in alloc; 0_usize, 5]?)?;
    news.push(Vec::new(alloc))?;
    news.push(vec![in alloc; 0_usize; 2]?)?;
    let mut scene = Scene::new(alloc, news)?;
    let number = count(alloc)?;
    scene.put(&rt, 3, &number, 2, NEVER)?;
    scene.turn(&rt);
    scene.turn(&rt);
    assert!(rt; scene.steps() == 1);
    rise(&number);
    scene.inbox.door.ring(BellKey(3));
    scene.turn(&rt);
    assert!(rt; scene.steps() == 2);
    rise(&number);
    scene.inbox.door.close();
    let ended = scene.turn(&rt);
    assert!(rt; (scene.steps(), scene.looped.len(), ended) == (3, 0, Turned::Done));
    Ok(())
}

// A seat that waited for its link up to its moment is ended, and nobody else is.
#[test]
fn who_waited_too_long_for_its_link_is_ended(rt: HostRuntime) -> Result<(), Fail> {
    let alloc = rt.alloc();
    let mut scene = Scene::new(alloc, Vec::new(alloc))?;
    let number = count(alloc)?;
    scene.put(&rt, 1, &number, 2, 1000)?;
    scene.put(&rt, 2, &number, 2, NEVER)?;
    scene.put(&rt, 3, &number, 2, 1000)?;
    scene.turn(&rt);
    rise(&number);
    let mut lens = Vec::new(alloc);
    for key in [1, 2] {
        scene.inbox.door.ring(BellKey(key));
        scene.turn(&rt);
        lens.push(scene.looped.len())?;
    }
    assert_eq!(rt; lens.as_slice(), [3_usize, 2].as_slice());
    assert!(rt; scene.ended.load(Ordering::SeqCst) == 1);
    Ok(())
}

// A loop is roused once while it sleeps, and not while it is awake. (It sleeps here between its turns, as it never does.)
#[test]
fn a_ring_rouses_who_sleeps(rt: HostRuntime) -> Result<(), Fail> {
    let alloc = rt.alloc();
    let mut scene = Scene::new(alloc, Vec::new(alloc))?;
    let number = count(alloc)?;
    scene.put(&rt, 7, &number, 1, NEVER)?;
    scene.turn(&rt);
    scene.inbox.door.ring(BellKey(7));
    assert!(rt; scene.roused.load(Ordering::SeqCst) == 0);
    scene.turn(&rt);
    let lies = scene.inbox.door.lie_down();
    scene.inbox.door.ring(BellKey(8));
    scene.inbox.door.ring(BellKey(7));
    scene.inbox.door.ring(BellKey(7));
    assert!(rt; (lies, scene.roused.load(Ordering::SeqCst)) == (true, 1));
    assert!(rt; !scene.inbox.door.lie_down());
    Ok(())
}
