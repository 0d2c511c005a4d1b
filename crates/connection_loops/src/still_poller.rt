// A poller in memory that waits.
use crate::door::Rouse;
use crate::poller::{Poller, Pollers};
use std::alloc::{AllocError, Global};
use std::sync::{Arc, Condvar, Mutex, Wait};

// Whether it was roused since its last wait.
#[derive(Drop)]
struct Alarm {
    is_roused: Mutex<bool>,
    roused: Condvar,
}

/// Waits until it is roused where it is to wait without end, and else not at all. It tells of each link at each wait, since nothing in memory says
/// on which of them something happened.
#[derive(Drop)]
pub struct StillPoller<R: Wait + Copy + Drop> {
    rt: R,
    alarm: Arc<Alarm>,
    entered: Vec<usize>,
}

/// Ends the wait of a loop in memory.
#[derive(Drop)]
pub struct StillRouse<R: Wait + Copy + Drop> {
    rt: R,
    alarm: Arc<Alarm>,
}

impl<R: Wait + Copy + Drop> Rouse for StillRouse<R> {
    fn rouse(&self) {
        *self.alarm.is_roused.lock(&self.rt) = true;
        self.alarm.roused.notify_all();
    }
}

impl<R: Wait + Copy + Drop, L> Poller<L> for StillPoller<R> {
    fn enter(&mut self, _link: &L, at: usize) -> bool {
        self.entered.contains(&at) || self.entered.push(at).is_ok()
    }

    fn wait(&mut self, most: Option<u64>, ready: &mut Vec<usize>) -> Result<(), AllocError> {
        if most.is_none() {
            let alarm = &self.alarm;
            let mut is_roused = alarm.roused.wait_while(
                &self.rt,
                alarm.is_roused.lock(&self.rt),
                |is_roused| !*is_roused,
            );
            *is_roused = false;
        }
        ready.extend_from_slice(self.entered.as_slice())
    }
}

/// Makes pollers in memory.
#[derive(Drop)]
pub struct StillPollers<R: Wait + Copy + Drop> {
    pub rt: R,
    pub alloc: Global,
}

impl<R: Wait + Copy + Drop, L> Pollers<L> for StillPollers<R> {
    type Poller = StillPoller<R>;

    type Rouse = StillRouse<R>;

    fn poller(&mut self) -> Result<(StillPoller<R>, StillRouse<R>), AllocError> {
        let alarm = Alarm {
            is_roused: Mutex::new(false),
            roused: Condvar::new(),
        };
        let Ok(alarm) = Arc::new(self.alloc, alarm) else {
            return Err(AllocError);
        };
        let rouse = StillRouse {
            rt: self.rt,
            alarm: Arc::try_clone(&alarm)?,
        };
        let entered = Vec::new(self.alloc);
        let poller = StillPoller {
            rt: self.rt,
            alarm,
            entered,
        };
        Ok((poller, rouse))
    }
}
