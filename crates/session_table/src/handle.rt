// A session as a directory hands it out.
ghost use Rattle.std.specs.Prelude.{◌≡◌, [], IfOk, Some, length};
ghost use Rattle.std.specs.Arc.{arc_value};
ghost use Rattle.parked_gate.specs.Passes.{IsPassOf, gate_of, known};
ghost use Rattle.session_table.specs.Opens.{opened_sid};

mod serving;

use crate::directory::MaySplit;
use bosh_types::SharedText;
use entry_queue::{EntryQueue, Noted};
use parked_gate::{Gate, Pass};
use session_journal::{Entered, Entry, Recorded};
use std::alloc::{AllocError, Global};
use std::sync::{Arc, Mutex, Wait};

/// The gate of a session, with a pass to call it with. Nobody else sees either: who holds a handle makes the calls that it has, by this
/// pass, and the directory alone splits one off.
#[derive(Drop)]
pub struct SessionHandle {
    pub sid: SharedText,
    /// How many sessions were opened up to it.
    pub number: u64,
    gate: Arc<Gate<Recorded>, Global>,
    pass: Pass<Recorded>,
    // Where its entries are noted, if they are stored.
    keeper: Option<Arc<EntryQueue>>,
    // The entry of its opening, until it is noted.
    first: Mutex<Option<Entry>>,
    pub ghost fits: { IsPassOf (arc_value gate) pass },
    // The pass has seen that the session was opened under this name.
    pub ghost opened: { opened_sid (known pass).seen ≡ Some sid },
}

impl SessionHandle {
    ghost use Rattle.session_table.specs.Handles.{IsSplitOf, IsSameHandle};

    /// The session of this gate, with the pass that was made with it.
    pub(crate) fn new(
        sid: SharedText,
        number: u64,
        gate: Arc<Gate<Recorded>, Global>,
        pass: Pass<Recorded>,
        keeper: Option<Arc<EntryQueue>>,
    ) -> SessionHandle
        requires fits { IsPassOf (arc_value gate) pass }
        requires opened { opened_sid (known pass).seen ≡ Some sid }
        ensures sid { result.sid ≡ sid }
        ensures number { result.number ≡ number }
        ensures gate { result.gate ≡ gate }
        ensures pass { result.pass ≡ pass }
    {
        SessionHandle {
            sid,
            number,
            gate,
            pass,
            keeper,
            first: Mutex::new(None),
        }
    }

    /// The session's gate, by which no call can be made without a pass.
    pub(crate) fn gate(&self) -> &Gate<Recorded>
        ensures { result.now ≡ arc_value self.now.gate }
    {
        &self.gate
    }

    /// The number under which the handle's pass makes its entries.
    pub fn caller(&self) -> u32
        ensures { result ≡ (known self.now.pass).number }
    {
        self.pass.number()
    }

    /// How many entries of the session's history the handle's pass has seen.
    pub fn seen(&self) -> u64
        ensures { result ≡ length (known self.now.pass).seen }
    {
        self.pass.length()
    }

    /// Another handle of the session, with a pass of its own, whose holder is to note this entry of the session's opening, if one. The only error is
    /// want of memory.
    pub(crate) fn split(
        &mut self,
        _leave: MaySplit,
        first: Option<Entry>,
    ) -> Result<SessionHandle, AllocError>
        ensures same { IsSameHandle self.old self.new }
        ensures split { IfOk result (IsSplitOf self.old) }
    {
        let sid = self.sid.again()?;
        let gate = Arc::try_clone(&self.gate)?;
        let pass = self.gate.try_split(&mut self.pass).ok_or(AllocError)?;
        Ok(SessionHandle {
            sid,
            number: self.number,
            gate,
            pass,
            keeper: keeper_of(&self.keeper)?,
            first: Mutex::new(first),
        })
    }

    /// Notes the entry of the session's opening, where that is to be done.
    pub(crate) fn note_first<R: Wait>(&self, rt: &R) {
        let first = self.first.lock(rt).take();
        if let Some(entry) = first {
            self.note_at(rt, 0, entry);
        }
    }

    // Notes the entry that its pass made last, which is the last that it has seen.
    fn note<R: Wait>(&self, rt: &R, call: Entered) {
        self.note_at(rt, self.seen().saturating_sub(1), Entry { caller: 0, call });
    }

    fn note_at<R: Wait>(&self, rt: &R, index: u64, entry: Entry) {
        if let Some(keeper) = &self.keeper {
            keeper.note(
                rt,
                Noted {
                    session: self.number,
                    index,
                    entry,
                },
            );
        }
    }
}

// One more holder of the queue, if there is one.
pub(crate) fn keeper_of(
    keeper: &Option<Arc<EntryQueue>>,
) -> Result<Option<Arc<EntryQueue>>, AllocError> {
    match keeper {
        Some(keeper) => Ok(Some(Arc::try_clone(keeper)?)),
        None => Ok(None),
    }
}
