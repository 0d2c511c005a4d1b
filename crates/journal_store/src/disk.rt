// A disk as a journal sees it: what a read gives, and what a crash may leave.
ghost use Rattle.std.specs.Prelude.{◌≡◌, ℕ, ◌+◌, ◌≤◌, List, length, take};
ghost use Rattle.journal_store.specs.Disk.{part, written, Torn, CutOrNot, Untouched, Only, GoesOn, TellsLength, CountsLength, CountsDone};

/// What a disk answers to the question how long its file is.
#[derive(Clone, Copy, Debug, PartialEq, Eq)]
pub enum Length {
    Bytes(u64),
    Failed,
}

/// What a call of a disk did.
#[derive(Clone, Copy, Debug, PartialEq, Eq)]
pub enum DiskDone {
    Done,
    /// Of the content nothing is known after it, but what a crash may leave.
    Failed,
}

/// One file on a disk. Between two syncs each range that was written, and what lies past the old end, may hold any bytes
/// after a crash, and a cut has happened in whole or not at all; after a sync that is done a crash leaves what a read gives.
pub trait Disk {
    // It tells its content and what a crash may leave. A real file doesn't.
    ghost told: { Type 0 };

    // What a read gives.
    ghost seen: { Self → List ℕ };

    // The time, as a number that doesn't fall.
    ghost time: { Self → ℕ };

    // What a crash at some moment since a time may have left, in a call or between two.
    ghost left: { Self → ℕ → List ℕ → Type 0 };

    ghost faults: { Self → ℕ };

    /// How many bytes the file has.
    fn length(&mut self) -> Length
        ensures length { told → TellsLength (seen self.old) result }
        ensures seen { told → seen self.new ≡ seen self.old }
        ensures crash { told → GoesOn Untouched (time self.old) (time self.new) (left self.old) (left self.new) }
        ensures faults { CountsLength (faults self.old) (faults self.new) result };

    /// Reads the bytes from a place on, as many as there is room for.
    fn read(&mut self, at: u64, into: &mut [u8]) -> DiskDone
        requires { told → at + length into.old ≤ length (seen self.old) }
        ensures bytes { told → result ≡ DiskDone.Done → into.new ≡ part at (length into.old) (seen self.old) }
        ensures seen { told → seen self.new ≡ seen self.old }
        ensures crash { told → GoesOn Untouched (time self.old) (time self.new) (left self.old) (left self.new) }
        ensures faults { CountsDone (faults self.old) (faults self.new) result };

    /// Writes over what is there from a place on, and past the end.
    fn write(&mut self, at: u64, bytes: &[u8]) -> DiskDone
        requires { told → at ≤ length (seen self.old) }
        ensures written { told → result ≡ DiskDone.Done → seen self.new ≡ written at bytes.now (seen self.old) }
        ensures crash { told → GoesOn (Torn at (length bytes.now)) (time self.old) (time self.new) (left self.old) (left self.new) }
        ensures faults { CountsDone (faults self.old) (faults self.new) result };

    /// Cuts the file to so many bytes.
    fn cut(&mut self, to: u64) -> DiskDone
        requires { told → to ≤ length (seen self.old) }
        ensures cut { told → result ≡ DiskDone.Done → seen self.new ≡ take to (seen self.old) }
        ensures crash { told → GoesOn (CutOrNot to) (time self.old) (time self.new) (left self.old) (left self.new) }
        ensures faults { CountsDone (faults self.old) (faults self.new) result };

    /// Puts on the disk what was written and cut.
    fn sync(&mut self) -> DiskDone
        ensures durable { told → result ≡ DiskDone.Done → Only (seen self.old) (left self.new (time self.new)) }
        ensures seen { told → result ≡ DiskDone.Done → seen self.new ≡ seen self.old }
        ensures crash { told → GoesOn Untouched (time self.old) (time self.new) (left self.old) (left self.new) }
        ensures faults { CountsDone (faults self.old) (faults self.new) result };
}
