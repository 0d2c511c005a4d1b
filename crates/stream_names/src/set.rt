ghost use Rattle.std.specs.Prelude.{◌≡◌, ◌==◌, ◌&&◌, ◌≤◌, [], ◌∷◌, length, not, slice_get};
ghost use Rattle.bosh_types.specs.Limits.{most_streams};
ghost use Rattle.stream_names.specs.Streams.{is_among, named, those, with_stream, without, without_all};

use crate::names::number_of;
use bosh_types::StreamNo;
use std::marker::Model;

/// Some streams of a session, in the order of their numbers.
#[derive(Debug, Drop)]
pub struct StreamSet {
    marks: [bool; 8],
}

impl Model for StreamSet {
    ghost use Rattle.std.specs.Prelude.{ℕ, List};
    ghost use Rattle.stream_names.specs.Streams.{marked};

    ghost Value = { List ℕ };

    ghost view = { λ s. marked s.marks };
}

impl StreamSet {
    pub fn none() -> Self
        ensures { result ≡ [] }
    {
        StreamSet { marks: [false; 8] }
    }

    /// The same streams.
    pub fn copied(&self) -> Self
        ensures { result ≡ self.now }
    {
        StreamSet { marks: self.marks }
    }

    /// One stream alone.
    pub fn only(stream: StreamNo) -> Self
        ensures { result ≡ stream ∷ [] }
    {
        // The proof learns here that there are eight numbers.
        let _number = stream.number();
        let mut set = StreamSet::none();
        set.insert(stream);
        set
    }

    pub fn contains(&self, stream: StreamNo) -> bool
        ensures { result ≡ is_among self.now stream }
    {
        self.marks[usize::from(stream.number())]
    }

    /// How many they are.
    pub fn len(&self) -> usize
        ensures value { result ≡ length self.now }
        ensures few { result ≤ most_streams }
    {
        let mut count = 0;
        for number in 0..8 {
            if self.marks[number] {
                count += 1;
            }
        }
        count
    }

    pub fn is_empty(&self) -> bool
        ensures { result ≡ (length self.now == 0) }
    {
        self.len() == 0
    }

    pub fn insert(&mut self, stream: StreamNo)
        ensures { self.new ≡ with_stream self.old stream }
    {
        self.marks[usize::from(stream.number())] = true;
    }

    pub fn remove(&mut self, stream: StreamNo)
        ensures { self.new ≡ without self.old stream }
    {
        self.marks[usize::from(stream.number())] = false;
    }

    /// Takes all of the others out.
    pub fn remove_all(&mut self, others: &StreamSet)
        ensures { self.new ≡ without_all self.old others.now }
    {
        for place in 0..8 {
            self.marks[place] = left(self.marks[place], others.marks[place]);
        }
    }

    /// The stream at this place, if there are so many: the lowest is at 0.
    pub fn nth(&self, place: usize) -> Option<StreamNo>
        ensures { result ≡ slice_get self.now place }
    {
        let mut before = place;
        for number in 0..8 {
            if self.marks[usize::from(number)] {
                if before == 0 {
                    return StreamNo::new(number);
                }
                before -= 1;
            }
        }
        None
    }

    /// The stream of this name: `None` exactly where none of these has it.
    pub fn find(&self, name: &[u8]) -> Option<StreamNo>
        ensures { result ≡ named self.now name.now }
    {
        // The proof learns here that these stand in the order of their numbers.
        self.in_order();
        let Some(stream) = number_of(name) else {
            return None;
        };
        if !self.contains(stream) {
            return None;
        }
        Some(stream)
    }

    fn in_order(&self)
        ensures { those (is_among self.now) ≡ self.now }
    {
        let _first = self.marks[0];
    }
}

// A mark that the other one doesn't take away.
fn left(mark: bool, other: bool) -> bool
    ensures { result ≡ (mark && not other) }
{
    mark && !other
}
