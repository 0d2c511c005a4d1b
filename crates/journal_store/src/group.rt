// Records that are stored together.
ghost use Rattle.std.specs.Prelude.{◌≡◌, ◌≤◌, ◌^◌, ◌↔◌, ◌∷◌, [], ◌++◌, ◌==◌, ◌<◌, length, take, IfOk, OnOk, OnErr, IsErrOf};
ghost use Rattle.journal_store.specs.Group.{AreRecords};
ghost use Rattle.journal_store.specs.Records.{record_of, framed};

use std::alloc::{AllocError, AllocFailed, Global};
use std::marker::Model;

/// Why a content isn't added.
#[derive(Clone, Copy, Debug, PartialEq, Eq)]
pub enum AddError {
    /// It has 2^32 bytes or more.
    TooLong,
    NoMemory,
}

impl From<AllocError> for AddError {
    ghost use Rattle.std.specs.Prelude.{◌≡◌};
    ghost use Rattle.journal_store.specs.declared.group.AddError.TheVariants.{NoMemory};

    ghost from_gives = { λ _ e. e ≡ NoMemory };

    fn from(_error: AllocError) -> AddError {
        AddError::NoMemory
    }
}

impl<T: Drop> From<AllocFailed<T>> for AddError {
    ghost use Rattle.std.specs.Prelude.{◌≡◌};
    ghost use Rattle.journal_store.specs.declared.group.AddError.TheVariants.{NoMemory};

    ghost from_gives = { λ _ e. e ≡ NoMemory };

    fn from(_error: AllocFailed<T>) -> AddError {
        AddError::NoMemory
    }
}

/// Records that wait to be stored, all of them or none. Clauses see their bytes.
#[derive(Drop)]
pub struct Group {
    // The records, and a closed gate.
    bytes: Vec<u8>,
}

impl Model for Group {
    ghost use Rattle.std.specs.Prelude.{◌≡◌, ℕ, List, [], ◌∷◌, ◌++◌, ◌-◌, take, vec_len};
    ghost use Rattle.journal_store.specs.Group.{AreRecords};

    ghost Value = { List ℕ };

    ghost view = { λ g. take (vec_len g.bytes - 1) g.bytes.items };

    ghost invariant = { λ g. AreRecords (take (vec_len g.bytes - 1) g.bytes.items) × (g.bytes.items ≡ take (vec_len g.bytes - 1) g.bytes.items ++ 0 ∷ []) };
}

impl Group {
    /// A group of none. The only error is want of memory.
    pub fn new(alloc: Global) -> Result<Group, AllocError>
        ensures { IfOk result (λ group. group ≡ []) }
    {
        let mut bytes = Vec::new(alloc);
        bytes.push(0)?;
        Ok(Group { bytes })
    }

    /// Adds the record of a content. After an error the group is as it was.
    pub fn add(&mut self, content: &[u8]) -> Result<(), AddError>
        ensures added { OnOk result (self.new ≡ self.old ++ record_of content.now) }
        ensures err { OnErr result (self.new ≡ self.old) }
        ensures too_long { IsErrOf result AddError.TooLong ↔ (2 ^ 32 ≤ length content.now) }
    {
        let Ok(count) = u32::try_from(content.len()) else {
            return Err(AddError::TooLong);
        };
        let gate = self.bytes.len() - 1;
        match push_framed(&mut self.bytes, count, content) {
            Ok(()) => {
                self.bytes[gate] = 1;
                Ok(())
            }
            Err(_) => {
                self.bytes.truncate(gate + 1);
                Err(AddError::NoMemory)
            }
        }
    }
}

impl Group {
    /// How many bytes its records have.
    pub fn len(&self) -> usize
        ensures { result ≡ length self.now }
    {
        self.bytes.len() - 1
    }

    pub fn is_empty(&self) -> bool
        ensures { result ≡ (length self.now == 0) }
    {
        self.len() == 0
    }

    /// Lets its records go.
    pub fn clear(&mut self)
        ensures { self.new ≡ [] }
    {
        self.bytes.truncate(1);
        self.bytes[0] = 0;
    }

    // What stands behind the gate of the first record.
    pub(crate) fn behind_gate(&self) -> &[u8]
        requires { 0 < length self.now }
        ensures behind { 1 ∷ result.now ≡ self.now ++ 0 ∷ [] }
        ensures records { AreRecords self.now }
    {
        &self.bytes[1..]
    }
}

// Puts a length, the content and a closed gate behind what is there, or for want of memory a part of them.
#[tactic(auto, unfolding(crate::specs::Records::number4))]
fn push_framed(bytes: &mut Vec<u8>, count: u32, content: &[u8]) -> Result<(), AllocError>
    requires { count ≡ length content.now }
    ensures ok { OnOk result (bytes.new.items ≡ bytes.old.items ++ framed content.now ++ 0 ∷ []) }
    ensures err { OnErr result (take (length bytes.old.items) bytes.new.items ≡ bytes.old.items) }
{
    bytes.extend_from_slice(&count.to_be_bytes())?;
    bytes.extend_from_slice(content)?;
    bytes.push(0)?;
    Ok(())
}
