ghost use Rattle.std.specs.Prelude.{◌≡◌, ◌==◌, IfOk, length};

use crate::copies::CopyIn;
use crate::text::Text;
use std::alloc::{AllocError, Global};
use std::marker::Model;
use std::sync::Arc;

/// A text that is held in several places at once. Each further holder costs a count, whatever its length.
#[derive(Debug, Drop)]
pub struct SharedText {
    text: Arc<Text, Global>,
}

// Clauses see its bytes.
impl Model for SharedText {
    ghost use Rattle.std.specs.Prelude.{ℕ, List};
    ghost use Rattle.std.specs.Arc.{arc_value};

    ghost Value = { List ℕ };

    ghost view = { λ s. arc_value s.text };
}

impl SharedText {
    /// Takes the text as it is, to be shared from now on.
    pub fn new(alloc: Global, text: Text) -> Result<Self, AllocError>
        ensures { IfOk result (λ shared. shared ≡ text) }
    {
        match Arc::new(alloc, text) {
            Ok(text) => Ok(SharedText { text }),
            Err(_) => Err(AllocError),
        }
    }

    /// The same text, held once more. No byte is copied.
    pub fn again(&self) -> Result<Self, AllocError>
        ensures { IfOk result (λ shared. shared ≡ self.now) }
    {
        Ok(SharedText {
            text: Arc::try_clone(&self.text)?,
        })
    }

    pub fn as_slice(&self) -> &[u8]
        ensures { result.now ≡ self.now }
    {
        self.text.as_slice()
    }

    /// How many bytes it has.
    pub fn len(&self) -> usize
        ensures { result ≡ length self.now }
    {
        self.text.len()
    }

    pub fn is_empty(&self) -> bool
        ensures { result ≡ (length self.now == 0) }
    {
        self.text.is_empty()
    }
}

impl CopyIn for SharedText {
    fn copy_in(&self, _alloc: Global) -> Result<Self, AllocError> {
        self.again()
    }
}
