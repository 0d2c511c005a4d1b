use crate::copies::CopyIn;
use crate::numbers::Moment;
use crate::shared::SharedText;
use std::alloc::{AllocError, Global};

/// An answer as it was given, to be given again when its request comes again (XEP-0124, section 14.3).
#[derive(Debug, Drop)]
pub struct KeptAnswer {
    /// The whole body.
    pub bytes: SharedText,
    /// When it was first given.
    pub given: Moment,
    /// How many payloads it carries.
    pub payloads: u32,
}

impl CopyIn for KeptAnswer {
    fn copy_in(&self, alloc: Global) -> Result<Self, AllocError> {
        Ok(KeptAnswer {
            bytes: self.bytes.copy_in(alloc)?,
            given: self.given,
            payloads: self.payloads,
        })
    }
}
