use bosh_types::SharedText;

/// An answer as it was written, and how many payloads it has.
#[derive(Debug, Drop)]
pub(crate) struct Written {
    pub text: SharedText,
    pub payloads: u32,
}
