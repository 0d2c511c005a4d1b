use crate::row::Row;

/// A text as its bytes: a body, a stanza, a name.
pub type Text = Row<u8>;

/// Stanzas in order, each as its bytes.
pub type Stanzas = Row<Text>;
