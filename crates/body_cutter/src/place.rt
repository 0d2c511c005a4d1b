/// Where the reader stands, apart from the elements that are open.
#[derive(Clone, Copy)]
pub enum Place {
    /// Nothing was read.
    Start,
    /// After a `<` that is the first byte.
    First,
    /// After `<?` and this many letters of `xml`.
    DeclarationWord(u8),
    /// In the declaration; whether a `?` came last.
    Declaration(bool),
    /// Before the body's `<`.
    Prolog,
    /// After the body's `<` and this many letters of `body`.
    BodyWord(u8),
    /// Before the `<` of a stanza by itself.
    StanzaStart,
    /// Between tags; how many `]` came last, up to two.
    Content(u8),
    /// After a `<` in content.
    Opened,
    /// After `<!` and this many bytes of `[CDATA[`.
    SectionWord(u8),
    /// In a CDATA section; how many `]` came last, up to two.
    Section(u8),
    /// After `</` and this many bytes of the open element's name.
    EndName(usize),
    /// In the white space after an end tag's name.
    EndSpace,
    /// In the name of a start tag.
    TagName,
    /// In the white space before an attribute or the end of a tag.
    TagSpace,
    /// After the `/` of an empty element.
    TagSlash,
    /// In the name of an attribute.
    AttrName,
    /// In the white space before `=`.
    AttrEquals,
    /// After `=`.
    AttrQuote,
    /// In a value with this quote; whether a raw CR came last.
    Value(u8, bool),
    /// After a value's last quote.
    AfterValue,
}

/// What of the last character is still to come (RFC 3629 section 4).
#[derive(Clone, Copy)]
pub enum Wide {
    /// Nothing.
    Whole,
    /// This many bytes.
    One,
    Two,
    Three,
    /// Two or three bytes, of which the next is bound by the one before.
    AfterE0,
    AfterEd,
    AfterEf,
    AfterEfBf,
    AfterF0,
    AfterF4,
}

/// A reference without its last bytes (XML 1.0 sections 4.1 and 4.6).
#[derive(Clone, Copy)]
pub enum Reference {
    /// After `&`.
    Begun,
    /// After `&` and these letters.
    L,
    G,
    A,
    Am,
    Ap,
    Apo,
    Q,
    Qu,
    Quo,
    /// Before the `;` of this character's name.
    Named(char),
    /// After `&#`.
    Number,
    /// After `&#` and decimal digits of this value.
    Decimal(u32),
    /// After `&#x`.
    HexMark,
    /// After `&#x` and hexadecimal digits of this value.
    Hex(u32),
}

/// What a byte makes of an unfinished reference.
#[derive(Clone, Copy)]
pub enum ReferenceMove {
    /// It isn't finished.
    More(Reference),
    /// It stands for this character.
    Done(char),
}

/// What is read.
#[derive(Clone, Copy)]
pub enum Kind {
    Body,
    Stanza,
}

/// Which elements are open.
#[derive(Clone, Copy)]
pub enum Around {
    /// The body isn't open.
    NoBody,
    /// No stanza is open, and none is a child.
    NoStanza,
    /// The body alone is open.
    Body,
    /// A child or a stanza is open.
    Child,
}

/// Bytes that each lead back to the same place.
#[derive(Clone, Copy)]
pub enum Run {
    /// Character data of a child.
    Data,
    /// A CDATA section.
    Section,
    /// A value with this quote.
    Value(u8),
    /// A name.
    Name,
    /// The zeros before a number.
    Zeros,
    /// More than two `]` in character data of a child.
    Brackets,
}

/// What a byte does to what the reader keeps.
#[derive(Clone, Copy)]
pub enum Act {
    /// Nothing.
    Pass,
    /// Marks the `<` of a child.
    Mark,
    /// Begins a name.
    BeginName,
    /// Goes on with a name.
    GrowName,
    /// Ends an element's name, which is open now.
    OpenElement,
    /// Ends an attribute's name.
    EndAttrName,
    /// Adds the byte to the value.
    ValueByte,
    /// Adds a character to the value.
    ValueChar(char),
    /// Ends an attribute.
    EndAttr,
    /// Ends the innermost element.
    CloseElement,
}

/// Where a byte leads, and what it does.
#[derive(Clone, Copy)]
pub struct Move {
    pub place: Place,
    pub reference: Option<Reference>,
    pub act: Act,
}
