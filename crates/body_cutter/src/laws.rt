ghost use Rattle.std.specs.Prelude.{◌≡◌, ◌≤◌, ℕ, ◌↔◌, List, [], length, true, IsTrue, Ok, Err};
ghost use Rattle.std.specs.List.{All};
ghost use Rattle.body_cutter.specs.declared.place.Place.TheVariants.{Start, StanzaStart};
ghost use Rattle.body_cutter.specs.declared.place.Kind.TheVariants as kinds;
ghost use Rattle.body_cutter.specs.Reader.{first_state};
ghost use Rattle.body_cutter.specs.Refusal.{is_accepted, reading};
ghost use Rattle.body_cutter.specs.Parts.{Parts};
ghost use Rattle.body_cutter.specs.BodyText.{HasBodyParts, HasElementParts, IsBody, IsBodyText, IsElementText, IsStanza, IsText, limit_passed};
ghost use Rattle.body_cutter.specs.declared.parts.Cut.{Cut};
ghost use Rattle.body_cutter.specs.declared.parts.CutRefusal.{CutRefusal};
ghost use Rattle.body_cutter.specs.Cutting.{body_cut_of, is_stanza, stanza_read_of};
ghost use Rattle.body_cutter.specs.Table.{IsBodyRefusal, IsStanzaRefusal};
ghost use Rattle.body_cutter.specs.Pieces.{IsNamed, IsPiece};
ghost use Rattle.body_cutter.specs.Built.{AreFresh, IsElementWithin, IsWritten, ReadsBack, Written, built_text};

/// The reader takes exactly the texts of the grammar.
pub fn reader_takes_the_grammar()
    ensures body { (text : List ℕ) → (is_accepted (reading 0 (first_state kinds.Body Start) text) ≡ true) ↔ IsBodyText text }
    ensures stanza { (text : List ℕ) → (is_accepted (reading 0 (first_state kinds.Stanza StanzaStart) text) ≡ true) ↔ IsElementText text }
{}

/// What a text is cut into is the grammar's body, and what refuses it stands in its row of the table; so it is with stanzas.
pub fn texts_are_cut_by_the_grammar()
    ensures body { (text : List ℕ) (cut : Cut) → (body_cut_of text ≡ Ok cut) ↔ IsBody text cut }
    ensures refusal { (text : List ℕ) (refusal : CutRefusal) → (body_cut_of text ≡ Err refusal) ↔ IsBodyRefusal text refusal }
    ensures stanza { (text : List ℕ) → IsTrue (is_stanza text) ↔ IsStanza text }
    ensures no_stanza { (text : List ℕ) (refusal : CutRefusal) → (stanza_read_of text ≡ Err refusal) ↔ IsStanzaRefusal text refusal }
{}

/// A text has one reading: its attributes and children, and the first limit that it passes.
pub fn a_text_has_one_reading()
    ensures body { (text : List ℕ) (one other : Parts) → HasBodyParts text one → HasBodyParts text other →
        (one.attributes ≡ other.attributes) × (one.children ≡ other.children) × (limit_passed one ≡ limit_passed other) }
    ensures stanza { (text : List ℕ) (one other : Parts) → HasElementParts text one → HasElementParts text other → limit_passed one ≡ limit_passed other }
{}

/// The parts of a body are pieces of its text: names, and elements by themselves within the body's limits.
pub fn parts_are_pieces()
    ensures attributes { (text : List ℕ) (parts : Parts) → HasBodyParts text parts → All (IsNamed text) parts.attributes }
    ensures children { (text : List ℕ) (parts : Parts) → HasBodyParts text parts → All (IsPiece text parts) parts.children }
{}

/// A body that is built of attributes and elements has these attributes and these children.
pub fn built_bodies_read_back()
    ensures { (attributes : List Written) (elements : List (List ℕ)) (most depth : ℕ) → IsText (built_text attributes elements) →
        All IsWritten attributes → AreFresh [] attributes → length attributes ≤ most → All (IsElementWithin most depth) elements →
        ReadsBack (built_text attributes elements) attributes elements most depth }
{}
