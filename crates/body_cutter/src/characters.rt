ghost use Rattle.std.specs.Prelude.{◌≡◌, ℕ, ◌↔◌, List, true};
ghost use Rattle.std.specs.List.{list_all};
ghost use Rattle.body_cutter.specs.declared.place.Wide.TheVariants.{Whole};
ghost use Rattle.body_cutter.specs.BodyText.{IsBodyText, IsElementText};
ghost use Rattle.body_cutter.specs.Chars.{ends_whole, is_allowed, is_char_byte};
ghost use Rattle.body_cutter.specs.Utf8.{IsUtf8Of, is_tabled};

/// What the reader's table of bytes takes is exactly UTF-8 (RFC 3629 section 3) of the allowed characters (XML 1.0 section 2.2).
pub fn texts_are_allowed_characters()
    // The table takes the UTF-8 of each allowed character, and of each one below U+0080.
    ensures table { (text : List ℕ) → (ends_whole Whole text ≡ true) ↔ IsUtf8Of is_tabled text }
    // With the test of each byte it takes the UTF-8 of the allowed characters alone.
    ensures allowed { (text : List ℕ) → ((ends_whole Whole text ≡ true) × (list_all is_char_byte text ≡ true)) ↔ IsUtf8Of is_allowed text }
    // A text of the grammar is of allowed characters.
    ensures body { (text : List ℕ) → IsBodyText text → IsUtf8Of is_allowed text }
    ensures stanza { (text : List ℕ) → IsElementText text → IsUtf8Of is_allowed text }
{}
