// What holds of the texts that a desk in memory stores.
ghost use Rattle.std.specs.Prelude.{◌≡◌, List, ℕ, Some, false};
ghost use Rattle.std.specs.Str.{bytes_eq};
ghost use Rattle.text_base.specs.Memory.{text_named, with_text};

/// A text that is stored is found by its name, and each other name keeps its text.
pub fn stored_text_is_found()
    ensures named { (texts : List (List ℕ × List ℕ)) (name text : List ℕ)
        → text_named (with_text texts name text) name ≡ Some text }
    ensures others { (texts : List (List ℕ × List ℕ)) (name text other : List ℕ)
        → bytes_eq name other ≡ false
        → text_named (with_text texts name text) other ≡ text_named texts other }
{}
