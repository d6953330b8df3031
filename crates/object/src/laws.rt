//! Laws of object files. Each function does nothing: what it ensures holds for all bytes and all
//! objects.
ghost use Rattle.std.specs.Prelude.{◌≡◌, ℕ, List};
ghost use Rattle.object.specs.Objects.{ObjectParts};
ghost use Rattle.object.specs.Spelling.{Spells};

/// Bytes spell at most one object.
pub fn bytes_spell_one_object()
    ensures { (bytes : List ℕ) (a b : ObjectParts) → Spells bytes a → Spells bytes b → a ≡ b }
{}

/// An object has one spelling.
pub fn object_has_one_spelling()
    ensures { (a b : List ℕ) (object : ObjectParts) → Spells a object → Spells b object → a ≡ b }
{}
