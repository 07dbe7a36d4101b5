//! What growing buffers keep. The function does nothing: what it ensures holds of all buffers.

ghost use Rattle.std.specs.Prelude.{◌≡◌, ℕ, List};
ghost use Rattle.snap_arena.specs.Texts.{Extends, IsHeld, text_in};
ghost use Rattle.snap_arena.specs.declared.held.HeldText.{HeldText};

/// What is held stays what it is where buffers grow, and growing is the same in one step and in two.
pub fn texts_stay()
    ensures itself { (buffers : List (List ℕ)) → Extends buffers buffers }
    ensures still { (first next last : List (List ℕ)) → Extends first next → Extends next last → Extends first last }
    ensures held { (before after : List (List ℕ)) (held : HeldText) → Extends before after → IsHeld before held → IsHeld after held }
    ensures text { (before after : List (List ℕ)) (held : HeldText) → Extends before after → IsHeld before held
        → text_in after held ≡ text_in before held }
{}
