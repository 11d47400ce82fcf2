//! Laws on the spelling of fields, for the proofs of the crates above. The functions do nothing.
ghost use Rattle.std.specs.Prelude.{◌≡◌, ◌<◌, ◌^◌, ℕ, List, false, IsTrue};
ghost use Rattle.tg_text.specs.KeySpelling.{IsKeyId, IsScope, spell_key_id, spell_scope};
ghost use Rattle.tg_text.specs.Spelling.{AreBytes, IsTitle, has_newline, has_space, is_user_name, spell_base64, spell_decimal, spell_hex};
ghost use Rattle.tg_text.specs.declared.keys.KeyId.{KeyId};
ghost use Rattle.tg_text.specs.declared.keys.Scope.{Scope};

/// Each spelling is that of one value.
pub fn spellings_differ()
    ensures decimal { (m n : ℕ) → m < 2 ^ 64 → n < 2 ^ 64 → spell_decimal m ≡ spell_decimal n → m ≡ n }
    ensures hex { (x y : List ℕ) → AreBytes x → AreBytes y → spell_hex x ≡ spell_hex y → x ≡ y }
    ensures base64 { (x y : List ℕ) → AreBytes x → AreBytes y → spell_base64 x ≡ spell_base64 y → x ≡ y }
    ensures scope { (a b : Scope) → IsScope a → IsScope b → spell_scope a ≡ spell_scope b → a ≡ b }
    ensures key { (a b : KeyId) → IsKeyId a → IsKeyId b → spell_key_id a ≡ spell_key_id b → a ≡ b }
{}

/// No field is cut by a newline, and none but a title by a space.
pub fn fields_are_whole()
    ensures decimal { (n : ℕ) → n < 2 ^ 64 → (has_newline (spell_decimal n) ≡ false) × (has_space (spell_decimal n) ≡ false) }
    ensures hex { (x : List ℕ) → (has_newline (spell_hex x) ≡ false) × (has_space (spell_hex x) ≡ false) }
    ensures base64 { (x : List ℕ) → (has_newline (spell_base64 x) ≡ false) × (has_space (spell_base64 x) ≡ false) }
    ensures name { (x : List ℕ) → IsTrue (is_user_name x) → (has_newline x ≡ false) × (has_space x ≡ false) }
    ensures title { (x : List ℕ) → IsTitle x → has_newline x ≡ false }
    ensures scope { (s : Scope) → IsScope s → (has_newline (spell_scope s) ≡ false) × (has_space (spell_scope s) ≡ false) }
    ensures key { (k : KeyId) → IsKeyId k → (has_newline (spell_key_id k) ≡ false) × (has_space (spell_key_id k) ≡ false) }
{}
