//! Laws on the texts of acts and proofs. The functions do nothing.
ghost use Rattle.std.specs.Prelude.{◌≡◌, false};
ghost use Rattle.tg_text.specs.Spelling.{has_newline};
ghost use Rattle.acts.specs.ActText.{IsActInRange, spell_act};
ghost use Rattle.acts.specs.ProofText.{Admission, IsAdmission, proof_body};
ghost use Rattle.acts.specs.declared.entry.Act.{Act};

/// Each act has a text of its own, of one line.
pub fn acts_are_spelled_once()
    ensures once { (a b : Act) → IsActInRange a → IsActInRange b → spell_act a ≡ spell_act b → a ≡ b }
    ensures line { (a : Act) → IsActInRange a → has_newline (spell_act a) ≡ false }
{}

/// No two admissions have one proof body.
pub fn proof_bodies_differ()
    ensures { (a b : Admission) → IsAdmission a → IsAdmission b → proof_body a ≡ proof_body b → a ≡ b }
{}
