ghost use Rattle.std.specs.Prelude.{◌≡◌, map};
ghost use Rattle.std.specs.List.{IsDistinct};
ghost use Rattle.std.specs.List.Sorted.{IsStrictlySortedBy};
ghost use Rattle.tg_text.specs.Order.{scope_cmp};
ghost use Rattle.key_reach.specs.Keys.{is_live, same_scope, Table};
ghost use Rattle.key_reach.specs.Laws.{IsKeyTable};

use tg_text::{BoxLine, KeyId, Scope};

/// What the tables of a state show of keys. Allowed arrows join live scopes and go down from devices to the team, whatever the
/// tables. No call takes memory.
pub trait KeyTable {
    ghost table: { Self → Table };

    ghost lawful: { (view : Self) → IsKeyTable (table view) };

    /// The held boxes.
    fn boxes(&self) -> &[BoxLine]
        ensures { result.now ≡ (table self.now).boxes };

    /// The current key of each scope that ever had one, and the key of each device that was ever listed: one of each scope, in
    /// the order of scopes.
    fn currents(&self) -> &[KeyId]
        ensures currents { result.now ≡ (table self.now).currents }
        ensures ascend { IsStrictlySortedBy scope_cmp (map (λ k. k.scope) (table self.now).currents) }
        ensures one_each { IsDistinct same_scope (map (λ k. k.scope) (table self.now).currents) };

    /// The live scopes, in order.
    fn scopes(&self) -> &[Scope]
        ensures scopes { result.now ≡ (table self.now).scopes }
        ensures ascend { IsStrictlySortedBy scope_cmp (table self.now).scopes };

    /// Whether a scope is live.
    fn live(&self, scope: &Scope) -> bool
        ensures { result ≡ is_live (table self.now) scope.now };

    /// Whether the key `of` may be sealed to `to` now.
    fn allowed(&self, to: &Scope, of: &Scope) -> bool
        ensures { result ≡ (table self.now).allowed to.now of.now };
}
