ghost use Rattle.std.specs.Prelude.{◌≡◌, ◌++◌, true, codes, length, List, IfOk};
ghost use Rattle.std.specs.List.{All};
ghost use Rattle.team_sets.specs.Closure.{closure, has};
ghost use Rattle.team_sets.specs.Names.{same_name};
ghost use Rattle.tg_text.specs.Order.{scope_cmp};
ghost use Rattle.tg_text.specs.declared.keys.Scope.{Scope};
ghost use Rattle.key_reach.specs.Graphs.{IsGraph};
ghost use Rattle.key_reach.specs.Keys.{same_scope};
ghost use Rattle.key_reach.specs.Laws.{may_lead};
ghost use Rattle.key_reach.specs.Lists.{IsListOf};
ghost use Rattle.key_reach.specs.Steps.{turned_arrows, turned_from};

use crate::graph::{Graph, make_graph, reached_from};
use crate::numbers::NumberSet;
use crate::table::KeyTable;
use std::alloc::Global;
use tg_text::{Memory, RoleName, Scope};

// The allowed arrows between live scopes, each turned. The nodes have the live scopes.
pub(crate) fn turned_scope_graph<V: KeyTable>(
    alloc: Global,
    view: &V,
) -> Result<Graph<Scope>, Memory>
    ensures nodes { IfOk result (λ graph. (s : Scope) → has same_scope (V.table view.now).scopes s ≡ true → has same_scope graph.nodes.items s ≡ true) }
    ensures graph { IfOk result (λ graph. IsGraph scope_cmp (turned_arrows (V.table view.now)) graph.nodes.items graph.arrows.items) }
{
    let mut arrows = Vec::new(alloc);
    for from in view.scopes() {
        push_arrows(&mut arrows, view, from)?;
    }
    make_scope_graph(alloc, view.scopes(), arrows.as_slice())
}

// The allowed arrows from a scope, each turned.
fn push_arrows<V: KeyTable>(
    arrows: &mut Vec<(Scope, Scope)>,
    view: &V,
    from: &Scope,
) -> Result<(), Memory>
    ensures { IfOk result (λ _. arrows.new.items ≡ arrows.old.items ++ turned_from (V.table view.now) from.now) }
{
    for to in view.scopes() {
        if leads(view, from, to) {
            arrows.push((*to, *from))?;
        }
    }
    Ok(())
}

// Whether an arrow is allowed. The kinds of the scopes mostly tell that it isn't.
pub(crate) fn leads<V: KeyTable>(view: &V, from: &Scope, to: &Scope) -> bool
    ensures { result ≡ (V.table view.now).allowed from.now to.now }
{
    may_lead(from, to) && view.allowed(from, to)
}

fn may_lead(from: &Scope, to: &Scope) -> bool
    ensures { result ≡ may_lead from.now to.now }
{
    match (from, to) {
        (Scope::Device(_), Scope::User(_)) => true,
        (Scope::User(_), Scope::Role(_)) => true,
        (Scope::User(_), Scope::Team) => true,
        (Scope::Role(_), Scope::Team) => true,
        (Scope::Role(role), Scope::Role(other)) => is_admin(role) && !is_admin(other),
        _ => false,
    }
}

fn is_admin(role: &RoleName) -> bool
    ensures { result ≡ same_name role.now (codes "admin") }
{
    *role == RoleName::admin()
}

fn make_scope_graph(
    alloc: Global,
    more: &[Scope],
    arrows: &[(Scope, Scope)],
) -> Result<Graph<Scope>, Memory>
    ensures nodes { IfOk result (λ graph. (s : Scope) → has same_scope more.now s ≡ true → has same_scope graph.nodes.items s ≡ true) }
    ensures graph { IfOk result (λ graph. IsGraph scope_cmp arrows.now graph.nodes.items graph.arrows.items) }
{
    make_graph(alloc, more, arrows)
}

// The scopes that these reach in a graph.
pub(crate) fn scopes_from(
    alloc: Global,
    graph: &Graph<Scope>,
    reached: &mut NumberSet,
    from: &[Scope],
) -> Result<Vec<Scope>, Memory>
    requires graph { (arrows : List (Scope × Scope)) × IsGraph scope_cmp arrows graph.now.nodes.items graph.now.arrows.items }
    requires nodes { All (λ s. has same_scope graph.now.nodes.items s ≡ true) from.now }
    requires size { reached.old.size ≡ length graph.now.nodes.items }
    ensures size { reached.new.size ≡ reached.old.size }
    ensures reached { IfOk result (λ scopes. (arrows : List (Scope × Scope)) → IsGraph scope_cmp arrows graph.now.nodes.items graph.now.arrows.items
        → IsListOf scope_cmp (closure same_scope arrows from.now) scopes.items) }
{
    reached_from(alloc, graph, reached, from)
}
