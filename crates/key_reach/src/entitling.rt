ghost use Rattle.std.specs.Prelude.{◌≡◌};
ghost use Rattle.key_reach.specs.Keys.{is_entitled};
ghost use Rattle.key_reach.specs.Steps.{met};

use crate::current::is_same_scope;
use crate::scope_graphs::leads;
use crate::table::KeyTable;
use tg_text::{DeviceId, Scope};

/// Whether a device is to open the keys of a scope: whether it is listed, and meets the scope by following allowed arrows. It
/// takes no memory.
pub fn entitled<V: KeyTable>(view: &V, device: &DeviceId, scope: &Scope) -> bool
    ensures { result ≡ is_entitled (V.table view.now) device.now scope.now }
{
    let from = Scope::Device(*device);
    view.live(&from) && meets(view, &from, scope, 4)
}

// Whether a scope meets another in so many steps.
fn meets<V: KeyTable>(view: &V, from: &Scope, to: &Scope, steps: usize) -> bool
    ensures { result ≡ met (V.table view.now) steps from.now to.now }
{
    if is_same_scope(from, to) {
        return true;
    }
    if steps == 0 {
        return false;
    }
    for middle in view.scopes() {
        if leads(view, from, middle) && meets(view, middle, to, steps - 1) {
            return true;
        }
    }
    false
}
