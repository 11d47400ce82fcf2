ghost use Rattle.std.specs.Prelude.{◌≡◌, ◌<◌, OnErr, OnOk};
ghost use Rattle.team_model.specs.Limits.{invitation_leaves};
ghost use Rattle.team_model.specs.Writes as after;

use crate::state::TeamState;
use acts::InviteKind;
use team_model::Invitation;
use tg_text::{Memory, UserName};

impl TeamState {
    /// Closes an invitation, where it was ever made.
    pub fn close_invitation(&mut self, id: &[u8; 32]) -> Result<(), Memory>
        ensures ok { OnOk result (self.new ≡ after.with_closed self.old id.now) }
        ensures err { OnErr result (self.new ≡ self.old) }
    {
        let Some(row) = self.invitation(id) else {
            return Ok(());
        };
        let row = closed(row);
        self.put_invitation(row)
    }

    /// Uses a leaf of an invitation, where it was ever made.
    pub fn use_leaf(&mut self, id: &[u8; 32], leaf: u32) -> Result<(), Memory>
        requires { leaf < invitation_leaves }
        ensures ok { OnOk result (self.new ≡ after.with_leaf_used self.old id.now leaf) }
        ensures err { OnErr result (self.new ≡ self.old) }
    {
        let Some(row) = self.invitation(id) else {
            return Ok(());
        };
        let row = used_at(leaf, row);
        self.put_invitation(row)
    }
}

/// The row of an invitation that a user opens: none of its leaves is used.
pub fn opened_invitation(
    id: [u8; 32],
    kind: InviteKind,
    user: UserName,
    uses: u32,
    expiry: u64,
) -> Invitation
    ensures { result ≡ after.opened_invitation id kind user uses expiry }
{
    Invitation {
        id,
        kind,
        user,
        uses,
        used: 0,
        expiry,
        closed: false,
    }
}

fn closed(invitation: &Invitation) -> Invitation
    ensures { result ≡ after.closed invitation.now }
{
    let mut invitation = *invitation;
    invitation.closed = true;
    invitation
}

fn used_at(leaf: u32, invitation: &Invitation) -> Invitation
    requires { leaf < invitation_leaves }
    ensures { result ≡ after.used_at leaf invitation.now }
{
    let mut invitation = *invitation;
    invitation.used |= 1 << leaf;
    invitation
}
