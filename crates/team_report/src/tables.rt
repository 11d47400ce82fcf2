ghost use Rattle.std.specs.Prelude.{◌≡◌, ◌++◌, not, IfOk, OnOk, filter, flat_map};
ghost use Rattle.acts.specs.ActText.{spell_kind};
ghost use Rattle.team_model.specs.ShowText.{invitation_line};
ghost use Rattle.team_report.specs.Lines.{member_line, role_line, spaced_role};

use acts::InviteKind;
use std::alloc::Global;
use team_model::{Invitation, Member};
use tg_text::{Bytes, Memory, RoleName, write_decimal, write_hex};

/// A line for each member, with the member's roles.
pub(crate) fn write_members(out: &mut Bytes, members: &[Member]) -> Result<(), Memory>
    ensures { OnOk result (out.new ≡ out.old ++ flat_map member_line members.now) }
{
    for member in members {
        write_member(out, member)?;
    }
    Ok(())
}

fn write_member(out: &mut Bytes, member: &Member) -> Result<(), Memory>
    ensures { OnOk result (out.new ≡ out.old ++ member_line member.now) }
{
    out.append(b"member ")?;
    out.append(member.user.as_slice())?;
    append_roles(out, member.roles.as_slice())?;
    out.append(b"\n")
}

fn append_roles(out: &mut Bytes, roles: &[RoleName]) -> Result<(), Memory>
    ensures { OnOk result (out.new ≡ out.old ++ flat_map spaced_role roles.now) }
{
    for role in roles {
        append_role(out, role)?;
    }
    Ok(())
}

fn append_role(out: &mut Bytes, role: &RoleName) -> Result<(), Memory>
    ensures { OnOk result (out.new ≡ out.old ++ spaced_role role.now) }
{
    out.append(b" ")?;
    out.append(role.as_slice())
}

/// A line for each role.
pub(crate) fn write_roles(out: &mut Bytes, roles: &[RoleName]) -> Result<(), Memory>
    ensures { OnOk result (out.new ≡ out.old ++ flat_map role_line roles.now) }
{
    for role in roles {
        write_role(out, role)?;
    }
    Ok(())
}

fn write_role(out: &mut Bytes, role: &RoleName) -> Result<(), Memory>
    ensures { OnOk result (out.new ≡ out.old ++ role_line role.now) }
{
    out.append(b"role ")?;
    out.append(role.as_slice())?;
    out.append(b"\n")
}

/// A line for each open invitation.
pub(crate) fn write_invitations(
    alloc: Global,
    out: &mut Bytes,
    invitations: &[Invitation],
) -> Result<(), Memory>
    ensures { OnOk result (out.new ≡ out.old ++ flat_map invitation_line (filter (λ i. not i.closed) invitations.now)) }
{
    let open = open_ones(alloc, invitations)?;
    write_each(out, open.as_slice())
}

fn open_ones(alloc: Global, invitations: &[Invitation]) -> Result<Vec<Invitation>, Memory>
    ensures { IfOk result (λ kept. kept.items ≡ filter (λ i. not i.closed) invitations.now) }
{
    let mut kept = Vec::new(alloc);
    for invitation in invitations {
        if !invitation.closed {
            kept.push(*invitation)?;
        }
    }
    Ok(kept)
}

fn write_each(out: &mut Bytes, invitations: &[Invitation]) -> Result<(), Memory>
    ensures { OnOk result (out.new ≡ out.old ++ flat_map invitation_line invitations.now) }
{
    for invitation in invitations {
        write_invitation(out, invitation)?;
    }
    Ok(())
}

fn write_invitation(out: &mut Bytes, invitation: &Invitation) -> Result<(), Memory>
    ensures { OnOk result (out.new ≡ out.old ++ invitation_line invitation.now) }
{
    out.append(b"invitation ")?;
    write_hex(out, &invitation.id)?;
    out.append(b" ")?;
    out.append(kind_word(invitation.kind))?;
    out.append(b" ")?;
    write_decimal(out, u64::from(invitation.uses))?;
    out.append(b" used ")?;
    write_decimal(out, u64::from(invitation.used.count_ones()))?;
    out.append(b" expires ")?;
    write_decimal(out, invitation.expiry)?;
    out.append(b"\n")
}

fn kind_word(kind: InviteKind) -> &'static [u8]
    ensures { result.now ≡ spell_kind kind }
{
    match kind {
        InviteKind::Member => b"member",
        InviteKind::Device => b"device",
    }
}
