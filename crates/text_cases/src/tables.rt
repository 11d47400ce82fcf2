use crate::{act_tables, field_tables, invitation_tables, key_tables};
use std::alloc::Global;
use tg_text::{Bytes, Memory};

/// What the call of a table finds in a text, as it is written. `None` where it finds nothing.
pub fn written(alloc: Global, table: &str, text: &[u8]) -> Result<Option<Bytes>, Memory> {
    match table {
        "decimal" => field_tables::decimal(alloc, text),
        "hash" => field_tables::hash(alloc, text),
        "hash_as_base64" => field_tables::hash_as_base64(alloc, text),
        "base64" => field_tables::base64(alloc, text),
        "base64_as_hex" => field_tables::base64_as_hex(alloc, text),
        "public_key" => field_tables::public_key(alloc, text),
        "public_key_as_hex" => field_tables::public_key_as_hex(alloc, text),
        "user_name" => field_tables::user_name(alloc, text),
        "role_name" => field_tables::role_name(alloc, text),
        "title" => field_tables::title(alloc, text),
        "scope" => field_tables::scope(alloc, text),
        "scope_kind" => field_tables::scope_kind(alloc, text),
        "scopes_ascend" => field_tables::scopes_ascend(alloc, text),
        "key_id" => field_tables::key_id(alloc, text),
        "keys_ascend" => field_tables::keys_ascend(alloc, text),
        "act" => act_tables::act(alloc, text),
        "act_fields" => act_tables::act_fields(alloc, text),
        "needs_admin" => act_tables::needs_admin_of_bo(alloc, text),
        "proof_body" => act_tables::body_again(alloc, text),
        "device" => act_tables::device(alloc, text),
        "key_file" => key_tables::key_file(alloc, text),
        "tree" => key_tables::tree(alloc, text),
        "token_file" => invitation_tables::token_file(alloc, text),
        "made_token" => invitation_tables::made_token(alloc, text),
        "token_changed" => invitation_tables::token_changed(alloc, text),
        "proof_file" => invitation_tables::proof_file(alloc, text),
        "made_proof" => invitation_tables::made_proof(alloc, text),
        _ => says(alloc, "no such table"),
    }
}

/// A text that the tables say.
pub fn says(alloc: Global, text: &str) -> Result<Option<Bytes>, Memory> {
    let bytes = Bytes::from_slice(alloc, text.as_bytes())?;
    Ok(Some(bytes))
}
