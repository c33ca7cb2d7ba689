//! What a request on rows asks for that writes: an operation on one row, alone or in a change set.
ghost use Rattle.std.specs.Prelude.{◌≡◌, ℕ, false, List, Result, Ok, None, IfOk};
ghost use Rattle.std.specs.List.{list_any};
ghost use Rattle.mt_model.specs.Key.{key_fault};
ghost use Rattle.mt_model.specs.Name.{is_hidden};
ghost use Rattle.mt_chain.specs.Rows.{key_at};
ghost use Rattle.mt_chain.specs.declared.op.Op.TheVariants as op;
ghost use Rattle.mt_model.specs.declared.key.Key.{Key};
ghost use Rattle.mt_model.specs.declared.value.Prop.{Prop};
ghost use Rattle.mt_front.specs.declared.changes.Change.TheVariants as change;
ghost use Rattle.mt_mime.specs.Replies.{HasEcho};
ghost use Rattle.mt_front.specs.Refused.{IsRefused, KeyedBy};
ghost use Rattle.mt_front.specs.Changes.{BodyHasKeys, InsertBy, AsksInsert, AsksAction, AsksEntity, AsksWith, AsksChange, CanTry, match_refusal, condition_of, put_op, merge_op};

use crate::fields::{IfMatch, insert_echo, read_match};
use crate::methods::Action;
use crate::refusals::{BadRequest, body_refusal, key_refusal};
use crate::routes::RowWrite;
use mt_chain::{Cond, Op};
use mt_http_in::Field;
use mt_json::{Body, KeyUse, read_entity};
use mt_mime::Echo;
use mt_model::{Key, NoMemory, Props};
use std::alloc::Global;

/// What a request that writes asks for.
#[derive(Drop)]
pub enum Change {
    /// An operation on one row, with what the reply shows of it.
    Write { op: Op, echo: Echo },

    /// Nothing that can be tried.
    Refused(BadRequest),
}

/// This refusal; where there is none to tell, there was no memory.
fn refuse(refusal: Option<BadRequest>) -> Result<Change, NoMemory>
    ensures asks { IfOk result (IsRefused change.Refused refusal) }
    ensures may { IfOk result CanTry }
{
    match refusal {
        Some(refusal) => Ok(Change::Refused(refusal)),
        None => Err(NoMemory),
    }
}

/// The insert of an entity of these keys and properties, or the refusal of the keys.
fn insert_at(
    alloc: Global,
    echo: Echo,
    pk: &str,
    rk: &str,
    props: Props,
) -> Result<Change, NoMemory>
    requires visible { list_any (λ p. is_hidden p.name) props ≡ false }
    requires shows { (key : Key) (props : List Prop) → HasEcho (op.Insert key props) echo }
    ensures asks { IfOk result (λ a. KeyedBy change.Refused (key_fault pk.now rk.now) (a ≡ change.Write (op.Insert (key_at pk.now rk.now) props) echo) a) }
    ensures may { IfOk result CanTry }
{
    match Key::read(alloc, pk, rk) {
        Ok(key) => Ok(Change::Write {
            op: Op::Insert { key, props },
            echo,
        }),
        Err(fault) => refuse(key_refusal(fault)),
    }
}

/// What an insert asks for whose body was read with its keys in it.
fn insert_of(alloc: Global, echo: Echo, body: Body) -> Result<Change, NoMemory>
    requires keys { (pk rk : List ℕ) × BodyHasKeys body pk rk }
    requires visible { list_any (λ p. is_hidden p.name) body.props ≡ false }
    requires shows { (key : Key) (props : List Prop) → HasEcho (op.Insert key props) echo }
    ensures asks { IfOk result (InsertBy echo (Ok body)) }
    ensures may { IfOk result CanTry }
{
    let Body { pk, rk, props } = body;
    match (pk, rk) {
        (Some(pk), Some(rk)) => insert_at(alloc, echo, pk.as_str(), rk.as_str(), props),
        _ => unreachable!(),
    }
}

/// What an insert with this body asks for, whose reply shows this.
fn insert_by(alloc: Global, echo: Echo, bytes: &[u8]) -> Result<Change, NoMemory>
    requires { (key : Key) (props : List Prop) → HasEcho (op.Insert key props) echo }
    ensures asks { IfOk result (AsksInsert echo bytes.now) }
    ensures may { IfOk result CanTry }
{
    match read_entity(alloc, bytes, KeyUse::InBody) {
        Ok(body) => insert_of(alloc, echo, body),
        Err(fault) => refuse(body_refusal(&fault)),
    }
}

/// The refusal of a delete without If-Match, and of an If-Match that is unreadable.
fn match_refusal(action: Action, if_match: IfMatch) -> Option<BadRequest>
    ensures { result ≡ match_refusal action if_match }
{
    match if_match {
        IfMatch::Absent => match action {
            Action::Delete => Some(BadRequest::MissingIfMatch),
            Action::Put | Action::Merge => None,
        },
        IfMatch::Any | IfMatch::Is(_) => None,
        IfMatch::Unreadable => Some(BadRequest::BadETag),
    }
}

fn condition_of(if_match: IfMatch) -> Option<Cond>
    ensures { result ≡ condition_of if_match }
{
    match if_match {
        IfMatch::Absent | IfMatch::Unreadable => None,
        IfMatch::Any => Some(Cond::Any),
        IfMatch::Is(tag) => Some(Cond::Is(tag)),
    }
}

/// Without a condition the properties stand in the row, whether it is there or not.
fn put_op(cond: Option<Cond>, key: Key, props: Props) -> Op
    ensures { result ≡ put_op cond key props }
{
    match cond {
        None => Op::InsertOrReplace { key, props },
        Some(cond) => Op::Replace { key, props, cond },
    }
}

/// Without a condition the properties stand in the row, over those that it has.
fn merge_op(cond: Option<Cond>, key: Key, props: Props) -> Op
    ensures { result ≡ merge_op cond key props }
{
    match cond {
        None => Op::InsertOrMerge { key, props },
        Some(cond) => Op::Merge { key, props, cond },
    }
}

/// What a put of this body to the row at a key asks for.
fn put_by(alloc: Global, cond: Option<Cond>, key: Key, bytes: &[u8]) -> Result<Change, NoMemory>
    requires { key_fault key.pk key.rk ≡ None }
    ensures asks { IfOk result (AsksWith (put_op cond key) bytes.now) }
    ensures may { IfOk result CanTry }
{
    match read_entity(alloc, bytes, KeyUse::InTarget) {
        Ok(body) => Ok(Change::Write {
            op: put_op(cond, key, body.props),
            echo: Echo::Plain,
        }),
        Err(fault) => refuse(body_refusal(&fault)),
    }
}

/// What a merge of this body into the row at a key asks for.
fn merge_by(alloc: Global, cond: Option<Cond>, key: Key, bytes: &[u8]) -> Result<Change, NoMemory>
    requires { key_fault key.pk key.rk ≡ None }
    ensures asks { IfOk result (AsksWith (merge_op cond key) bytes.now) }
    ensures may { IfOk result CanTry }
{
    match read_entity(alloc, bytes, KeyUse::InTarget) {
        Ok(body) => Ok(Change::Write {
            op: merge_op(cond, key, body.props),
            echo: Echo::Plain,
        }),
        Err(fault) => refuse(body_refusal(&fault)),
    }
}

/// What a method on the row at a key asks for, whose If-Match is not refused.
fn action_by(
    alloc: Global,
    action: Action,
    if_match: IfMatch,
    key: Key,
    bytes: &[u8],
) -> Result<Change, NoMemory>
    requires key { key_fault key.pk key.rk ≡ None }
    requires matched { match_refusal action if_match ≡ None }
    ensures asks { IfOk result (AsksAction action (condition_of if_match) key bytes.now) }
    ensures may { IfOk result CanTry }
{
    let cond = condition_of(if_match);
    match action {
        Action::Put => put_by(alloc, cond, key, bytes),
        Action::Merge => merge_by(alloc, cond, key, bytes),
        Action::Delete => match cond {
            Some(cond) => Ok(Change::Write {
                op: Op::Delete { key, cond },
                echo: Echo::Plain,
            }),
            None => unreachable!(),
        },
    }
}

/// What a method on the entity of these keys asks for: If-Match is looked at before the keys, and
/// they before the body.
fn entity_by(
    alloc: Global,
    action: Action,
    if_match: IfMatch,
    pk: &str,
    rk: &str,
    bytes: &[u8],
) -> Result<Change, NoMemory>
    ensures asks { IfOk result (AsksEntity action pk.now rk.now if_match bytes.now) }
    ensures may { IfOk result CanTry }
{
    if let Some(refusal) = match_refusal(action, if_match) {
        return Ok(Change::Refused(refusal));
    }
    match Key::read(alloc, pk, rk) {
        Ok(key) => action_by(alloc, action, if_match, key, bytes),
        Err(fault) => refuse(key_refusal(fault)),
    }
}

/// What a request asks for that writes so, with those fields and that body. An insert's keys stand in
/// its body, which is looked at before them, and its If-Match is unread; at an entity's methods the
/// order is If-Match, then the key in the target, then the body, whose keys are ignored, and Prefer and
/// Accept are unread. Of a field the first counts. A body is a JSON object (RFC 8259) as
/// `mt_json::read_entity` reads it, and nothing is read after a refusal.
///
/// Without If-Match a put or a merge takes the row whether it is there or not; with it the row has
/// to be there and to meet it. The operation's key keeps the rules of keys, it has no hidden property,
/// and its properties have at most 1,048,576 bytes. The one error is want of memory.
pub fn change_by(
    alloc: Global,
    write: RowWrite,
    fields: &[Field],
    bytes: &[u8],
) -> Result<Change, NoMemory>
    ensures asks { IfOk result (AsksChange write fields.now bytes.now) }
    ensures may { IfOk result CanTry }
{
    match write {
        RowWrite::Insert => insert_by(alloc, insert_echo(fields), bytes),
        RowWrite::Entity { action, pk, rk } => {
            let if_match = read_match(fields);
            entity_by(alloc, action, if_match, pk.as_str(), rk.as_str(), bytes)
        }
    }
}
