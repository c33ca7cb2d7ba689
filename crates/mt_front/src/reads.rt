//! Rows of one partition that are asked for, and the replies that show them.
ghost use Rattle.std.specs.Prelude.{◌≡◌, ℕ, ◌++◌, ◌∷◌, [], List, codes, option_copied, IfOk, OnOk};
ghost use Rattle.std.specs.List.{flat_map};
ghost use Rattle.mt_http_out.specs.Rendering.{IsReply};
ghost use Rattle.mt_filter.specs.Tree.{test, tree_of};
ghost use Rattle.mt_filter.specs.declared.filter.Compare.TheVariants as compare;
ghost use Rattle.mt_model.specs.declared.value.Value.TheVariants as value;
ghost use Rattle.mt_mime.specs.Replies.{tag_field};
ghost use Rattle.mt_match.specs.Partition.{atomic_partition};
ghost use Rattle.mt_front.specs.declared.asks.Asked.TheVariants as asked;
ghost use Rattle.mt_front.specs.Refused.{IsRefused};
ghost use Rattle.mt_front.specs.Reads.{IsText, AreTexts, ShowsFirst, ShowsAll, ShowsRows, with_commas, list_body, key_tree, IsKeyFilter, IsShown, IsRowRead, AsksRow, TokenReads, BadAs, AsksPartition, AsksFiltered, AsksRows};

use crate::asks::Asked;
use crate::refusals::{BadRequest, cause_reply, field, key_refusal, typed_fields};
use mt_chain::Cause;
use mt_filter::{Compare, Field, Filter, FilterFault, read_filter};
use mt_http_in::{Field as HeadField, first_value};
use mt_http_out::{Reply, ReplyField, ReplyFields};
use mt_json::write_entity;
use mt_match::atomic_partition;
use mt_model::{Blob, Entity, Key, NoMemory, Tag, Text, Value};
use mt_options::{Show, TokenRead, read_show, read_token, value_of};
use mt_target::{QueryOption, has_option};
use std::alloc::Global;

/// Which of the rows a reply shows.
#[derive(Clone, Copy, Debug, PartialEq, Eq)]
pub enum Shape {
    /// The first row, 200, or that there is none, 404.
    One,

    /// All rows, in their order: 200.
    All,
}

/// The rows of a partition, or those of them that a filter matches.
#[derive(Drop)]
pub struct Read {
    pub pk: Text,
    pub filter: Option<Filter>,
    pub shape: Shape,
    pub show: Show,
}

/// The test whether a part of the key is that text.
fn part_is(alloc: Global, field: Field, text: &Text) -> Result<Filter, NoMemory>
    ensures { IfOk result (λ f. tree_of f ≡ test field compare.Eq (value.Str text.now)) }
{
    Ok(Filter::Test {
        field,
        compare: Compare::Eq,
        literal: Value::Str(text.copy(alloc)?),
    })
}

/// The test for the row of a key.
fn key_filter(alloc: Global, key: &Key) -> Result<Filter, NoMemory>
    ensures { IfOk result (λ f. tree_of f ≡ key_tree key.now.pk key.now.rk) }
{
    let partition = part_is(alloc, Field::PartitionKey, &key.pk)?;
    let row = part_is(alloc, Field::RowKey, &key.rk)?;
    Ok(Filter::And(Box::new(alloc, partition)?, Box::new(alloc, row)?))
}

/// What the options and the fields of a read say of what is shown. The one error is want of memory.
pub(crate) fn show_by(
    alloc: Global,
    options: &[QueryOption],
    fields: &[HeadField],
) -> Result<Show, NoMemory>
    ensures { IfOk result (IsShown options.now fields.now) }
{
    read_show(alloc, options, first_value(fields, b"accept"))
}

/// The read of the row of a key.
fn read_of_row(
    alloc: Global,
    key: Key,
    options: &[QueryOption],
    fields: &[HeadField],
) -> Result<Read, NoMemory>
    ensures { IfOk result (IsRowRead key options.now fields.now) }
{
    let filter = key_filter(alloc, &key)?;
    let show = show_by(alloc, options, fields)?;
    Ok(Read {
        pk: key.pk,
        filter: Some(filter),
        shape: Shape::One,
        show,
    })
}

/// This refusal; where there is none to tell, there was no memory.
fn refuse(refusal: Option<BadRequest>) -> Result<Asked, NoMemory>
    ensures { IfOk result (IsRefused asked.Refused refusal) }
{
    match refusal {
        Some(refusal) => Ok(Asked::Refused(refusal)),
        None => Err(NoMemory),
    }
}

/// What a `GET` on the entity of these keys asks for: that row, as much of it as `$select`, `$format`
/// and Accept say; or the refusal of the keys. The one error is want of memory.
pub fn asked_of_row(
    alloc: Global,
    pk: &str,
    rk: &str,
    options: &[QueryOption],
    fields: &[HeadField],
) -> Result<Asked, NoMemory>
    ensures { IfOk result (AsksRow pk.now rk.now options.now fields.now) }
{
    match Key::read(alloc, pk, rk) {
        Ok(key) => Ok(Asked::Read(read_of_row(alloc, key, options, fields)?)),
        Err(fault) => refuse(key_refusal(fault)),
    }
}

/// What the options of a continuation token say. The one error is want of memory.
pub(crate) fn token_in(alloc: Global, options: &[QueryOption]) -> Result<TokenRead, NoMemory>
    ensures { TokenReads options.now result }
{
    let partition = value_of(options, b"NextPartitionKey");
    let row = value_of(options, b"NextRowKey");
    read_token(alloc, partition, row)
}

/// Whether an option is there that an atomic query cannot have, or a continuation token that cannot be
/// read.
fn has_bad_option(alloc: Global, options: &[QueryOption]) -> Result<bool, NoMemory>
    ensures { IfOk result (BadAs options.now) }
{
    if has_option(options, "$top") {
        return Ok(true);
    }
    match token_in(alloc, options)? {
        TokenRead::Unreadable => Ok(true),
        TokenRead::Absent | TokenRead::Is(_) => Ok(false),
    }
}

/// The rows that the filter matches, of the partition that it names.
fn asked_of_partition(
    alloc: Global,
    filter: Filter,
    options: &[QueryOption],
    fields: &[HeadField],
) -> Result<Asked, NoMemory>
    ensures { IfOk result (AsksPartition (atomic_partition (tree_of filter)) filter options.now fields.now) }
{
    let pk = match atomic_partition(&filter) {
        Some(pk) => pk.copy(alloc)?,
        None => return Ok(Asked::Refused(BadRequest::AtomicNeedsPartition)),
    };
    let show = show_by(alloc, options, fields)?;
    Ok(Asked::Read(Read {
        pk,
        filter: Some(filter),
        shape: Shape::All,
        show,
    }))
}

/// What a query with that filter asks for.
fn asked_of_filter(
    alloc: Global,
    text: Option<&Text>,
    options: &[QueryOption],
    fields: &[HeadField],
) -> Result<Asked, NoMemory>
    ensures { IfOk result (AsksFiltered (option_copied text.entry) options.now fields.now) }
{
    let Some(text) = text else {
        return Ok(Asked::Refused(BadRequest::AtomicNeedsPartition));
    };
    match read_filter(alloc, text.as_str()) {
        Ok(filter) => asked_of_partition(alloc, filter, options, fields),
        Err(FilterFault::Bad { at, .. }) => { Ok(Asked::Refused(BadRequest::InvalidFilter { at })) }
        Err(FilterFault::NoMemory) => Err(NoMemory),
    }
}

/// What an atomic `GET` on the table asks for: the rows that `$filter` matches, of the one partition
/// that it names, as much of each as `$select`, `$format` and Accept say. `$top` and a continuation
/// token that cannot be read are refused first, then a filter that cannot be read, then one that does
/// not name one partition; readable tokens have no effect. The one error is want of memory.
pub fn asked_of_rows(
    alloc: Global,
    options: &[QueryOption],
    fields: &[HeadField],
) -> Result<Asked, NoMemory>
    ensures { IfOk result (AsksRows options.now fields.now) }
{
    if has_bad_option(alloc, options)? {
        return Ok(Asked::Refused(BadRequest::InvalidQuery));
    }
    asked_of_filter(alloc, value_of(options, b"$filter"), options, fields)
}

fn tag_field(alloc: Global, tag: Tag) -> Result<ReplyField, NoMemory>
    ensures { IfOk result (λ f. f ≡ tag_field tag) }
{
    let text = tag.print(alloc)?;
    field(alloc, "ETag", text.as_str())
}

/// 200 with the row.
fn row_reply(alloc: Global, row: &Entity, show: &Show, close: bool) -> Result<Reply, NoMemory>
    ensures valid { IfOk result IsReply }
    ensures shows { IfOk result (ShowsFirst show.now (row.now ∷ []) close) }
{
    let text = write_entity(alloc, row, show.level, show.select.as_ref())?;
    let mut fields = Vec::with_capacity(alloc, 2)?;
    fields.push(field(alloc, "Content-Type", "application/json")?)?;
    fields.push(tag_field(alloc, row.tag)?)?;
    Ok(Reply {
        status: 200,
        fields: ReplyFields::of(fields),
        body: Blob::of(alloc, text.as_str().as_bytes())?,
        close,
    })
}

/// The reply of the first row, or that there is none.
fn first_reply(alloc: Global, rows: &[Entity], show: &Show, close: bool) -> Result<Reply, NoMemory>
    ensures valid { IfOk result IsReply }
    ensures shows { IfOk result (ShowsFirst show.now rows.now close) }
{
    match rows {
        [] => cause_reply(alloc, Cause::NotFound, close),
        [row, ..] => row_reply(alloc, row, show, close),
    }
}

fn add(body: &mut Vec<u8>, bytes: &[u8]) -> Result<(), NoMemory>
    ensures { OnOk result (body.new.items ≡ body.old.items ++ bytes.now) }
{
    body.extend_from_slice(bytes)?;
    Ok(())
}

/// Adds the text of a row.
fn add_row(alloc: Global, body: &mut Vec<u8>, row: &Entity, show: &Show) -> Result<(), NoMemory>
    ensures { OnOk result ((text : List ℕ) × IsText show.now row.now text × (body.new.items ≡ body.old.items ++ text)) }
{
    let text = write_entity(alloc, row, show.level, show.select.as_ref())?;
    add(body, text.as_str().as_bytes())
}

/// Adds the texts of rows, each behind a comma.
fn add_rest(alloc: Global, body: &mut Vec<u8>, rows: &[Entity], show: &Show) -> Result<(), NoMemory>
    ensures { OnOk result ((texts : List (List ℕ)) × AreTexts show.now rows.now texts × (body.new.items ≡ body.old.items ++ flat_map (λ u. codes "," ++ u) texts)) }
{
    for row in rows {
        add(body, b",")?;
        add_row(alloc, body, row, show)?;
    }
    Ok(())
}

/// Adds the texts of rows, with commas between them.
fn add_rows(alloc: Global, body: &mut Vec<u8>, rows: &[Entity], show: &Show) -> Result<(), NoMemory>
    ensures { OnOk result ((texts : List (List ℕ)) × AreTexts show.now rows.now texts × (body.new.items ≡ body.old.items ++ with_commas texts)) }
{
    match rows {
        [] => Ok(()),
        [row, rest @ ..] => {
            add_row(alloc, body, row, show)?;
            add_rest(alloc, body, rest, show)
        }
    }
}

/// The list of rows, in their order. The one error is want of memory.
pub(crate) fn list_body(alloc: Global, rows: &[Entity], show: &Show) -> Result<Blob, NoMemory>
    ensures { IfOk result (λ body. (texts : List (List ℕ)) × AreTexts show.now rows.now texts × (body ≡ list_body texts)) }
{
    let mut body = Vec::new(alloc);
    add(&mut body, b"{\"value\":[")?;
    add_rows(alloc, &mut body, rows, show)?;
    add(&mut body, b"]}")?;
    Blob::of(alloc, &body)
}

/// 200 with all rows.
fn list_reply(alloc: Global, rows: &[Entity], show: &Show, close: bool) -> Result<Reply, NoMemory>
    ensures valid { IfOk result IsReply }
    ensures shows { IfOk result (ShowsAll show.now rows.now close) }
{
    Ok(Reply {
        status: 200,
        fields: typed_fields(alloc, "application/json", None)?,
        body: list_body(alloc, rows, show)?,
        close,
    })
}

/// The reply to a read of that shape, which found these rows. The one error is want of memory.
pub fn rows_reply(
    alloc: Global,
    shape: Shape,
    show: &Show,
    rows: &[Entity],
    close: bool,
) -> Result<Reply, NoMemory>
    ensures valid { IfOk result IsReply }
    ensures shows { IfOk result (ShowsRows shape show.now rows.now close) }
{
    match shape {
        Shape::One => first_reply(alloc, rows, show, close),
        Shape::All => list_reply(alloc, rows, show, close),
    }
}
