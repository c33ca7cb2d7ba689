//! The reply that shows a page.
ghost use Rattle.std.specs.Prelude.{◌≡◌, ◌∷◌, IfOk};
ghost use Rattle.mt_mime.specs.Replies.{json_field};
ghost use Rattle.mt_http_out.specs.Rendering.{IsReply};
ghost use Rattle.mt_front.specs.PageReplies.{written_token, place_fields, continuation_fields, ShowsPage};

use crate::reads::list_body;
use crate::refusals::{field, typed_fields};
use mt_chain::PkFrom;
use mt_http_out::{Reply, ReplyFields};
use mt_model::{NoMemory, Text};
use mt_options::{Show, Token as WrittenToken, write_token};
use mt_scan::{Page, Token};
use std::alloc::Global;

/// A token as a request may give it again.
fn written_token(token: Token) -> WrittenToken
    ensures { result ≡ written_token token }
{
    match token {
        Token::Row(key) => WrittenToken::After {
            pk: key.pk,
            rk: key.rk,
        },
        Token::Part(PkFrom::From(pk)) => WrittenToken::From { pk },
        Token::Part(PkFrom::After(pk)) => WrittenToken::Past { pk },
    }
}

/// The fields of the reply behind which a page begins that these texts name.
fn fields_with(alloc: Global, partition: &Text, row: Option<Text>) -> Result<ReplyFields, NoMemory>
    ensures { IfOk result (λ fields. fields ≡ json_field ∷ place_fields partition.now row) }
{
    let mut fields = Vec::with_capacity(alloc, 3)?;
    fields.push(field(alloc, "Content-Type", "application/json")?)?;
    fields.push(field(
        alloc,
        "x-ms-continuation-NextPartitionKey",
        partition.as_str(),
    )?)?;
    if let Some(row) = row {
        fields.push(field(alloc, "x-ms-continuation-NextRowKey", row.as_str())?)?;
    }
    Ok(ReplyFields::of(fields))
}

/// The fields of the reply: where a page follows, they say where it begins.
fn page_fields(alloc: Global, token: Option<Token>) -> Result<ReplyFields, NoMemory>
    ensures { IfOk result (λ fields. fields ≡ json_field ∷ continuation_fields token) }
{
    let Some(token) = token else {
        return typed_fields(alloc, "application/json", None);
    };
    let (partition, row) = write_token(alloc, &written_token(token))?;
    fields_with(alloc, &partition, row)
}

/// 200 with the rows of a page, and where the next one begins. The one error is want of memory.
pub fn page_reply(alloc: Global, show: &Show, page: Page, close: bool) -> Result<Reply, NoMemory>
    ensures valid { IfOk result IsReply }
    ensures shows { IfOk result (ShowsPage show.now page close) }
{
    let body = list_body(alloc, page.rows.as_slice(), show)?;
    Ok(Reply {
        status: 200,
        fields: page_fields(alloc, page.token)?,
        body,
        close,
    })
}
