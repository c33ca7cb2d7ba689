//! The replies that tell what the service reports.
ghost use Rattle.std.specs.Prelude.{◌≡◌, codes, ◌++◌, IfOk};
ghost use Rattle.json.specs.Print.{escape, quoted};
ghost use Rattle.mt_front.specs.Refusals.{error_object, Makes};
ghost use Rattle.mt_front.specs.Reports.{truth_text, stepped_body, status_body, not_migrated, json_reply, sealed_reply, unmigrated_reply, report_reply};

use crate::refusals::{error_reply, typed_fields};
use crate::services::Report;
use json::Writer;
use mt_http_out::{Reply, ReplyFields};
use mt_model::{Blob, NoMemory};
use std::alloc::Global;

fn truth_text(truth: bool) -> &'static str
    ensures { result.now ≡ truth_text truth }
{
    if truth { "true" } else { "false" }
}

/// 200 with this JSON.
fn json_reply(alloc: Global, text: &str, close: bool) -> Result<Reply, NoMemory>
    ensures { Makes (json_reply text.now close) result }
{
    let fields = typed_fields(alloc, "application/json", None)?;
    let body = Blob::of(alloc, text.as_bytes())?;
    Ok(Reply {
        status: 200,
        fields,
        body,
        close,
    })
}

/// 200 with how many turns were taken, and whether the machine is done.
fn stepped_reply(alloc: Global, done: bool, steps: u32, close: bool) -> Result<Reply, NoMemory>
    ensures { Makes (json_reply (stepped_body done steps) close) result }
{
    let done = truth_text(done);
    let text = format!(in alloc; "{{\"done\":{done},\"steps\":{steps}}}")?;
    json_reply(alloc, &text, close)
}

/// 200 with how far the migration is.
fn status_reply(
    alloc: Global,
    entries: u64,
    generation: u32,
    retired: bool,
    close: bool,
) -> Result<Reply, NoMemory>
    ensures { Makes (json_reply (status_body entries generation retired) close) result }
{
    let retired = truth_text(retired);
    let text = format!(in alloc;
        "{{\"entries\":{entries},\"generation\":{generation},\"retired\":{retired}}}"
    )?;
    json_reply(alloc, &text, close)
}

/// 204: there is nothing more to tell.
fn sealed_reply(alloc: Global, close: bool) -> Result<Reply, NoMemory>
    ensures { Makes (sealed_reply close) result }
{
    let fields = ReplyFields::of(Vec::new(alloc));
    let body = Blob::of(alloc, b"")?;
    Ok(Reply {
        status: 204,
        fields,
        body,
        close,
    })
}

/// A text of JSON behind what stands in the buffer.
fn quoted_behind(text: Vec<u8>, sentence: &str) -> Result<Vec<u8>, NoMemory>
    ensures { IfOk result (λ out. out.items ≡ text.items ++ quoted sentence.now) }
{
    let mut writer = Writer::new(text);
    writer.string(sentence)?;
    Ok(writer.into_inner())
}

/// The error object that names a partition, whose key may have characters that JSON escapes.
fn unmigrated_object(alloc: Global, pk: &str) -> Result<Blob, NoMemory>
    ensures { IfOk result (λ b. b ≡ error_object (codes "NotMigrated") (escape (not_migrated pk.now))) }
{
    let sentence = format!(in alloc; "Not migrated: {pk}")?;
    let mut text = Vec::new(alloc);
    text.extend_from_slice(
        b"{\"odata.error\":{\"code\":\"NotMigrated\",\"message\":{\"lang\":\"en-US\",\"value\":",
    )?;
    let mut text = quoted_behind(text, &sentence)?;
    text.extend_from_slice(b"}}}")?;
    Blob::of(alloc, &text)
}

/// 409 with the partition that is not migrated.
fn unmigrated_reply(alloc: Global, pk: &str, close: bool) -> Result<Reply, NoMemory>
    ensures { Makes (unmigrated_reply pk.now close) result }
{
    let fields = typed_fields(alloc, "application/json", None)?;
    let body = unmigrated_object(alloc, pk)?;
    Ok(Reply {
        status: 409,
        fields,
        body,
        close,
    })
}

/// The reply that tells a report: 200, 204 or 409. It ends the connection or not. The one error is want
/// of memory.
pub fn report_reply(alloc: Global, report: Report, close: bool) -> Result<Reply, NoMemory>
    ensures { Makes (report_reply report close) result }
{
    match report {
        Report::Stepped { done, steps } => stepped_reply(alloc, done, steps, close),
        Report::NotSealed => {
            error_reply(
                alloc,
                409,
                "NotSealed",
                "The old store is not sealed.",
                close,
            )
        }
        Report::NotMigrated { pk } => unmigrated_reply(alloc, pk.as_str(), close),
        Report::Sealed => sealed_reply(alloc, close),
        Report::Status {
            entries,
            generation,
            retired,
        } => status_reply(alloc, entries, generation, retired, close),
    }
}
