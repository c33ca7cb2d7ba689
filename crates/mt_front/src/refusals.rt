//! Why requests are refused, and the replies that say so: responses of HTTP/1.1 (RFC 9112) with an
//! error object of OData's JSON format.
ghost use Rattle.std.specs.Prelude.{◌≡◌, true, false, ◌∷◌, [], None, option_map, IfOk};
ghost use Rattle.std.specs.Option.{option_to_list};
ghost use Rattle.std.specs.String.{string_bytes};
ghost use Rattle.mt_json.specs.declared.read.JsonFault.TheVariants as json;
ghost use Rattle.mt_json.specs.Body.{is_repeat};
ghost use Rattle.mt_http_out.specs.Rendering.{bytes_of, IsReply};
ghost use Rattle.mt_mime.specs.Replies.{accepted};
ghost use Rattle.mt_front.specs.Refusals.{key_refusal, props_refusal, body_refusal, head_refusal, batch_refusal, bad_status, bad_code, bad_phrase, bad_place, bad_sentence, error_object, type_field, allow_field, error_fields, allow_of, error_with, error_reply, is_error_status, bad_reply, error_part, part_reply, cause_reply, cause_status, cause_code, cause_sentence, refusal_reply, fault_reply, full_reply, memory_reply, Makes};

use crate::methods::Resource;
use mt_chain::{Cause, Refusal};
use mt_http_in::Code;
use mt_http_out::{Reply, ReplyField, ReplyFields};
use mt_json::JsonFault;
use mt_mime::write_changes;
use mt_model::{Blob, KeyFault, NoMemory, PropsFault, Text};
use mt_rules::BatchFault;
use std::alloc::Global;

/// Why a request is refused before anything is tried, in the order in which the reasons are looked
/// for; but for an insert the body comes before its keys. The first four end the connection, and the
/// first five are `mt_http_in`'s. The status is 400 where none is given. Of `Double`, `BadName` and
/// `BadType` the one at the first name in byte order is told. The last six are of change sets.
#[derive(Clone, Copy, Debug, PartialEq, Eq)]
pub enum BadRequest {
    /// No head of HTTP/1.1 within the limits (400).
    InvalidHead,

    /// The length of the body is unclear (400).
    InvalidFraming,

    /// The body has more than 4,194,304 bytes (413).
    RequestBodyTooLarge,

    /// The body is cut off or not framed as its head says (400).
    InvalidBody,

    /// The body has a Content-Encoding other than `identity` (501).
    CompressedBody,

    /// The target names nothing that there could be, or is no text.
    InvalidUri,

    /// The target is the list of tables, or it has an option that its method does not know, or the
    /// machine of the method is not built (501).
    NotImplemented,

    /// The target names another table (404).
    TableNotFound,

    /// The resource does not have the method (405).
    MethodNotAllowed(Resource),

    /// An option's name stands twice, or an option does not have a value that it may have.
    InvalidQuery,

    /// The filter cannot be read; the place is the byte of its text, decoded, from 0.
    InvalidFilter { at: u64 },

    /// An atomic query whose filter does not name one partition.
    AtomicNeedsPartition,

    /// A delete without If-Match.
    MissingIfMatch,

    /// If-Match is neither `*` nor a tag.
    BadETag,

    /// A part of the key has more than 1,024 bytes.
    KeyTooLong,

    /// A part of the key has a character that may not stand in a key.
    KeyCharacter,

    /// The body is no JSON object.
    InvalidJson,

    /// A key is absent or null.
    MissingKey,

    /// A property is of the type Edm.Double, or a number that is no whole number of 64 bits.
    Double,

    /// A property has a name that no client may give.
    BadName,

    /// A property's value does not have its type, or a key is no text.
    BadType,

    /// More than 252 properties.
    TooManyProperties,

    /// A property's value is outside its type's limits.
    PropertyTooLarge,

    /// The properties have more than 1,048,576 bytes together.
    EntityTooLarge,

    /// The body is no change set, or its type is another.
    InvalidBatch,

    /// A change set without operations.
    EmptyBatch,

    /// A change set of more than 100 operations.
    TooManyOperations,

    /// The keys and properties of a change set have more than 4,194,304 bytes together.
    BatchTooLarge,

    /// An operation is of another partition than the first of its change set.
    OtherPartition,

    /// An operation is on the row of an earlier one of its change set.
    EntityTwice,
}

/// Why a request of a change set is refused before anything is tried, and which.
#[derive(Clone, Copy, Debug, PartialEq, Eq)]
pub struct BadPart {
    /// Its place among them; the first has 0.
    pub index: u64,
    pub refusal: BadRequest,
}

/// The refusal of what is no whole request, or of one whose body is compressed.
pub fn head_refusal(code: Code) -> BadRequest
    ensures { result ≡ head_refusal code }
{
    match code {
        Code::InvalidHead => BadRequest::InvalidHead,
        Code::InvalidFraming => BadRequest::InvalidFraming,
        Code::RequestBodyTooLarge => BadRequest::RequestBodyTooLarge,
        Code::InvalidBody => BadRequest::InvalidBody,
        Code::CompressedBody => BadRequest::CompressedBody,
    }
}

/// The refusal of a key's fault; `None` of want of memory.
pub fn key_refusal(fault: KeyFault) -> Option<BadRequest>
    ensures { result ≡ key_refusal fault }
{
    match fault {
        KeyFault::KeyTooLong { .. } => Some(BadRequest::KeyTooLong),
        KeyFault::KeyChar { .. } => Some(BadRequest::KeyCharacter),
        KeyFault::NoMemory => None,
    }
}

fn props_refusal(fault: PropsFault) -> Option<BadRequest>
    requires { is_repeat (json.Props fault) ≡ false }
    ensures { result ≡ props_refusal fault }
{
    match fault {
        PropsFault::DuplicateName { .. } => unreachable!(),
        PropsFault::TooManyProperties => Some(BadRequest::TooManyProperties),
        PropsFault::ValueTooLarge { .. } => Some(BadRequest::PropertyTooLarge),
        PropsFault::EntityTooLarge => Some(BadRequest::EntityTooLarge),
        PropsFault::NoMemory => None,
    }
}

/// The refusal of a body's fault, which is no repeated name; `None` of want of memory.
pub fn body_refusal(fault: &JsonFault) -> Option<BadRequest>
    requires { is_repeat fault.now ≡ false }
    ensures { result ≡ body_refusal fault.now }
{
    match fault {
        JsonFault::Syntax | JsonFault::NotObject => Some(BadRequest::InvalidJson),
        JsonFault::MissingKey { .. } => Some(BadRequest::MissingKey),
        JsonFault::Double { .. } => Some(BadRequest::Double),
        JsonFault::BadName { .. } => Some(BadRequest::BadName),
        JsonFault::BadType { .. } => Some(BadRequest::BadType),
        JsonFault::Props(fault) => props_refusal(*fault),
        JsonFault::NoMemory => None,
    }
}

/// The refusal of operations that are no batch, at the index at which it is told; `None` of want of
/// memory.
pub fn batch_refusal(fault: BatchFault) -> Option<BadPart>
    ensures { result ≡ batch_refusal fault }
{
    let (index, refusal) = match fault {
        BatchFault::Empty => (0, BadRequest::EmptyBatch),
        BatchFault::TooMany => (100, BadRequest::TooManyOperations),
        BatchFault::TooLarge => (0, BadRequest::BatchTooLarge),
        BatchFault::OtherPartition { index } => (u64::from(index), BadRequest::OtherPartition),
        BatchFault::Twice { index } => (u64::from(index), BadRequest::EntityTwice),
        BatchFault::NoMemory => return None,
    };
    Some(BadPart { index, refusal })
}

impl BadRequest {
    /// The status code of the reply.
    fn status(self) -> u16
        ensures { result ≡ bad_status self }
    {
        match self {
            BadRequest::RequestBodyTooLarge => 413,
            BadRequest::CompressedBody | BadRequest::NotImplemented => 501,
            BadRequest::TableNotFound => 404,
            BadRequest::MethodNotAllowed(_) => 405,
            BadRequest::InvalidHead
            | BadRequest::InvalidFraming
            | BadRequest::InvalidBody
            | BadRequest::InvalidUri
            | BadRequest::InvalidQuery
            | BadRequest::InvalidFilter { .. }
            | BadRequest::AtomicNeedsPartition
            | BadRequest::MissingIfMatch
            | BadRequest::BadETag
            | BadRequest::KeyTooLong
            | BadRequest::KeyCharacter
            | BadRequest::InvalidJson
            | BadRequest::MissingKey
            | BadRequest::Double
            | BadRequest::BadName
            | BadRequest::BadType
            | BadRequest::TooManyProperties
            | BadRequest::PropertyTooLarge
            | BadRequest::EntityTooLarge
            | BadRequest::InvalidBatch
            | BadRequest::EmptyBatch
            | BadRequest::TooManyOperations
            | BadRequest::BatchTooLarge
            | BadRequest::OtherPartition
            | BadRequest::EntityTwice => 400,
        }
    }

    /// The code of the error object.
    fn code(self) -> &'static str
        ensures { result.now ≡ bad_code self }
    {
        match self {
            BadRequest::InvalidHead => "InvalidHead",
            BadRequest::InvalidFraming => "InvalidFraming",
            BadRequest::RequestBodyTooLarge => "RequestBodyTooLarge",
            BadRequest::InvalidBody => "InvalidBody",
            BadRequest::CompressedBody => "CompressedBody",
            BadRequest::InvalidUri => "InvalidUri",
            BadRequest::NotImplemented => "NotImplemented",
            BadRequest::TableNotFound => "TableNotFound",
            BadRequest::MethodNotAllowed(_) => "MethodNotAllowed",
            BadRequest::InvalidQuery => "InvalidQuery",
            BadRequest::InvalidFilter { .. } => "InvalidFilter",
            BadRequest::AtomicNeedsPartition => "AtomicNeedsPartition",
            BadRequest::MissingIfMatch => "MissingIfMatch",
            BadRequest::BadETag => "BadETag",
            BadRequest::KeyTooLong => "KeyTooLong",
            BadRequest::KeyCharacter => "KeyCharacter",
            BadRequest::InvalidJson => "InvalidJson",
            BadRequest::MissingKey => "MissingKey",
            BadRequest::Double => "Double",
            BadRequest::BadName => "BadName",
            BadRequest::BadType => "BadType",
            BadRequest::TooManyProperties => "TooManyProperties",
            BadRequest::PropertyTooLarge => "PropertyTooLarge",
            BadRequest::EntityTooLarge => "EntityTooLarge",
            BadRequest::InvalidBatch => "InvalidBatch",
            BadRequest::EmptyBatch => "EmptyBatch",
            BadRequest::TooManyOperations => "TooManyOperations",
            BadRequest::BatchTooLarge => "BatchTooLarge",
            BadRequest::OtherPartition => "OtherPartition",
            BadRequest::EntityTwice => "EntityTwice",
        }
    }

    /// The sentence of the error object, up to the place that it tells.
    fn phrase(self) -> &'static str
        ensures { result.now ≡ bad_phrase self }
    {
        match self {
            BadRequest::InvalidHead => "The request head is not valid.",
            BadRequest::InvalidFraming => "The body length is not valid.",
            BadRequest::RequestBodyTooLarge => "The request body is too large.",
            BadRequest::InvalidBody => "The request body is not complete.",
            BadRequest::CompressedBody => "Compressed bodies are not supported.",
            BadRequest::InvalidUri => "The request target is not valid.",
            BadRequest::NotImplemented => "The request is not supported.",
            BadRequest::TableNotFound => "The table does not exist.",
            BadRequest::MethodNotAllowed(_) => "The method is not allowed.",
            BadRequest::InvalidQuery => "A query option is not valid.",
            BadRequest::InvalidFilter { .. } => "At byte ",
            BadRequest::AtomicNeedsPartition => "An atomic query names one partition.",
            BadRequest::MissingIfMatch => "If-Match is required.",
            BadRequest::BadETag => "The ETag is not valid.",
            BadRequest::KeyTooLong => "A key is too long.",
            BadRequest::KeyCharacter => "A key has a forbidden character.",
            BadRequest::InvalidJson => "The body is not a JSON object.",
            BadRequest::MissingKey => "A key is missing.",
            BadRequest::Double => "Edm.Double is not supported.",
            BadRequest::BadName => "A property name is not valid.",
            BadRequest::BadType => "A property value is not valid.",
            BadRequest::TooManyProperties => "The entity has too many properties.",
            BadRequest::PropertyTooLarge => "A property value is too large.",
            BadRequest::EntityTooLarge => "The entity is too large.",
            BadRequest::InvalidBatch => "The batch is not valid.",
            BadRequest::EmptyBatch => "The batch is empty.",
            BadRequest::TooManyOperations => "The batch has too many operations.",
            BadRequest::BatchTooLarge => "The batch is too large.",
            BadRequest::OtherPartition => "The operation names another partition.",
            BadRequest::EntityTwice => "The operation names an entity twice.",
        }
    }

    /// The place that the sentence tells.
    fn place(self) -> Option<u64>
        ensures { result ≡ bad_place self }
    {
        match self {
            BadRequest::InvalidFilter { at } => Some(at),
            _ => None,
        }
    }

    /// The sentence of the error object.
    fn sentence(self, alloc: Global) -> Result<String, NoMemory>
        ensures { IfOk result (λ s. string_bytes s ≡ bad_sentence self) }
    {
        let phrase = self.phrase();
        let sentence = match self.place() {
            Some(at) => format!(in alloc; "{phrase}{at}.")?,
            None => format!(in alloc; "{phrase}")?,
        };
        Ok(sentence)
    }

    /// The resource whose methods the reply lists.
    fn allow_of(self) -> Option<Resource>
        ensures { result ≡ allow_of self }
    {
        match self {
            BadRequest::MethodNotAllowed(resource) => Some(resource),
            _ => None,
        }
    }
}

/// The error object of a code and a sentence.
fn error_object(alloc: Global, code: &str, sentence: &str) -> Result<Blob, NoMemory>
    ensures { IfOk result (λ b. b ≡ error_object code.now sentence.now) }
{
    let text = format!(in alloc;
        "{{\"odata.error\":{{\"code\":\"{code}\",\"message\":{{\"lang\":\"en-US\",\"value\":\"{sentence}\"}}}}}}"
    )?;
    Blob::of(alloc, text.as_bytes())
}

/// A field of that name and value. The one error is want of memory.
pub fn field(alloc: Global, name: &str, value: &str) -> Result<ReplyField, NoMemory>
    ensures { IfOk result (λ f. f ≡ record { name = name.now; value = value.now }) }
{
    Ok(ReplyField {
        name: Text::of(alloc, name)?,
        value: Text::of(alloc, value)?,
    })
}

/// The fields of a reply whose body is of that media type, and which lists the methods of that
/// resource. The one error is want of memory.
pub fn typed_fields(
    alloc: Global,
    media: &str,
    resource: Option<Resource>,
) -> Result<ReplyFields, NoMemory>
    ensures { IfOk result (λ f. f ≡ type_field media.now ∷ option_to_list (option_map allow_field resource)) }
{
    let mut fields = Vec::with_capacity(alloc, 2)?;
    fields.push(field(alloc, "Content-Type", media)?)?;
    if let Some(resource) = resource {
        fields.push(field(alloc, "Allow", resource.allow())?)?;
    }
    Ok(ReplyFields::of(fields))
}

/// A reply of that status with that error object, which lists the methods of that resource.
fn error_with(
    alloc: Global,
    resource: Option<Resource>,
    status: u16,
    code: &str,
    sentence: &str,
    close: bool,
) -> Result<Reply, NoMemory>
    requires { is_error_status status ≡ true }
    ensures { Makes (error_with resource status code.now sentence.now close) result }
{
    let fields = typed_fields(alloc, "application/json", resource)?;
    let body = error_object(alloc, code, sentence)?;
    Ok(Reply {
        status,
        fields,
        body,
        close,
    })
}

/// A reply of that status with that error object. The one error is want of memory.
pub fn error_reply(
    alloc: Global,
    status: u16,
    code: &str,
    sentence: &str,
    close: bool,
) -> Result<Reply, NoMemory>
    requires { is_error_status status ≡ true }
    ensures { Makes (error_reply status code.now sentence.now close) result }
{
    error_with(alloc, None, status, code, sentence, close)
}

/// The reply to a request that is refused before anything is tried: 400, 404, 405, 413 or 501. At 405
/// the field Allow has the resource's methods. It ends the connection or not. The one error is want of
/// memory, here and in the others.
pub fn bad_request(alloc: Global, refusal: BadRequest, close: bool) -> Result<Reply, NoMemory>
    ensures { Makes (bad_reply refusal close) result }
{
    let sentence = refusal.sentence(alloc)?;
    error_with(
        alloc,
        refusal.allow_of(),
        refusal.status(),
        refusal.code(),
        &sentence,
        close,
    )
}

/// The reply to a change set, whose one part is that reply: 202.
fn accept(alloc: Global, part: Reply, close: bool) -> Result<Reply, NoMemory>
    requires { IsReply part }
    ensures { Makes (accepted (part ∷ []) close) result }
{
    let mut parts = Vec::with_capacity(alloc, 1)?;
    parts.push(part)?;
    let fields = typed_fields(alloc, "multipart/mixed; boundary=batchresponse_1", None)?;
    let body = write_changes(alloc, &parts)?;
    Ok(Reply {
        status: 202,
        fields,
        body,
        close,
    })
}

/// The reply to a change set whose one part is that error, with the index before its sentence.
fn error_part(
    alloc: Global,
    index: u64,
    resource: Option<Resource>,
    status: u16,
    code: &str,
    sentence: &str,
    close: bool,
) -> Result<Reply, NoMemory>
    requires { is_error_status status ≡ true }
    ensures { Makes (error_part index resource status code.now sentence.now close) result }
{
    let sentence = format!(in alloc; "{index}:{sentence}")?;
    let part = error_with(alloc, resource, status, code, &sentence, false)?;
    accept(alloc, part, close)
}

/// The reply to a change set of which one request is refused before anything is tried: 202, whose one
/// part is the refusal, with the index before its sentence.
pub fn bad_part(alloc: Global, bad: BadPart, close: bool) -> Result<Reply, NoMemory>
    ensures { Makes (part_reply bad close) result }
{
    let refusal = bad.refusal;
    let sentence = refusal.sentence(alloc)?;
    error_part(
        alloc,
        bad.index,
        refusal.allow_of(),
        refusal.status(),
        refusal.code(),
        &sentence,
        close,
    )
}

/// The status code of the reply to an operation that the table refuses.
fn cause_status(cause: Cause) -> u16
    ensures { result ≡ cause_status cause }
{
    match cause {
        Cause::NotFound => 404,
        Cause::Exists => 409,
        Cause::ConditionFailed => 412,
        Cause::TooManyProperties => BadRequest::TooManyProperties.status(),
        Cause::EntityTooLarge => BadRequest::EntityTooLarge.status(),
    }
}

/// The code of its error object.
fn cause_code(cause: Cause) -> &'static str
    ensures { result.now ≡ cause_code cause }
{
    match cause {
        Cause::NotFound => "ResourceNotFound",
        Cause::Exists => "EntityAlreadyExists",
        Cause::ConditionFailed => "UpdateConditionNotSatisfied",
        Cause::TooManyProperties => BadRequest::TooManyProperties.code(),
        Cause::EntityTooLarge => BadRequest::EntityTooLarge.code(),
    }
}

/// The sentence of its error object.
fn cause_sentence(cause: Cause) -> &'static str
    ensures { result.now ≡ cause_sentence cause }
{
    match cause {
        Cause::NotFound => "The specified resource does not exist.",
        Cause::Exists => "The specified entity already exists.",
        Cause::ConditionFailed => "The update condition was not satisfied.",
        Cause::TooManyProperties => BadRequest::TooManyProperties.phrase(),
        Cause::EntityTooLarge => BadRequest::EntityTooLarge.phrase(),
    }
}

/// The reply to an operation that the table refuses: 404, 409, 412 or 400.
pub fn cause_reply(alloc: Global, cause: Cause, close: bool) -> Result<Reply, NoMemory>
    ensures { Makes (cause_reply cause close) result }
{
    error_reply(
        alloc,
        cause_status(cause),
        cause_code(cause),
        cause_sentence(cause),
        close,
    )
}

/// The reply to an operation that the table refuses, alone or of a change set. Of a change set it is
/// 202, whose one part is the reply to it alone, with the index of the operation before its sentence.
pub fn refusal_reply(
    alloc: Global,
    change_set: bool,
    refusal: Refusal,
    close: bool,
) -> Result<Reply, NoMemory>
    ensures { Makes (refusal_reply change_set refusal close) result }
{
    let cause = refusal.cause;
    if !change_set {
        return cause_reply(alloc, cause, close);
    }
    error_part(
        alloc,
        u64::from(refusal.index),
        None,
        cause_status(cause),
        cause_code(cause),
        cause_sentence(cause),
        close,
    )
}

/// The reply where a store failed: 500.
pub fn store_fault(alloc: Global, close: bool) -> Result<Reply, NoMemory>
    ensures { Makes (fault_reply close) result }
{
    error_reply(alloc, 500, "StoreFault", "A store failed.", close)
}

/// The reply where the history is full: 507.
pub fn history_full(alloc: Global, close: bool) -> Result<Reply, NoMemory>
    ensures { Makes (full_reply close) result }
{
    error_reply(alloc, 507, "HistoryFull", "The history is full.", close)
}

/// The bytes of the reply where there is no memory: 503, and the connection ends.
pub fn no_memory() -> &'static [u8]
    ensures { result.now ≡ bytes_of memory_reply }
{
    b"HTTP/1.1 503 Service Unavailable\r\nContent-Type: application/json\r\nContent-Length: 91\r\nConnection: close\r\n\r\n{\"odata.error\":{\"code\":\"NoMemory\",\"message\":{\"lang\":\"en-US\",\"value\":\"Not enough memory.\"}}}"
}
