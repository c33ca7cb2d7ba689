//! A reply before it is written.
ghost use Rattle.std.specs.Prelude.{◌≡◌};

use mt_model::{Blob, Text};
use std::marker::Model;

/// A field of a reply's head.
#[derive(Debug, Drop)]
pub struct ReplyField {
    pub name: Text,
    pub value: Text,
}

/// The fields of a reply's head, in their order.
#[derive(Debug, Drop)]
pub struct ReplyFields {
    items: Vec<ReplyField>,
}

impl Model for ReplyFields {
    ghost use Rattle.std.specs.Prelude.{List};
    ghost use Rattle.mt_http_out.specs.declared.reply.ReplyField.{ReplyField};

    ghost Value = { List ReplyField };

    ghost view = { λ f. f.items.items };
}

impl ReplyFields {
    /// The list of these fields, which takes no memory.
    pub fn of(items: Vec<ReplyField>) -> ReplyFields
        ensures { result ≡ items.items }
    {
        ReplyFields { items }
    }

    /// The fields, in their order.
    pub fn as_slice(&self) -> &[ReplyField]
        ensures { result.now ≡ self.now }
    {
        self.items.as_slice()
    }
}

/// A reply.
#[derive(Debug, Drop)]
pub struct Reply {
    /// The status code (RFC 9110, section 15).
    pub status: u16,

    /// The fields without Content-Length and Connection, which are added where the reply is written.
    pub fields: ReplyFields,

    pub body: Blob,

    /// Whether the connection ends with the reply.
    pub close: bool,
}
