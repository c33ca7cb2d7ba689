//! Requests of HTTP/1.1 from the bytes of a source: heads, framing, bodies.
#![tactic(auto)]

mod bodies;
mod chunks;
mod fields;
mod framing;
mod heads;
mod reader;
mod requests;
mod trailers;

pub use fields::{Field, Fields, first_value, says};
pub use framing::trimmed;
pub use heads::{Head, Parsed, parse_head};
pub use reader::Reader;
pub use requests::{Incoming, read_request};

/// What a request is refused for. The first four end the connection.
#[derive(Clone, Copy, Debug, Drop, PartialEq, Eq)]
pub enum Code {
    /// No head of the grammar within the limits stands at the front (400).
    InvalidHead,

    /// The length of the body is unclear (400).
    InvalidFraming,

    /// The body has more than 4,194,304 bytes (413).
    RequestBodyTooLarge,

    /// The body is cut off or not framed as its head says (400).
    InvalidBody,

    /// The body has a Content-Encoding other than `identity` (501).
    CompressedBody,
}

/// Why there is no request.
#[derive(Clone, Copy, Debug, Drop, PartialEq, Eq)]
pub enum InFault {
    /// A read failed; the source's count of faults rose.
    ReadFault,

    /// The write of `100 Continue` failed; the sink's count of faults rose.
    WriteFault,

    /// The allocator had no memory.
    NoMemory,

    /// The request is refused.
    Refused {
        /// The status of the reply.
        status: u16,
        code: Code,

        /// Whether the connection ends with the reply.
        close: bool,
    },
}
