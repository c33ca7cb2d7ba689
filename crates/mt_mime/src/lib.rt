//! Change sets (OData 3, batch processing) in and out: bodies of multipart/mixed (RFC 2046) whose parts are
//! requests and replies of HTTP/1.1 (RFC 9112).
#![tactic(auto)]

mod changes;
mod drafting;
mod finishing;
mod forms;
mod headers;
mod lines;
mod marks;
mod media;
mod replying;
mod split;
mod waiting;
mod write;

pub use changes::{MimeFault, Part, read_changes};
pub use drafting::draft;
pub use forms::Echo;
pub use media::boundary_of;
pub use waiting::Draft;
pub use write::write_changes;
