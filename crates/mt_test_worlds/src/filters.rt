//! Filters of texts.
use mt_filter::{Filter, read_filter};
use std::alloc::Global;
use std::test::Fail;

/// The filter of a text, or none where it is empty.
pub fn filter_of(alloc: Global, text: &str) -> Result<Option<Filter>, Fail> {
    if text.is_empty() {
        return Ok(None);
    }
    match read_filter(alloc, text) {
        Ok(filter) => Ok(Some(filter)),
        Err(_) => Err(Fail::new("no filter")),
    }
}
