//! Texts in single quotes.
ghost use Rattle.mt_target.specs.Quoted.{QuotedAs};

use crate::split::after;
use mt_model::{NoMemory, Text};
use std::alloc::Global;

/// The text in quotes at the front, in which a doubled quote is a quote, and what follows it.
pub fn read_quoted<'a>(alloc: Global, bytes: &'a str) -> Result<Option<(Text, &'a str)>, NoMemory>
    ensures { QuotedAs bytes.now result }
{
    let Some(mut rest) = after(bytes, "'") else {
        return Ok(None);
    };
    let mut text = String::new(alloc);
    'quotes: loop {
        let Some((part, behind)) = rest.split_once('\'') else {
            return Ok(None);
        };
        text.push_str(part)?;
        let Some(more) = after(behind, "'") else {
            return Ok(Some((Text::from_string(text), behind)));
        };
        text.push_str("'")?;
        rest = more;
    }
}
