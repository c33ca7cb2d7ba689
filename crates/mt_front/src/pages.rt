//! Pages of the table that are asked for.
ghost use Rattle.std.specs.Prelude.{◌≡◌, None, IfOk, MatchOption, option_copied};
ghost use Rattle.mt_front.specs.Reads.{IsShown};
ghost use Rattle.mt_front.specs.PageReads.{IsTop, IsNoTop, place_by, PageBy, AsksPageWith, AsksPage};

use crate::asks::Asked;
use crate::reads::{show_by, token_in};
use crate::refusals::BadRequest;
use mt_chain::PkFrom;
use mt_filter::{Filter, FilterFault, read_filter};
use mt_http_in::Field;
use mt_model::{Key, NoMemory, Text};
use mt_options::{Show, Token, TokenRead, read_number, value_of};
use mt_scan::Token as PageToken;
use mt_target::QueryOption;
use std::alloc::Global;

/// A page of the table: its rows from a place on, or those of them that a filter matches.
#[derive(Drop)]
pub struct PageRead {
    pub filter: Option<Filter>,

    /// How many rows it has at most, from 1 to 1,000.
    pub top: u32,

    /// Where it begins. Without a token it begins at the first row.
    pub token: Option<PageToken>,
    pub show: Show,
}

/// Rows of a page, at most, and without `$top`.
const ROWS: u32 = 1_000;

/// How many rows a page has at most by this value of `$top`; none where it spells no number from 1 to
/// 1,000.
fn top_by(value: Option<&Text>) -> Option<u32>
    ensures { MatchOption result (IsNoTop (option_copied value.entry)) (IsTop (option_copied value.entry)) }
{
    let Some(value) = value else {
        return Some(ROWS);
    };
    match read_number(value.as_str(), 1, u64::from(ROWS)) {
        Some(top) => Some(top as u32),
        None => None,
    }
}

/// The place that a token names.
fn place_by(token: Token) -> PageToken
    ensures { result ≡ place_by token }
{
    match token {
        Token::From { pk } => PageToken::Part(PkFrom::From(pk)),
        Token::After { pk, rk } => PageToken::Row(Key { pk, rk }),
        Token::Past { pk } => PageToken::Part(PkFrom::After(pk)),
    }
}

/// The page of all rows from there on.
fn page_from(
    alloc: Global,
    top: u32,
    token: Option<PageToken>,
    options: &[QueryOption],
    fields: &[Field],
) -> Result<PageRead, NoMemory>
    ensures filter { IfOk result (λ q. q.filter ≡ None) }
    ensures extent { IfOk result (λ q. (q.top ≡ top) × (q.token ≡ token)) }
    ensures shown { IfOk result (λ q. IsShown options.now fields.now q.show) }
{
    Ok(PageRead {
        filter: None,
        top,
        token,
        show: show_by(alloc, options, fields)?,
    })
}

/// The page of all rows that the options name; none where `$top` is no number of rows, or the
/// continuation token cannot be read.
fn page_by(
    alloc: Global,
    options: &[QueryOption],
    fields: &[Field],
) -> Result<Option<PageRead>, NoMemory>
    ensures { IfOk result (PageBy options.now fields.now) }
{
    let Some(top) = top_by(value_of(options, b"$top")) else {
        return Ok(None);
    };
    match token_in(alloc, options)? {
        TokenRead::Absent => Ok(Some(page_from(alloc, top, None, options, fields)?)),
        TokenRead::Is(token) => {
            let place = place_by(token);
            Ok(Some(page_from(alloc, top, Some(place), options, fields)?))
        }
        TokenRead::Unreadable => Ok(None),
    }
}

/// What a page asks for with that filter.
fn asked_with(alloc: Global, page: PageRead, filter: Option<&Text>) -> Result<Asked, NoMemory>
    ensures { IfOk result (AsksPageWith (option_copied filter.entry) page) }
{
    let Some(text) = filter else {
        return Ok(Asked::Page(page));
    };
    match read_filter(alloc, text.as_str()) {
        Ok(filter) => Ok(Asked::Page(PageRead {
            filter: Some(filter),
            top: page.top,
            token: page.token,
            show: page.show,
        })),
        Err(FilterFault::Bad { at, .. }) => { Ok(Asked::Refused(BadRequest::InvalidFilter { at })) }
        Err(FilterFault::NoMemory) => Err(NoMemory),
    }
}

/// What a `GET` on the table asks for that is not atomic: the page that begins where the continuation
/// token names, or at the first row, of at most `$top` rows, or 1,000, that `$filter` matches, or of
/// all; as much of each as `$select`, `$format` and Accept say. First are refused, as an option that is
/// not valid, a `$top` that is no number from 1 to 1,000 and a continuation token that cannot be read;
/// then a filter that cannot be read, with its place. The one error is want of memory.
pub fn asked_of_page(
    alloc: Global,
    options: &[QueryOption],
    fields: &[Field],
) -> Result<Asked, NoMemory>
    ensures { IfOk result (AsksPage options.now fields.now) }
{
    match page_by(alloc, options, fields)? {
        Some(page) => asked_with(alloc, page, value_of(options, b"$filter")),
        None => Ok(Asked::Refused(BadRequest::InvalidQuery)),
    }
}
