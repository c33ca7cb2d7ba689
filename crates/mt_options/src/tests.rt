use crate::{Show, Token, TokenRead, read_number, read_show, read_token, value_of, write_token};
use mt_json::Level;
use mt_model::Text;
use mt_target::QueryOption;
use std::alloc::Global;
use std::test::Fail;

/// What is read of the two values of a token.
#[derive(Clone, Copy, Debug, PartialEq, Eq)]
enum Seen<'a> {
    Absent,
    From(&'a str),
    After(&'a str, &'a str),
    Past(&'a str),
    Unreadable,
}

fn seen_of(said: &TokenRead) -> Seen<'_> {
    match said {
        TokenRead::Absent => Seen::Absent,
        TokenRead::Is(Token::From { pk }) => Seen::From(pk.as_str()),
        TokenRead::Is(Token::After { pk, rk }) => Seen::After(pk.as_str(), rk.as_str()),
        TokenRead::Is(Token::Past { pk }) => Seen::Past(pk.as_str()),
        TokenRead::Unreadable => Seen::Unreadable,
    }
}

fn text_of(alloc: Global, value: Option<&str>) -> Result<Option<Text>, Fail> {
    match value {
        Some(value) => Ok(Some(Text::of(alloc, value)?)),
        None => Ok(None),
    }
}

fn as_text(value: &Option<Text>) -> Option<&str> {
    match value {
        Some(value) => Some(value.as_str()),
        None => None,
    }
}

#[test]
fn reads_tokens(rt: HostRuntime) -> Result<(), Fail> {
    let alloc = rt.alloc();
    for (pk, rk, want) in [
        (None, None, Seen::Absent),
        (Some("1!bQ"), None, Seen::From("m")),
        (Some("1!"), None, Seen::From("")),
        (Some("1!bQ"), Some("1!cg"), Seen::After("m", "r")),
        (
            Some("1!YWJj"),
            Some("1!cjAwOTk5"),
            Seen::After("abc", "r00999"),
        ),
        (Some("2!cDEyNw"), None, Seen::Past("p127")),
        // spare bits, padding, a slash, a byte that is no UTF-8, and another mark
        (Some("1!bR"), None, Seen::Unreadable),
        (Some("1!bQ=="), None, Seen::Unreadable),
        (Some("1!Lw"), None, Seen::Unreadable),
        (Some("1!_w"), None, Seen::Unreadable),
        (Some("3!bQ"), None, Seen::Unreadable),
        (Some(""), None, Seen::Unreadable),
        (None, Some("1!cg"), Seen::Unreadable),
        (Some("2!bQ"), Some("1!cg"), Seen::Unreadable),
        (Some("1!bQ"), Some("2!cg"), Seen::Unreadable),
    ] {
        let pk = text_of(alloc, pk)?;
        let rk = text_of(alloc, rk)?;
        let said = read_token(alloc, pk.as_ref(), rk.as_ref())?;
        assert!(rt; seen_of(&said) == want);
    }
    Ok(())
}

#[test]
fn writes_tokens(rt: HostRuntime) -> Result<(), Fail> {
    let alloc = rt.alloc();
    let pk = Text::of(alloc, "abc")?;
    let from = write_token(alloc, &Token::From { pk })?;
    assert_eq!(rt; from.0.as_str(), "1!YWJj");
    assert!(rt; from.1.is_none());
    let pk = Text::of(alloc, "m")?;
    let rk = Text::of(alloc, "r00999")?;
    let after = write_token(alloc, &Token::After { pk, rk })?;
    assert_eq!(rt; after.0.as_str(), "1!bQ");
    assert!(rt; as_text(&after.1) == Some("1!cjAwOTk5"));
    let pk = Text::of(alloc, "p127")?;
    let past = write_token(alloc, &Token::Past { pk })?;
    assert_eq!(rt; past.0.as_str(), "2!cDEyNw");
    assert!(rt; past.1.is_none());
    Ok(())
}

#[test]
fn reads_numbers(rt: HostRuntime) {
    assert_eq!(rt; read_number("1", 1, 1_000), Some(1));
    assert_eq!(rt; read_number("1000", 1, 1_000), Some(1_000));
    for text in ["0", "1001", "01", "+1", "", "18446744073709551616"] {
        assert_eq!(rt; read_number(text, 1, 1_000), None, "{text}");
    }
}

fn option_of(alloc: Global, name: &str, value: &str) -> Result<QueryOption, Fail> {
    Ok(QueryOption {
        name: Text::of(alloc, name)?,
        value: Text::of(alloc, value)?,
    })
}

/// Whether two names are chosen, and these.
fn chooses(show: &Show, first: &str, second: &str) -> bool {
    let Some(names) = &show.select else {
        return false;
    };
    match names.as_slice() {
        [one, two] => one.as_str() == first && two.as_str() == second,
        _ => false,
    }
}

#[test]
fn reads_what_is_shown(rt: HostRuntime) -> Result<(), Fail> {
    let alloc = rt.alloc();
    let mut options = Vec::new(alloc);
    options.push(option_of(alloc, "$select", "A,B")?)?;
    let show = read_show(alloc, &options, Some(b"application/json;odata=NoMetadata"))?;
    assert!(rt; chooses(&show, "A", "B"));
    assert_eq!(rt; show.level, Level::None);
    options.push(option_of(alloc, "$format", "json")?)?;
    let show = read_show(alloc, &options, Some(b"application/json;odata=nometadata"))?;
    assert_eq!(rt; show.level, Level::Minimal);
    assert!(rt; value_of(&options, b"$top").is_none());
    Ok(())
}
