//! The options of a command line, as they are read one by one.
ghost use Rattle.std.specs.Prelude.{◌≡◌, ◌≢◌, ◌<◌, ◌≤◌, ◌^◌, ℕ, decimal, List, [], length, codes, MatchOption, IfSome};
ghost use Rattle.mt_words.specs.Readings.{texts_of, setting_of, given_of, nothing, IsNamed, IsNotNamed, IsPair, IsNoPair, IsFront, HasNoFront, Joins, HasNoSettings, HasSettings};

use crate::command::StoreChoice;
use mt_model::{is_table_name, read_decimal};

/// The greatest number of entries of a history.
pub const MAX_HISTORY: u64 = 1_048_576;

/// The greatest number of events of a drill.
const MAX_EVENTS: u64 = 100_000;

/// An option with its value.
#[derive(Clone, Copy)]
pub enum Setting<'a> {
    Table(&'a str),
    History(u64),
    Keeper(StoreChoice),
    Number(u64),
    Events(u32),
}

/// The value of each option, where it was given.
#[derive(Clone, Copy)]
pub struct Settings<'a> {
    pub table: Option<&'a str>,
    pub history: Option<u64>,
    pub keeper: Option<StoreChoice>,
    pub number: Option<u64>,
    pub events: Option<u32>,
}

/// An option at the front, and the words behind it.
#[derive(Clone, Copy)]
struct Peeled<'a> {
    setting: Setting<'a>,
    rest: &'a [String],
}

/// A number from 1 to the greatest.
fn read_count(text: &str, greatest: u64) -> Option<u64>
    ensures { MatchOption result ((n : ℕ) → 1 ≤ n → n ≤ greatest → text.now ≢ decimal n) (λ n. (text.now ≡ decimal n) × (1 ≤ n) × (n ≤ greatest)) }
{
    match read_decimal(text) {
        Some(n) => {
            if n < 1 || n > greatest {
                return None;
            }
            Some(n)
        }
        None => None,
    }
}

fn table_setting(value: &str) -> Option<Setting<'_>>
    ensures { MatchOption result (IsNotNamed (codes "--table") value.now) (λ s. IsNamed (codes "--table") value.now (setting_of s)) }
{
    if is_table_name(value) {
        Some(Setting::Table(value))
    } else {
        None
    }
}

fn history_setting<'a>(value: &'a str) -> Option<Setting<'a>>
    ensures { MatchOption result (IsNotNamed (codes "--history") value.now) (λ s. IsNamed (codes "--history") value.now (setting_of s)) }
{
    match read_count(value, MAX_HISTORY) {
        Some(entries) => Some(Setting::History(entries)),
        None => None,
    }
}

fn keeper_setting<'a>(value: &'a str) -> Option<Setting<'a>>
    ensures { MatchOption result (IsNotNamed (codes "--keeper") value.now) (λ s. IsNamed (codes "--keeper") value.now (setting_of s)) }
{
    match value {
        "plain" => Some(Setting::Keeper(StoreChoice::Plain)),
        "paged" => Some(Setting::Keeper(StoreChoice::Paged)),
        _ => None,
    }
}

fn number_setting<'a>(value: &'a str) -> Option<Setting<'a>>
    ensures { MatchOption result (IsNotNamed (codes "--number") value.now) (λ s. IsNamed (codes "--number") value.now (setting_of s)) }
{
    match read_decimal(value) {
        Some(number) => Some(Setting::Number(number)),
        None => None,
    }
}

fn events_setting<'a>(value: &'a str) -> Option<Setting<'a>>
    ensures { MatchOption result (IsNotNamed (codes "--events") value.now) (λ s. IsNamed (codes "--events") value.now (setting_of s)) }
{
    match read_count(value, MAX_EVENTS) {
        Some(events) => Some(Setting::Events(events as u32)),
        None => None,
    }
}

/// The option of that name with that value.
fn named_setting<'a>(name: &str, value: &'a str) -> Option<Setting<'a>>
    ensures { MatchOption result (IsNotNamed name.now value.now) (λ s. IsNamed name.now value.now (setting_of s)) }
{
    match name {
        "--table" => table_setting(value),
        "--history" => history_setting(value),
        "--keeper" => keeper_setting(value),
        "--number" => number_setting(value),
        "--events" => events_setting(value),
        _ => None,
    }
}

/// The option of that name whose value is the first word.
fn peel_value<'a>(name: &str, words: &'a [String]) -> Option<Peeled<'a>>
    ensures front { MatchOption result (IsNoPair name.now (texts_of words.now)) (λ p. IsPair name.now (texts_of words.now) (setting_of p.setting) (texts_of p.rest.now)) }
    ensures shorter { IfSome result (λ p. length p.rest.now < length words.now) }
{
    match words {
        [] => None,
        [value, rest @ ..] => match named_setting(name, value) {
            Some(setting) => Some(Peeled { setting, rest }),
            None => None,
        },
    }
}

/// The option at the front of the words.
fn peel(words: &[String]) -> Option<Peeled<'_>>
    ensures front { MatchOption result (HasNoFront (texts_of words.now)) (λ p. IsFront (texts_of words.now) (setting_of p.setting) (texts_of p.rest.now)) }
    ensures shorter { IfSome result (λ p. length p.rest.now < length words.now) }
{
    match words {
        [] => None,
        [first, rest @ ..] => match first.split_once('=') {
            Some((name, value)) => match named_setting(name, value) {
                Some(setting) => Some(Peeled { setting, rest }),
                None => None,
            },
            None => peel_value(first, rest),
        },
    }
}

impl<'a> Settings<'a> {
    /// These options and one more, which was not given before.
    fn with(self, setting: Setting<'a>) -> Option<Settings<'a>>
        ensures { Joins self.entry setting.entry result }
    {
        match setting {
            Setting::Table(table) => match self.table {
                None => Some(Settings {
                    table: Some(table),
                    ..self
                }),
                Some(_) => None,
            },
            Setting::History(entries) => match self.history {
                None => Some(Settings {
                    history: Some(entries),
                    ..self
                }),
                Some(_) => None,
            },
            Setting::Keeper(choice) => match self.keeper {
                None => Some(Settings {
                    keeper: Some(choice),
                    ..self
                }),
                Some(_) => None,
            },
            Setting::Number(number) => match self.number {
                None => Some(Settings {
                    number: Some(number),
                    ..self
                }),
                Some(_) => None,
            },
            Setting::Events(events) => match self.events {
                None => Some(Settings {
                    events: Some(events),
                    ..self
                }),
                Some(_) => None,
            },
        }
    }
}

/// The options that the words spell, each at most once.
pub fn read_settings(words: &[String]) -> Option<Settings<'_>>
    ensures { MatchOption result (HasNoSettings (texts_of words.now)) (λ s. HasSettings (texts_of words.now) (given_of s)) }
{
    let mut so_far = Settings {
        table: None,
        history: None,
        keeper: None,
        number: None,
        events: None,
    };
    let mut left = words;
    'options: while !left.is_empty() {
        let Some(peeled) = peel(left) else {
            return None;
        };
        let Some(joined) = so_far.with(peeled.setting) else {
            return None;
        };
        so_far = joined;
        left = peeled.rest;
    }
    Some(so_far)
}
