//! The first place where two stores fail a rule of a sound pair.
ghost use Rattle.std.specs.Prelude.{◌≡◌, ◌+◌, ◌<◌, ◌↔◌, IsTrue, IfOk, Some, [], MatchOption, option_copied};
ghost use Rattle.std.specs.Ordering.{is_le};
ghost use Rattle.mt_model.specs.Key.{key_cmp};
ghost use Rattle.mt_chain.specs.Rows.{key_at};
ghost use Rattle.mt_meta.specs.Sound.{IsSound};
ghost use Rattle.mt_chain.specs.declared.ask.Side.{Side};
ghost use Rattle.mt_open.specs.declared.damage.Rule.{Rule};
ghost use Rattle.mt_open.specs.Damage.{RowFails, IsLeastIn, IsFirstAt, IsFirstBy, IsFirstByRows, IsDamage, all_rules, rule_number};
ghost use Rattle.mt_open.specs.Holdings.{pair_in};
ghost use Rattle.mt_open.specs.Repeats.{AreRepeats, Stands};

use crate::damage::{Damage, Rule};
use crate::forms::has_form;
use crate::holdings::Holdings;
use crate::phases::{fails_by_markers, fails_marked};
use crate::tags::{Repeats, fails_tags};
use mt_chain::{Row, Side};
use mt_model::{Key, NoMemory, Text};
use std::alloc::Global;
use std::cmp::Ordering;

/// Whether a row fails a rule.
fn fails(
    alloc: Global,
    stores: &Holdings,
    repeats: &Repeats,
    rule: Rule,
    side: Side,
    row: &Row,
) -> Result<bool, NoMemory>
    requires { Stands (pair_in stores.now) repeats.now side row.now.0 row.now.1 }
    ensures { IfOk result (λ b. IsTrue b ↔ RowFails (pair_in stores.now) rule side row.now.0 row.now.1) }
{
    let (key, stored) = row;
    match rule {
        Rule::Forms => {
            let form = has_form(alloc, stores, side, key, &stored.props)?;
            Ok(!form)
        }
        Rule::Marked => Ok(fails_marked(stores, side, key, stored)),
        Rule::Tags => Ok(fails_tags(stores, repeats, side, key, stored)),
        Rule::Unsealed => Ok(false),
        rule => Ok(fails_by_markers(stores, rule, side, key, stored)),
    }
}

/// The least key of a row of one store that fails a rule.
fn least_in<'a>(
    alloc: Global,
    stores: &'a Holdings,
    repeats: &Repeats,
    rule: Rule,
    side: Side,
) -> Result<Option<&'a Key>, NoMemory>
    requires { AreRepeats (pair_in stores.now) repeats.now }
    ensures { IfOk result (λ key. IsLeastIn (pair_in stores.now) rule side (option_copied key)) }
{
    for row in stores.rows_on(side) {
        if fails(alloc, stores, repeats, rule, side, row)? {
            return Ok(Some(&row.0));
        }
    }
    Ok(None)
}

/// Whether old's key comes before new's, which it does where they are equal.
fn is_old_first(old: &Key, new: &Key) -> bool
    ensures { result ≡ is_le (key_cmp old.now new.now) }
{
    old.order(new) != Ordering::Greater
}

fn damage_at(
    alloc: Global,
    stores: &Holdings,
    rule: Rule,
    side: Side,
    key: &Key,
) -> Result<Option<Damage>, NoMemory>
    requires { IsFirstAt (pair_in stores.now) rule side key.now }
    ensures { IfOk result (λ d. IsFirstBy (pair_in stores.now) rule d) }
{
    let key = key.copy(alloc)?;
    let store = stores.on(side).number();
    Ok(Some(Damage { store, key, rule }))
}

/// The damage at the first of two keys, if there is one.
fn first_of(
    alloc: Global,
    stores: &Holdings,
    rule: Rule,
    old: Option<&Key>,
    new: Option<&Key>,
) -> Result<Option<Damage>, NoMemory>
    requires { IsLeastIn (pair_in stores.now) rule Side.Old (option_copied old)
        × IsLeastIn (pair_in stores.now) rule Side.New (option_copied new) }
    ensures { IfOk result (λ d. IsFirstBy (pair_in stores.now) rule d) }
{
    match (old, new) {
        (None, None) => Ok(None),
        (Some(old), None) => damage_at(alloc, stores, rule, Side::Old, old),
        (None, Some(new)) => damage_at(alloc, stores, rule, Side::New, new),
        (Some(old), Some(new)) => {
            if is_old_first(old, new) {
                damage_at(alloc, stores, rule, Side::Old, old)
            } else {
                damage_at(alloc, stores, rule, Side::New, new)
            }
        }
    }
}

/// The first place where a row fails that rule.
fn first_by(
    alloc: Global,
    stores: &Holdings,
    repeats: &Repeats,
    rule: Rule,
) -> Result<Option<Damage>, NoMemory>
    requires { AreRepeats (pair_in stores.now) repeats.now }
    ensures { IfOk result (λ d. IsFirstBy (pair_in stores.now) rule d) }
{
    let old = least_in(alloc, stores, repeats, rule, Side::Old)?;
    let new = least_in(alloc, stores, repeats, rule, Side::New)?;
    first_of(alloc, stores, rule, old, new)
}

/// The rule at a place in their order.
fn rule_at(rules: &[Rule], at: usize) -> Rule
    requires { (rules.now ≡ all_rules) × (at < 8) }
    ensures { rule_number result ≡ at + 1 }
{
    rules[at]
}

/// The first place where a row fails one of the rules, which are all, in their order.
fn first_by_rows(
    alloc: Global,
    stores: &Holdings,
    repeats: &Repeats,
    rules: &[Rule],
) -> Result<Option<Damage>, NoMemory>
    requires { AreRepeats (pair_in stores.now) repeats.now × (rules.now ≡ all_rules) }
    ensures { IfOk result (λ d. IsFirstByRows (pair_in stores.now) d) }
{
    for at in 0..rules.len() {
        let rule = rule_at(rules, at);
        if let Some(damage) = first_by(alloc, stores, repeats, rule)? {
            return Ok(Some(damage));
        }
    }
    Ok(None)
}

/// The damage of a sealed new store.
fn sealed_damage(alloc: Global, stores: &Holdings) -> Result<Damage, NoMemory>
    ensures { IfOk result (λ d. (d.rule ≡ Rule.Unsealed) × (d.key ≡ key_at [] []) × (d.store ≡ (pair_in stores.now).new_number)) }
{
    let pk = Text::of(alloc, "")?;
    let rk = Text::of(alloc, "")?;
    Ok(Damage {
        store: stores.new.number(),
        key: Key { pk, rk },
        rule: Rule::Unsealed,
    })
}

const RULES: [Rule; 8] = [
    Rule::Forms,
    Rule::Marked,
    Rule::UseOld,
    Rule::PreferOld,
    Rule::PreferNew,
    Rule::NoOld,
    Rule::Tags,
    Rule::Unsealed,
];

/// The first place where two stores fail a rule of a sound pair: by the rules in their order, then by
/// the least key, and at equal keys old before new. `None` comes exactly where they are a sound pair.
/// The one error is want of memory.
pub fn first_damage(alloc: Global, stores: &Holdings) -> Result<Option<Damage>, NoMemory>
    ensures { IfOk result (λ d. MatchOption d (IsSound (pair_in stores.now)) (IsDamage (pair_in stores.now))) }
{
    let repeats = Repeats::of(alloc, stores)?;
    if let Some(damage) = first_by_rows(alloc, stores, &repeats, &RULES)? {
        return Ok(Some(damage));
    }
    if stores.new.is_sealed() {
        let damage = sealed_damage(alloc, stores)?;
        return Ok(Some(damage));
    }
    Ok(None)
}
