ghost use Rattle.std.specs.Prelude.{◌≡◌, [], ◌∷◌, IfOk};
ghost use Rattle.std.specs.Fmt.{decimal, signed_decimal};
ghost use Rattle.serde_json.specs.Data.{put};
ghost use Rattle.serde_json.specs.View.{members_view};
ghost use Rattle.sheets_json.specs.Filters.{type_text, values_of, value_data, condition_data, criterion_data, criteria_members, put_criteria, filter_data};

use crate::writing::{ToJson, text_json, with, with_given, with_items, with_json};
use basic_filter::{Condition, Criterion, Filter};
use cell_value::{Items, NoMemory, Text};
use serde_json::{Map, Value as Json};
use std::alloc::Global;
use std::marker::Model;

/// The word of a condition's type.
fn type_text(condition: &Condition) -> &'static str
    ensures { result.now ≡ type_text condition.now }
{
    match condition {
        Condition::NumberGreater(_) => "NUMBER_GREATER",
        Condition::NumberGreaterThanEq(_) => "NUMBER_GREATER_THAN_EQ",
        Condition::NumberLess(_) => "NUMBER_LESS",
        Condition::NumberLessThanEq(_) => "NUMBER_LESS_THAN_EQ",
        Condition::NumberEq(_) => "NUMBER_EQ",
        Condition::NumberNotEq(_) => "NUMBER_NOT_EQ",
        Condition::NumberBetween(_, _) => "NUMBER_BETWEEN",
        Condition::TextContains(_) => "TEXT_CONTAINS",
        Condition::TextNotContains(_) => "TEXT_NOT_CONTAINS",
        Condition::TextStartsWith(_) => "TEXT_STARTS_WITH",
        Condition::TextEndsWith(_) => "TEXT_ENDS_WITH",
        Condition::TextEq(_) => "TEXT_EQ",
        Condition::Blank => "BLANK",
        Condition::NotBlank => "NOT_BLANK",
    }
}

/// A value that a condition compares with.
#[derive(Drop)]
struct ConditionValue {
    text: String,
}

impl Model for ConditionValue {
    ghost use Rattle.std.specs.Prelude.{List, ℕ, string_bytes};

    ghost Value = { List ℕ };

    ghost view = { λ v. string_bytes v.text };
}

impl ConditionValue {
    /// Its text.
    fn as_str(&self) -> &str
        ensures { result.now ≡ self.now }
    {
        self.text.as_str()
    }
}

impl ToJson for ConditionValue {
    ghost json_data = { value_data };

    fn to_json(&self, alloc: Global) -> Result<Json, NoMemory> {
        let value = text_json(alloc, self.as_str())?;
        let members = with_json(alloc, Map::new(alloc), "userEnteredValue", value)?;
        Ok(Json::Object(members))
    }
}

/// The number in decimal, as a value.
fn number_value(alloc: Global, number: i64) -> Result<ConditionValue, NoMemory>
    ensures { IfOk result (λ value. value ≡ signed_decimal number) }
{
    let text = format!(in alloc; "{number}")?;
    Ok(ConditionValue { text })
}

/// A number alone.
fn number_alone(alloc: Global, number: i64) -> Result<Items<ConditionValue>, NoMemory>
    ensures { IfOk result (λ values. values ≡ signed_decimal number ∷ []) }
{
    let mut values = Vec::with_capacity(alloc, 1)?;
    values.push(number_value(alloc, number)?)?;
    Ok(Items::of(values))
}

/// Two numbers.
fn two_numbers(alloc: Global, first: i64, last: i64) -> Result<Items<ConditionValue>, NoMemory>
    ensures { IfOk result (λ values. values ≡ signed_decimal first ∷ signed_decimal last ∷ []) }
{
    let mut values = Vec::with_capacity(alloc, 2)?;
    values.push(number_value(alloc, first)?)?;
    values.push(number_value(alloc, last)?)?;
    Ok(Items::of(values))
}

/// A text alone.
fn text_alone(alloc: Global, text: &Text) -> Result<Items<ConditionValue>, NoMemory>
    ensures { IfOk result (λ values. values ≡ text.now ∷ []) }
{
    let text = String::from_str(alloc, text.as_str())?;
    let mut values = Vec::with_capacity(alloc, 1)?;
    values.push(ConditionValue { text })?;
    Ok(Items::of(values))
}

/// What a condition compares with, its numbers in decimal.
fn values_of(alloc: Global, condition: &Condition) -> Result<Items<ConditionValue>, NoMemory>
    ensures { IfOk result (λ values. values ≡ values_of condition.now) }
{
    match condition {
        Condition::NumberGreater(number) => number_alone(alloc, *number),
        Condition::NumberGreaterThanEq(number) => number_alone(alloc, *number),
        Condition::NumberLess(number) => number_alone(alloc, *number),
        Condition::NumberLessThanEq(number) => number_alone(alloc, *number),
        Condition::NumberEq(number) => number_alone(alloc, *number),
        Condition::NumberNotEq(number) => number_alone(alloc, *number),
        Condition::NumberBetween(first, last) => two_numbers(alloc, *first, *last),
        Condition::TextContains(part) => text_alone(alloc, part),
        Condition::TextNotContains(part) => text_alone(alloc, part),
        Condition::TextStartsWith(start) => text_alone(alloc, start),
        Condition::TextEndsWith(end) => text_alone(alloc, end),
        Condition::TextEq(other) => text_alone(alloc, other),
        Condition::Blank | Condition::NotBlank => Ok(Items::of(Vec::new(alloc))),
    }
}

impl ToJson for Condition {
    ghost json_data = { condition_data };

    fn to_json(&self, alloc: Global) -> Result<Json, NoMemory> {
        let values = values_of(alloc, self)?;
        let members = with_items(alloc, Map::new(alloc), "values", &values)?;
        let name = text_json(alloc, type_text(self))?;
        let members = with_json(alloc, members, "type", name)?;
        Ok(Json::Object(members))
    }
}

impl ToJson for Criterion {
    ghost json_data = { criterion_data };

    fn to_json(&self, alloc: Global) -> Result<Json, NoMemory> {
        let members = with_items(alloc, Map::new(alloc), "hiddenValues", &self.hidden)?;
        let members = with_given(alloc, members, "condition", &self.condition)?;
        Ok(Json::Object(members))
    }
}

/// Criteria, each under its column in decimal.
fn criteria_members(alloc: Global, criteria: &[Criterion]) -> Result<Map<String, Json>, NoMemory>
    ensures { IfOk result (λ members. members_view members.entries ≡ criteria_members criteria.now) }
{
    let mut members = Map::new(alloc);
    for at in (0..criteria.len()).rev() {
        members = with_criterion(alloc, members, &criteria[at])?;
    }
    Ok(members)
}

/// The members of an object, with a criterion more.
fn with_criterion(
    alloc: Global,
    members: Map<String, Json>,
    criterion: &Criterion,
) -> Result<Map<String, Json>, NoMemory>
    ensures { IfOk result (λ more. members_view more.entries
        ≡ put (decimal criterion.now.column) (criterion_data criterion.now) (members_view members.entries)) }
{
    let column = criterion.column;
    let name = format!(in alloc; "{column}")?;
    with(alloc, members, name.as_str(), criterion)
}

/// The members of an object, with criteria, if there are some.
fn with_criteria(
    alloc: Global,
    members: Map<String, Json>,
    criteria: &Items<Criterion>,
) -> Result<Map<String, Json>, NoMemory>
    ensures { IfOk result (λ more. members_view more.entries
        ≡ put_criteria criteria.now (members_view members.entries)) }
{
    if criteria.as_slice().is_empty() {
        Ok(members)
    } else {
        let criteria = criteria_members(alloc, criteria.as_slice())?;
        with_json(alloc, members, "criteria", Json::Object(criteria))
    }
}

impl ToJson for Filter {
    ghost json_data = { filter_data };

    fn to_json(&self, alloc: Global) -> Result<Json, NoMemory> {
        let members = with(alloc, Map::new(alloc), "range", &self.area)?;
        let members = with_criteria(alloc, members, &self.criteria)?;
        Ok(Json::Object(members))
    }
}
