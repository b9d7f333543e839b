ghost use Rattle.std.specs.Prelude.{◌≡◌, [], ◌∷◌, ◌++◌, codes, IfOk, OnOk};
ghost use Rattle.std.specs.Option.{option_map};
ghost use Rattle.serde_json.specs.Find.{as_array};
ghost use Rattle.serde_json.specs.View.{view, items_view, members_view};
ghost use Rattle.json_shapes.specs.Reading.{made, or_bad_shape};
ghost use Rattle.json_shapes.specs.Members.{required};
ghost use Rattle.json_requests.specs.Filters.{number_text, sole_item, one_item, item_pair, viewed_pair, both_of, two_items, none_of, empty_list, number_condition, between, text_condition, blank, not_blank, of_type, of_type_read, boolean_condition};

use crate::condition_type::{ConditionType, ConditionTypes, NumberTest, TextTest};
use crate::whole_text::number_of;
use basic_filter::Condition;
use cell_value::{NoMemory, Text};
use json_shapes::{
    AnyText, Fields, ObjectOf, Read, Shape, ShapeFault, Word, as_text, both, demanded, optional,
    required,
};
use serde_json::{Map, Value as Json};
use std::alloc::Global;

/// A text that is a number.
#[derive(Clone, Copy)]
struct NumberText;

impl Shape for NumberText {
    type Output = i64;

    ghost shape = { λ _. number_text };

    fn read(&self, _alloc: Global, value: Json) -> Result<Read<i64>, NoMemory> {
        match as_text(value) {
            Some(text) => Ok(number_of(text.as_str())),
            None => Ok(Err(ShapeFault::BadShape)),
        }
    }
}

/// ConditionValue
#[derive(Clone, Copy)]
struct ValueMembers<S>(S);

impl<S: Shape> Fields for ValueMembers<S> {
    type Output = S::Output;

    ghost fields = { λ v. required (codes "userEnteredValue") (S.shape v.0) };

    fn take(
        &self,
        alloc: Global,
        members: &mut Map<String, Json>,
    ) -> Result<Read<S::Output>, NoMemory> {
        required(alloc, members, "userEnteredValue", &self.0)
    }
}

/// The values of a list.
fn as_list(value: Json) -> Option<Vec<Json>>
    ensures { option_map (λ values. items_view values.items) result ≡ as_array (view value) }
{
    match value {
        Json::Array(values) => Some(values),
        Json::Null | Json::Bool(_) | Json::Number(_) | Json::String(_) | Json::Object(_) => None,
    }
}

/// A list of one value.
#[derive(Clone, Copy)]
struct OneItem<S>(S);

impl<S: Shape> Shape for OneItem<S> {
    type Output = S::Output;

    ghost shape = { λ o. one_item (S.shape o.0) };

    fn read(&self, alloc: Global, value: Json) -> Result<Read<S::Output>, NoMemory> {
        match as_list(value) {
            Some(values) => demanded(alloc, sole_item(values), &self.0),
            None => Ok(Err(ShapeFault::BadShape)),
        }
    }
}

/// The value of a list of one.
fn sole_item(mut values: Vec<Json>) -> Option<Json>
    ensures { option_map view result ≡ sole_item (items_view values.items) }
{
    match values.pop() {
        Some(value) => alone(values.as_slice(), value),
        None => None,
    }
}

/// The last value of a list, where none stands before it.
fn alone(front: &[Json], last: Json) -> Option<Json>
    ensures { option_map view result ≡ sole_item (items_view (front.now ++ last ∷ [])) }
{
    match front {
        [] => Some(last),
        [_, ..] => None,
    }
}

/// A list of two values.
#[derive(Clone, Copy)]
struct TwoItems<S>(S);

impl<S: Shape> Shape for TwoItems<S> {
    type Output = (S::Output, S::Output);

    ghost shape = { λ t. two_items (S.shape t.0) };

    fn read(&self, alloc: Global, value: Json) -> Result<Read<(S::Output, S::Output)>, NoMemory> {
        match as_list(value) {
            Some(values) => both_of(alloc, &self.0, item_pair(values)),
            None => Ok(Err(ShapeFault::BadShape)),
        }
    }
}

/// The values of a list of two.
fn item_pair(mut values: Vec<Json>) -> Option<(Json, Json)>
    ensures { option_map viewed_pair result ≡ item_pair (items_view values.items) }
{
    match values.pop() {
        Some(last) => match sole_item(values) {
            Some(first) => Some((first, last)),
            None => None,
        },
        None => None,
    }
}

/// Two values of a form, if they are there.
fn both_of<S: Shape>(
    alloc: Global,
    shape: &S,
    values: Option<(Json, Json)>,
) -> Result<Read<(S::Output, S::Output)>, NoMemory>
    ensures { IfOk result (λ read. read ≡ both_of (S.shape shape.now) (option_map viewed_pair values)) }
{
    match values {
        Some((first, last)) => {
            let first = shape.read(alloc, first)?;
            let last = shape.read(alloc, last)?;
            Ok(both(first, last))
        }
        None => Ok(Err(ShapeFault::BadShape)),
    }
}

/// An empty list.
#[derive(Clone, Copy)]
struct EmptyList;

impl Shape for EmptyList {
    type Output = ();

    ghost shape = { λ _. empty_list };

    fn read(&self, _alloc: Global, value: Json) -> Result<Read<()>, NoMemory> {
        match as_list(value) {
            Some(values) => Ok(if_empty(values.as_slice())),
            None => Ok(Err(ShapeFault::BadShape)),
        }
    }
}

/// Nothing, where the list has no value.
fn if_empty(values: &[Json]) -> Read<()>
    ensures { result ≡ or_bad_shape (none_of (items_view values.now)) }
{
    match values {
        [] => Ok(()),
        [_, ..] => Err(ShapeFault::BadShape),
    }
}

/// BooleanCondition
#[derive(Clone, Copy)]
pub(crate) struct ConditionMembers;

impl Fields for ConditionMembers {
    type Output = Condition;

    ghost fields = { λ _. boolean_condition };

    fn take(
        &self,
        alloc: Global,
        members: &mut Map<String, Json>,
    ) -> Result<Read<Condition>, NoMemory> {
        let kind = required(alloc, members, "type", &Word(ConditionTypes))?;
        take_values(alloc, members, kind)
    }
}

/// Takes the values of a condition whose type was read.
fn take_values(
    alloc: Global,
    members: &mut Map<String, Json>,
    kind: Read<ConditionType>,
) -> Result<Read<Condition>, NoMemory>
    ensures read { IfOk result (λ read. read ≡ (of_type_read kind (members_view members.old.entries)).read) }
    ensures left { OnOk result (members_view members.new.entries
        ≡ (of_type_read kind (members_view members.old.entries)).left) }
{
    match kind {
        Ok(kind) => take_typed(alloc, members, kind),
        Err(fault) => Ok(Err(fault)),
    }
}

/// Takes the values of a condition of that type.
fn take_typed(
    alloc: Global,
    members: &mut Map<String, Json>,
    kind: ConditionType,
) -> Result<Read<Condition>, NoMemory>
    ensures read { IfOk result (λ read. read ≡ (of_type kind (members_view members.old.entries)).read) }
    ensures left { OnOk result (members_view members.new.entries
        ≡ (of_type kind (members_view members.old.entries)).left) }
{
    match kind {
        ConditionType::Number(test) => {
            let one = OneItem(ObjectOf(ValueMembers(NumberText)));
            let number = required(alloc, members, "values", &one)?;
            Ok(number_condition(test, number))
        }
        ConditionType::NumberBetween => {
            let two = TwoItems(ObjectOf(ValueMembers(NumberText)));
            let ends = required(alloc, members, "values", &two)?;
            Ok(between(ends))
        }
        ConditionType::Text(test) => {
            let one = OneItem(ObjectOf(ValueMembers(AnyText)));
            let text = required(alloc, members, "values", &one)?;
            Ok(text_condition(test, text))
        }
        ConditionType::Blank => {
            let none = optional(alloc, members, "values", &EmptyList)?;
            Ok(blank(none))
        }
        ConditionType::NotBlank => {
            let none = optional(alloc, members, "values", &EmptyList)?;
            Ok(not_blank(none))
        }
    }
}

/// The comparison with a number.
fn number_condition(test: NumberTest, number: Read<i64>) -> Read<Condition>
    ensures { result ≡ made (number_condition test) number }
{
    let number = number?;
    Ok(match test {
        NumberTest::Greater => Condition::NumberGreater(number),
        NumberTest::GreaterThanEq => Condition::NumberGreaterThanEq(number),
        NumberTest::Less => Condition::NumberLess(number),
        NumberTest::LessThanEq => Condition::NumberLessThanEq(number),
        NumberTest::Eq => Condition::NumberEq(number),
        NumberTest::NotEq => Condition::NumberNotEq(number),
    })
}

/// The comparison with two numbers.
fn between(ends: Read<(i64, i64)>) -> Read<Condition>
    ensures { result ≡ made between ends }
{
    let (first, last) = ends?;
    Ok(Condition::NumberBetween(first, last))
}

/// The comparison with a text.
fn text_condition(test: TextTest, text: Read<Text>) -> Read<Condition>
    ensures { result ≡ made (text_condition test) text }
{
    let text = text?;
    Ok(match test {
        TextTest::Contains => Condition::TextContains(text),
        TextTest::NotContains => Condition::TextNotContains(text),
        TextTest::StartsWith => Condition::TextStartsWith(text),
        TextTest::EndsWith => Condition::TextEndsWith(text),
        TextTest::Eq => Condition::TextEq(text),
    })
}

/// That nothing is shown.
fn blank(none: Read<Option<()>>) -> Read<Condition>
    ensures { result ≡ made blank none }
{
    let _ = none?;
    Ok(Condition::Blank)
}

/// That something is shown.
fn not_blank(none: Read<Option<()>>) -> Read<Condition>
    ensures { result ≡ made not_blank none }
{
    let _ = none?;
    Ok(Condition::NotBlank)
}
