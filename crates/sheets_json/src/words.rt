ghost use Rattle.std.specs.Prelude.{◌≡◌, IfOk};
ghost use Rattle.std.specs.Option.{option_map};
ghost use Rattle.sheets_json.specs.Words.{insert_named, truth_named, query_value, query_values, query_word};

use crate::InsertData;
use cell_value::{Duplicate, Items, NoMemory, Text};
use json_shapes::Words;
use std::alloc::Global;

/// InsertDataOption (Google Sheets API v4 reference).
#[derive(Clone, Copy)]
pub(crate) struct InsertOption;

impl Words for InsertOption {
    type Output = InsertData;

    ghost table = { λ _. insert_named };

    fn named(&self, name: &str) -> Option<InsertData> {
        match name {
            "OVERWRITE" => Some(InsertData::Overwrite),
            "INSERT_ROWS" => Some(InsertData::InsertRows),
            _ => None,
        }
    }
}

/// The truth values of a query.
#[derive(Clone, Copy)]
pub(crate) struct TruthWord;

impl Words for TruthWord {
    type Output = bool;

    ghost table = { λ _. truth_named };

    fn named(&self, name: &str) -> Option<bool> {
        match name {
            "true" => Some(true),
            "false" => Some(false),
            _ => None,
        }
    }
}

/// What a query's first member of that name says by the words.
pub(crate) fn query_word<W: Words>(
    words: &W,
    query: &[(Text, Text)],
    name: &str,
) -> Option<W::Output>
    ensures { result ≡ query_word (W.table words.now) name.now query.now }
{
    match query_value(query, name) {
        Some(word) => words.named(word),
        None => None,
    }
}

/// The value of a query's first member of that name.
fn query_value<'a>(query: &'a [(Text, Text)], name: &str) -> Option<&'a str>
    ensures { option_map (λ value. value.now) result ≡ query_value name.now query.now }
{
    for member in query {
        if member.0.as_str() == name {
            return Some(member.1.as_str());
        }
    }
    None
}

/// Copies of the values of a query's members of that name, in order.
pub(crate) fn query_values(
    alloc: Global,
    query: &[(Text, Text)],
    name: &str,
) -> Result<Items<Text>, NoMemory>
    ensures { IfOk result (λ values. values ≡ query_values name.now query.now) }
{
    let mut values = Vec::new(alloc);
    for member in query {
        if member.0.as_str() == name {
            values.push(member.1.duplicate()?)?;
        }
    }
    Ok(Items::of(values))
}
