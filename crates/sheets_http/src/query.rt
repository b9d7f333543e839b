ghost use Rattle.std.specs.Prelude.{◌≡◌, IfOk, IfSome};
ghost use Rattle.std.specs.List.{list_any, list_all};
ghost use Rattle.sheets_http.specs.Table.{name_of};
ghost use Rattle.sheets_http.specs.Queries.{form_text, member_of, members_of, is_named, is_admitted, takes_member, has_no_name_twice, has_required, fits_query};

use crate::Verb;
use crate::split::split_first;
use crate::table::{COMMON, Member};
use cell_value::{Items, NoMemory, Text};
use form_urlencoded::decode;
use memchr::memchr2;
use std::alloc::Global;

/// The names and the values of a query's members, in order.
pub(crate) fn members_of(alloc: Global, query: &str) -> Result<Items<(Text, Text)>, NoMemory>
    ensures { IfOk result (λ members. members ≡ members_of query.now) }
{
    let mut members = Vec::new(alloc);
    let mut rest = query;
    while !rest.is_empty() {
        let (piece, behind) = split_first(rest, b'&');
        rest = behind;
        if piece.is_empty() {
            continue;
        }
        members.push(member_of(alloc, piece)?)?;
    }
    Ok(Items::of(members))
}

/// The name and the value of a member.
fn member_of(alloc: Global, piece: &str) -> Result<(Text, Text), NoMemory>
    ensures { IfOk result (λ member. member ≡ member_of piece.now) }
{
    let (name, value) = split_first(piece, b'=');
    Ok((form_text(alloc, name)?, form_text(alloc, value)?))
}

/// A name or a value, decoded.
fn form_text(alloc: Global, raw: &str) -> Result<Text, NoMemory>
    ensures { IfOk result (λ text. text ≡ form_text raw.now) }
{
    let text = match plain_text(raw) {
        Some(text) => String::from_str(alloc, text)?,
        None => decode(alloc, raw.as_bytes())?.into_owned(alloc)?,
    };
    Ok(Text::of(text))
}

/// A name or a value that stands for itself, as most do: it has no `+` and no `%`.
fn plain_text(raw: &str) -> Option<&str>
    ensures { IfSome result (λ text. text.now ≡ form_text raw.now) }
{
    match memchr2(b'+', b'%', raw.as_bytes()) {
        Some(_) => None,
        None => Some(raw),
    }
}

/// Whether a call takes a query with these members.
pub(crate) fn fits_query(verb: Verb, given: &[(Text, Text)]) -> bool
    ensures { result ≡ fits_query verb given.now }
{
    takes_all(verb, given) && has_no_name_twice(given) && has_required(verb, given)
}

/// Whether a call has such members, with such values.
fn takes_all(verb: Verb, given: &[(Text, Text)]) -> bool
    ensures { result ≡ list_all (takes_member verb) given.now }
{
    given.iter().all(|member| takes_member(verb, member))
}

/// Whether a call has such a member, with such a value.
fn takes_member(verb: Verb, given: &(Text, Text)) -> bool
    ensures { result ≡ takes_member verb given.now }
{
    let line = verb.line();
    is_admitted(line.required, given)
        || is_admitted(line.optional, given)
        || is_admitted(COMMON, given)
}

/// Whether it is one of these, with a value that it may have.
fn is_admitted(members: &[Member], given: &(Text, Text)) -> bool
    ensures { result ≡ is_admitted members.now given.now }
{
    members.iter().any(|member| is_named(member.name(), given) && member.allows(given.1.as_str()))
}

/// Whether a member has the name.
fn is_named(name: &str, member: &(Text, Text)) -> bool
    ensures { result ≡ is_named name.now member.now }
{
    member.0.as_str() == name
}

/// Whether some member has the name.
fn has_name(given: &[(Text, Text)], name: &str) -> bool
    ensures { result ≡ list_any (is_named name.now) given.now }
{
    given.iter().any(|member| is_named(name, member))
}

/// Whether no name stands twice but that of the ranges.
fn has_no_name_twice(given: &[(Text, Text)]) -> bool
    ensures { result ≡ has_no_name_twice given.now }
{
    for (at, member) in given.iter().enumerate() {
        if !is_named(Member::Ranges.name(), member)
            && has_name(&given[at + 1..], member.0.as_str())
        {
            return false;
        }
    }
    true
}

/// Whether each member is there that the call requires.
fn has_required(verb: Verb, given: &[(Text, Text)]) -> bool
    ensures { result ≡ has_required verb given.now }
{
    verb.line()
        .required
        .iter()
        .all(|member| has_name(given, member.name()))
}
