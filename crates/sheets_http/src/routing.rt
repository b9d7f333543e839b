ghost use Rattle.std.specs.Prelude.{◌≡◌, [], ◌∷◌, IfOk, IsTrue, ◌↔◌, IsUtf8, MatchOption, OnSome};
ghost use Rattle.std.specs.Cow.{cow_str_bytes};
ghost use Rattle.percent_encoding.specs.Percent.{percent_decode};
ghost use Rattle.sheets_http.specs.Routes.{FitsSegment, raw_segments, path_of, query_of, GivesLast, IsRoute};
ghost use Rattle.sheets_http.specs.Routing.{IsPlain, ArePlain, raw_at, FitsOn, FitsCall, FindsCall, RoutesCall};

use crate::query::{fits_query, members_of};
use crate::split::{split_first, split_once};
use crate::table::Segment;
use crate::{Route, RouteFault, Verb};
use cell_value::{NoMemory, Text};
use percent_encoding::{DecodeError, percent_decode_str};
use std::alloc::Global;
use std::borrow::CowStr;

/// The segments of a path that the caller gives, as they stand there; empty where the path has
/// none.
#[derive(Clone, Copy, Debug)]
pub(crate) struct Fitted<'a> {
    /// The id of the spreadsheet.
    pub(crate) book: &'a str,
    /// The range, or the id of an item of metadata.
    pub(crate) last: &'a str,
}

impl<'a> Fitted<'a> {
    const NONE: Fitted<'static> = Fitted { book: "", last: "" };

    /// The same with the segment at a place.
    fn with(self, place: usize, raw: &'a str) -> Fitted<'a>
        ensures book { result.book.now ≡ raw_at 3 place (raw.now ∷ []) self.entry.book.now }
        ensures last { result.last.now ≡ raw_at 5 place (raw.now ∷ []) self.entry.last.now }
    {
        Fitted {
            book: if place == 3 { raw } else { self.book },
            last: if place == 5 { raw } else { self.last },
        }
    }
}

/// The call that a request with that method and that target is, with the parts of its path and the
/// members of its query.
///
/// # Errors
///
/// [`RouteFault::NoRoute`] where no line of the table has the method and the path, else
/// [`RouteFault::BadQuery`] where the call doesn't take the query; [`RouteFault::NoMemory`] where
/// memory runs out.
pub fn route(alloc: Global, method: &str, target: &str) -> Result<Route, RouteFault>
    ensures { IsRoute method.now target.now result }
{
    let (path, query) = split_target(target);
    let plain = is_plain(path);
    match call_of(alloc, &Verb::ALL, method, path, plain) {
        Ok(Some((verb, fitted))) => route_call(alloc, verb, fitted, plain, query),
        Ok(None) => Err(RouteFault::NoRoute),
        Err(NoMemory) => Err(RouteFault::NoMemory),
    }
}

/// The path and the query of a target.
fn split_target(target: &str) -> (&str, &str)
    ensures path { result.0.now ≡ path_of target.now }
    ensures query { result.1.now ≡ query_of target.now }
{
    split_first(target, b'?')
}

/// Whether a path has no escape, as most have none.
fn is_plain(path: &str) -> bool
    ensures { IsTrue result → IsPlain path.now }
{
    !path.contains('%')
}

/// The first of these calls that a request is, with the segments of its path.
fn call_of<'a>(
    alloc: Global,
    verbs: &[Verb],
    method: &str,
    path: &'a str,
    plain: bool,
) -> Result<Option<(Verb, Fitted<'a>)>, NoMemory>
    requires { IsTrue plain → IsPlain path.now }
    ensures { IfOk result (λ found. FindsCall verbs.now method.now path.now found) }
{
    for verb in verbs {
        if let Some(fitted) = fit_call(alloc, *verb, method, path, plain)? {
            return Ok(Some((*verb, fitted)));
        }
    }
    Ok(None)
}

/// The segments of a path before its verb, where a request is that call.
fn fit_call<'a>(
    alloc: Global,
    verb: Verb,
    method: &str,
    path: &'a str,
    plain: bool,
) -> Result<Option<Fitted<'a>>, NoMemory>
    requires { IsTrue plain → IsPlain path.now }
    ensures { IfOk result (λ found. FitsCall verb method.now path.now found) }
{
    if method != verb.method() {
        return Ok(None);
    }
    let line = verb.line();
    match path.strip_suffix(line.verb) {
        Some(before) => fit_segments(alloc, line.path, before, plain),
        None => Ok(None),
    }
}

/// The first segment of a path, and what stands behind its slash.
fn split_segment(path: &str) -> (&str, Option<&str>)
    ensures { MatchOption result.1 (raw_segments path.now ≡ result.0.now ∷ [])
        (λ rest. raw_segments path.now ≡ result.0.now ∷ raw_segments rest.now) }
{
    match split_once(path, b'/') {
        Some((segment, rest)) => (segment, Some(rest)),
        None => (path, None),
    }
}

/// The segments of a path that the caller gives, where each of all of them fits.
fn fit_segments<'a>(
    alloc: Global,
    segments: &[Segment],
    path: &'a str,
    plain: bool,
) -> Result<Option<Fitted<'a>>, NoMemory>
    requires { IsTrue plain → ArePlain (raw_segments path.now) }
    ensures { IfOk result (λ found. FitsOn segments.now (raw_segments path.now) 0 [] [] found) }
{
    let mut fitted = Fitted::NONE;
    let mut rest = Some(path);
    for (place, segment) in segments.iter().enumerate() {
        let Some(path) = rest else {
            return Ok(None);
        };
        let (raw, behind) = split_segment(path);
        if !fits_segment(alloc, *segment, raw, plain)? {
            return Ok(None);
        }
        fitted = fitted.with(place, raw);
        rest = behind;
    }
    match rest {
        Some(_) => Ok(None),
        None => Ok(Some(fitted)),
    }
}

/// Whether a raw segment fits. It takes memory only where the segment has escapes.
fn fits_segment(alloc: Global, segment: Segment, raw: &str, plain: bool) -> Result<bool, NoMemory>
    requires { IsTrue plain → IsPlain raw.now }
    ensures { IfOk result (λ fits. IsTrue fits ↔ FitsSegment segment raw.now) }
{
    if plain {
        return Ok(segment.fits(raw));
    }
    match decoded(alloc, raw)? {
        Some(text) => Ok(segment.fits(text.as_str())),
        None => Ok(false),
    }
}

/// A raw segment, decoded, where that is UTF-8. It takes memory only where the segment has escapes.
fn decoded(alloc: Global, raw: &str) -> Result<Option<CowStr<'_, Global>>, NoMemory>
    ensures text { IfOk result (λ found. MatchOption found (¬ (IsUtf8 (percent_decode raw.now)))
        (λ text. cow_str_bytes text ≡ percent_decode raw.now)) }
    ensures utf8 { IfOk result (λ found. OnSome found (IsUtf8 (percent_decode raw.now))) }
{
    match percent_decode_str(raw).decode_utf8(alloc) {
        Ok(text) => Ok(Some(text)),
        Err(DecodeError::Utf8(_)) => Ok(None),
        Err(DecodeError::OutOfMemory) => Err(NoMemory),
    }
}

/// The route of a call with these segments.
fn route_call(
    alloc: Global,
    verb: Verb,
    fitted: Fitted<'_>,
    plain: bool,
    query: &str,
) -> Result<Route, RouteFault>
    requires book { IsUtf8 (percent_decode fitted.book.now) }
    requires last { IsUtf8 (percent_decode fitted.last.now) }
    requires plain_book { IsTrue plain → IsPlain fitted.book.now }
    requires plain_last { IsTrue plain → IsPlain fitted.last.now }
    ensures { RoutesCall verb fitted.entry query.now result }
{
    let query = members_of(alloc, query)?;
    if !fits_query(verb, query.as_slice()) {
        return Err(RouteFault::BadQuery);
    }
    let book = decoded_text(alloc, fitted.book, plain)?;
    let last = decoded_text(alloc, fitted.last, plain)?;
    let none = Text::of(String::new(alloc));
    let (range, id) = split_last(verb, last, none);
    Ok(Route {
        verb,
        book,
        range,
        id,
        query,
    })
}

/// The last part of a path as a range or as the id of an item of metadata, with nothing as the
/// other.
fn split_last(verb: Verb, last: Text, none: Text) -> (Text, Text)
    requires { none ≡ [] }
    ensures { GivesLast verb last result.0 result.1 }
{
    if verb == Verb::Item {
        (none, last)
    } else {
        (last, none)
    }
}

/// A segment that is UTF-8 where it is decoded, decoded.
fn decoded_text(alloc: Global, raw: &str, plain: bool) -> Result<Text, NoMemory>
    requires plain { IsTrue plain → IsPlain raw.now }
    requires utf8 { IsUtf8 (percent_decode raw.now) }
    ensures { IfOk result (λ text. text ≡ percent_decode raw.now) }
{
    if plain {
        return Ok(Text::of(String::from_str(alloc, raw)?));
    }
    match decoded(alloc, raw)? {
        Some(text) => Ok(Text::of(text.into_owned(alloc)?)),
        None => unreachable!(),
    }
}
