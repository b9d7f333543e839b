ghost use Rattle.std.specs.Prelude.{◌≡◌, Some, string_bytes, IfOk, OnOk};
ghost use Rattle.std.specs.Option.{option_map};
ghost use Rattle.serde_json.specs.View.{view, members_view};
ghost use Rattle.json_shapes.specs.Masks.{member_of, states, is_every, is_unstated, is_unlisted, names_unstated, names_unlisted, judged, mask, takes, taken, masked};

use crate::ShapeFault;
use crate::fault::{Read, both};
use crate::members::{demanded, is_null, required, take_given};
use crate::shape::Shape;
use crate::single::as_text;
use cell_value::{NoMemory, Text};
use serde_json::{Map, Value as Json};
use std::alloc::Global;

/// The paths that a mask may name.
pub trait Paths {
    ghost use Rattle.std.specs.Prelude.{◌≡◌};
    ghost use Rattle.json_shapes.specs.Masks.{PathList};

    ghost listed: { Self → PathList };

    /// Whether the body states the path; None where it isn't listed.
    fn states(&self, path: &str) -> Option<bool>
        ensures { result ≡ listed self.now path.now };
}

/// The paths that a mask may name, by the body that is sent with it.
pub trait BodyPaths: Paths {
    ghost use Rattle.std.specs.Prelude.{◌≡◌, Option};
    ghost use Rattle.std.specs.Option.{option_map};
    ghost use Rattle.serde_json.specs.Data.{Data};
    ghost use Rattle.serde_json.specs.View.{view};

    ghost of_body: { Option Data → Self };

    /// The paths, by a body that may be absent.
    fn of(body: &Option<Json>) -> Self
        ensures { result ≡ of_body (option_map view body.now) };
}

/// Whether a body has a member that isn't null.
pub fn states(body: &Option<Json>, name: &str) -> bool
    ensures { result ≡ states name.now (option_map view body.now) }
{
    match body {
        Some(value) => has_member(value, name),
        None => false,
    }
}

/// Whether a body has a member with a member that isn't null.
pub fn states_within(body: &Option<Json>, outer: &str, name: &str) -> bool
    ensures { result ≡ states name.now (member_of outer.now (option_map view body.now)) }
{
    match body {
        Some(value) => has_within(value, outer, name),
        None => false,
    }
}

/// Whether a value has a member with a member that isn't null.
fn has_within(value: &Json, outer: &str, name: &str) -> bool
    ensures { result ≡ states name.now (member_of outer.now (Some (view value.now))) }
{
    match given_member(value, outer) {
        Some(member) => has_member(member, name),
        None => false,
    }
}

/// Whether a value has a member that isn't null.
pub fn has_member(value: &Json, name: &str) -> bool
    ensures { result ≡ states name.now (Some (view value.now)) }
{
    match given_member(value, name) {
        Some(_) => true,
        None => false,
    }
}

/// A member of a value, unless it is null.
pub fn given_member<'a>(value: &'a Json, name: &str) -> Option<&'a Json>
    ensures { option_map (λ json. view json.now) result ≡ member_of name.now (Some (view value.now)) }
{
    match value.get(name) {
        Some(member) => { if is_null(member) { None } else { Some(member) } }
        None => None,
    }
}

/// A mask of such paths.
#[derive(Clone, Copy)]
pub struct Mask<P>(pub P);

impl<P: Paths> Shape for Mask<P> {
    type Output = Text;

    ghost shape = { λ m. mask (P.listed m.0) };

    fn read(&self, _alloc: Global, value: Json) -> Result<Read<Text>, NoMemory> {
        match as_text(value) {
            Some(mask) => Ok(judged(&self.0, mask)),
            None => Ok(Err(ShapeFault::BadShape)),
        }
    }
}

/// The mask, where each of its paths may be named.
fn judged<P: Paths>(paths: &P, mask: String) -> Read<Text>
    ensures { result ≡ judged (P.listed paths.now) (string_bytes mask) }
{
    if names_unstated(paths, mask.as_str()) {
        Err(ShapeFault::BadShape)
    } else if names_unlisted(paths, mask.as_str()) {
        Err(ShapeFault::Unsupported)
    } else {
        Ok(Text::of(mask))
    }
}

/// Whether a path is listed and isn't stated.
fn names_unstated<P: Paths>(paths: &P, mask: &str) -> bool
    ensures { result ≡ names_unstated (P.listed paths.now) mask.now }
{
    mask.split(',').any(|path| is_unstated(paths.states(path)))
}

/// Whether a listed path isn't stated.
fn is_unstated(stated: Option<bool>) -> bool
    ensures { result ≡ is_unstated stated }
{
    match stated {
        Some(stated) => !stated,
        None => false,
    }
}

/// Whether a path isn't listed.
fn names_unlisted<P: Paths>(paths: &P, mask: &str) -> bool
    ensures { result ≡ names_unlisted (P.listed paths.now) mask.now }
{
    mask.split(',').any(|path| is_unlisted(paths, path))
}

/// Whether the path isn't listed.
fn is_unlisted<P: Paths>(paths: &P, path: &str) -> bool
    ensures { result ≡ is_unlisted (P.listed paths.now) path.now }
{
    !(is_every(path) || paths.states(path).is_some())
}

/// Whether it is every path of the list that the body states.
fn is_every(path: &str) -> bool
    ensures { result ≡ is_every path.now }
{
    path == "*"
}

/// Whether the mask takes the path.
pub fn takes(mask: &str, path: &str) -> bool
    ensures { result ≡ takes mask.now path.now }
{
    mask.split(',')
        .any(|other| other == path || is_every(other))
}

/// The member of the body, where the mask takes its path.
pub fn taken<T: Drop>(mask: &str, path: &str, value: Option<T>) -> Option<T>
    ensures { result ≡ taken mask.now path.now value }
{
    if takes(mask, path) { value } else { None }
}

/// A body under that name, and a mask of the paths that it states.
pub fn masked<S: Shape, P: BodyPaths + Drop>(
    alloc: Global,
    members: &mut Map<String, Json>,
    name: &str,
    shape: &S,
) -> Result<Read<(S::Output, Text)>, NoMemory>
    ensures read { IfOk result (λ read. read ≡ (masked name.now (S.shape shape.now)
        (λ body. P.listed (P.of_body body)) (members_view members.old.entries)).read) }
    ensures left { OnOk result (members_view members.new.entries ≡ (masked name.now (S.shape shape.now)
        (λ body. P.listed (P.of_body body)) (members_view members.old.entries)).left) }
{
    let body = take_given(members, name);
    let paths = P::of(&body);
    let read = demanded(alloc, body, shape)?;
    let mask = required(alloc, members, "fields", &Mask(paths))?;
    Ok(both(read, mask))
}
