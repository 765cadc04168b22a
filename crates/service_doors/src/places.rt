//! Where a socket is, and who may enter by it: what the words of the command line say of that.

ghost use Rattle.door_names.specs.Names.{is_name};
ghost use Rattle.service_doors.specs.Places.{IsMode, IsPlain, mode_for};
ghost use Rattle.std.specs.Prelude.{◌≡◌, IfSome, true};

use door_names::{is_name, is_path};

/// Who may enter by a socket: the user of this number, and the group of that one where one is named.
#[derive(Clone, Copy, Debug, PartialEq, Eq)]
pub struct Owner {
    pub user: u32,
    pub group: Option<u32>,
}

/// Where a socket is, and whose.
#[derive(Clone, Copy, Debug, PartialEq, Eq)]
pub enum Place<'a> {
    /// In the driver's folder, under the name of its door; whose it is, where that was said.
    Own(Option<Owner>),
    /// At this path, in a folder that is there.
    At(&'a str),
}

/// A door for one principal.
#[derive(Clone, Copy, Debug, PartialEq, Eq, Drop)]
pub struct Plan<'a> {
    pub principal: u32,
    /// The name of the principal, as the operator gave it.
    pub name: &'a str,
    pub place: Place<'a>,
}

/// A mode as `chmod` has it: up to four digits of base 8.
pub fn mode_in(text: &str) -> Option<u32>
    ensures { IfSome result IsMode }
{
    let mode = u32::from_str_radix(text, 8).ok()?;
    if text.len() <= 4 && mode <= 0o777 {
        Some(mode)
    } else {
        None
    }
}

/// What `UID` or `UID:GID` says.
fn owner_in(text: &str) -> Option<Owner> {
    match text.split_once(':') {
        Some((user, group)) => Some(Owner {
            user: user.parse().ok()?,
            group: Some(group.parse().ok()?),
        }),
        None => Some(Owner {
            user: text.parse().ok()?,
            group: None,
        }),
    }
}

/// Where a word `UID`, `UID:GID` or `PATH` says that a door is. A path has a `/`.
fn place_of(word: &str) -> Option<Place<'_>>
    ensures { IfSome result IsPlain }
{
    if !word.contains('/') {
        return Some(Place::Own(Some(owner_in(word)?)));
    }
    if !is_path(word) {
        return None;
    }
    Some(Place::At(word))
}

/// What a word `NAME`, `NAME=UID`, `NAME=UID:GID` or `NAME=PATH` says: the name of a principal, and where its door is. `None`
/// also where that name names no door, or the path is that of none.
pub fn place_in(word: &str) -> Option<(&str, Place<'_>)>
    ensures name { IfSome result (λ said. is_name said.0.now ≡ true) }
    ensures place { IfSome result (λ said. IsPlain said.1) }
{
    let (name, place) = match word.split_once('=') {
        Some((name, place)) => (name, place_of(place)?),
        None => (word, Place::Own(None)),
    };
    if !is_name(name) {
        return None;
    }
    Some((name, place))
}

/// The mode of a socket in the driver's folder: its owner may enter, and its group where one is named.
pub(crate) fn mode_of(owner: Option<Owner>) -> u32
    ensures { result ≡ mode_for owner }
{
    match owner {
        Some(Owner { group: Some(_), .. }) => 0o660,
        _ => 0o600,
    }
}
