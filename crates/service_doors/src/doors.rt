//! The sockets of a driver that serves: one for each principal, whose owner and mode say who may enter.

ghost use Rattle.std.specs.Prelude.{◌≡◌, IfOk};

use crate::fault::{DoorRefusal, PlaceFault, at};
use crate::folders::{joined, keep_folder, look_along, make_hidden, parts_of, real_path};
use crate::places::{Owner, Place, Plan, mode_of};
use program_parts::Disk;
use std::fs::{self, Permissions};
use std::os::unix::fs::{FileTypeExt, PermissionsExt, lchown};
use std::os::unix::net::{UnixListener, UnixStream};

/// How many bytes the path of a socket has at most.
const LONGEST: usize = 107;

/// A socket, and for whom its clients act; that of operators acts for nobody.
#[derive(Drop)]
pub struct Door {
    pub(crate) listener: UnixListener,
    pub(crate) principal: Option<u32>,
    /// The name of the principal.
    pub(crate) name: String,
    path: String,
}

/// Where the socket of a door is to be: a folder, on whose path no link is, and a path in it.
#[derive(Drop)]
struct Spot {
    folder: String,
    path: String,
}

/// A socket gets its owner, where one is named. Whether it did.
fn give<F: Disk>(files: &F, hidden: &str, owner: Option<Owner>) -> bool {
    match owner {
        Some(owner) => lchown(files, hidden, Some(owner.user), owner.group).is_ok(),
        None => true,
    }
}

/// A socket gets its mode, and no call at it waits. Whether it did.
fn ready<F: Disk>(files: &F, hidden: &str, mode: u32, listener: &UnixListener) -> bool {
    listener.set_nonblocking(true).is_ok()
        && fs::set_permissions(files, hidden, Permissions::from_mode(mode)).is_ok()
}

/// A socket is made where nobody else may enter, and gets its mode and its owner there.
fn bind<F: Disk>(
    files: &F,
    hidden: &str,
    mode: u32,
    owner: Option<Owner>,
) -> Result<UnixListener, PlaceFault> {
    let Ok(listener) = UnixListener::bind(files, hidden) else {
        return Err(PlaceFault::NoSocket);
    };
    if !ready(files, hidden, mode, &listener) {
        return Err(PlaceFault::NoSocket);
    }
    if !give(files, hidden, owner) {
        return Err(PlaceFault::NotGiven);
    }
    Ok(listener)
}

/// Why a bound socket may not get its place, if it may not.
fn refusal_of<F: Disk>(files: &F, path: &str) -> Option<PlaceFault> {
    if path.len() > LONGEST {
        return Some(PlaceFault::NoSocket);
    }
    match fs::symlink_metadata(files, path) {
        Ok(found) if !found.file_type().is_socket() => Some(PlaceFault::Taken),
        Ok(_) if UnixStream::connect(files, path).is_ok() => Some(PlaceFault::Serves),
        _ => None,
    }
}

/// A bound socket gets its place, where no other driver serves.
fn put<F: Disk>(files: &F, hidden: &str, path: &str) -> Result<(), PlaceFault> {
    match refusal_of(files, path) {
        Some(fault) => Err(fault),
        None if fs::rename(files, hidden, path).is_ok() => Ok(()),
        None => Err(PlaceFault::NoSocket),
    }
}

/// A socket is made where nobody else may enter, and gets its place.
fn open_at<F: Disk>(
    files: &F,
    hidden: &str,
    path: &str,
    mode: u32,
    owner: Option<Owner>,
) -> Result<UnixListener, PlaceFault> {
    let listener = bind(files, hidden, mode, owner)?;
    put(files, hidden, path)?;
    Ok(listener)
}

/// A socket is made, in a folder where nobody else may write.
fn open_in<F: Disk>(
    files: &F,
    spot: &Spot,
    mode: u32,
    owner: Option<Owner>,
) -> Result<UnixListener, DoorRefusal> {
    let Spot { folder, path } = spot;
    look_along(files, folder.as_str(), false)?;
    let hidden = joined(files, folder.as_str(), ".new")?;
    let socket = joined(files, hidden.as_str(), "s")?;
    make_hidden(files, hidden.as_str(), socket.as_str())?;
    let opened = open_at(files, socket.as_str(), path.as_str(), mode, owner);
    let _ = fs::remove_file(files, socket.as_str());
    let _ = fs::remove_dir(files, hidden.as_str());
    match opened {
        Ok(listener) => Ok(listener),
        Err(fault) => Err(at(files.alloc(), fault, path.as_str())),
    }
}

/// Where the socket of a door is to be, which is in `folder` where no other place is named.
fn spot_of<F: Disk>(
    files: &F,
    folder: &str,
    name: &str,
    place: Place<'_>,
) -> Result<Spot, DoorRefusal> {
    let Place::At(path) = place else {
        let alloc = files.alloc();
        return Ok(Spot {
            folder: String::from_str(alloc, folder)?,
            path: format!(in alloc; "{folder}/{name}.sock")?,
        });
    };
    let (above, name) = parts_of(path);
    let folder = real_path(files, above)?;
    let path = joined(files, folder.as_str(), name)?;
    Ok(Spot { folder, path })
}

/// The mode and the owner of a door's socket. `mode` is that of one that is named by its path.
fn rights_of(place: Place<'_>, mode: u32) -> (u32, Option<Owner>) {
    match place {
        Place::Own(owner) => (mode_of(owner), owner),
        Place::At(_) => (mode, None),
    }
}

/// Opens a door.
fn open<F: Disk>(
    files: &F,
    folder: &str,
    name: &str,
    place: Place<'_>,
    principal: Option<u32>,
    mode: u32,
) -> Result<Door, DoorRefusal>
    ensures { IfOk result (λ door. door.principal ≡ principal) }
{
    let (mode, owner) = rights_of(place, mode);
    let spot = spot_of(files, folder, name, place)?;
    let name = String::from_str(files.alloc(), name)?;
    let listener = open_in(files, &spot, mode, owner)?;
    let Spot { folder: _, path } = spot;
    Ok(Door {
        listener,
        principal,
        name,
        path,
    })
}

/// Opens a door, which stands after those that are open then.
fn add<F: Disk>(files: &F, doors: &mut Vec<Door>, door: Door) -> Result<(), DoorRefusal> {
    match doors.push(door) {
        Ok(()) => Ok(()),
        Err(refused) => {
            let _ = fs::remove_file(files, refused.value.path.as_str());
            Err(DoorRefusal::NoMemory)
        }
    }
}

/// Opens the door of operators, and one for each plan.
fn open_each<F: Disk>(
    files: &F,
    folder: &str,
    plans: &[Plan<'_>],
    mode: u32,
    doors: &mut Vec<Door>,
) -> Result<(), DoorRefusal> {
    let door = open(files, folder, "operator", Place::Own(None), None, mode)?;
    add(files, doors, door)?;
    for plan in plans {
        let Plan {
            principal,
            name,
            place,
        } = *plan;
        let door = open(files, folder, name, place, Some(principal), mode)?;
        add(files, doors, door)?;
    }
    Ok(())
}

/// Opens the door of operators, and one for each plan, all or none. `mode` is that of a socket that is named by its path.
pub fn open_doors<F: Disk>(
    files: &F,
    folder: &str,
    plans: &[Plan<'_>],
    mode: u32,
) -> Result<Vec<Door>, DoorRefusal> {
    let folder = keep_folder(files, folder)?;
    let mut doors = Vec::new(files.alloc());
    match open_each(files, folder.as_str(), plans, mode, &mut doors) {
        Ok(()) => Ok(doors),
        Err(fault) => {
            close_doors(files, doors.as_slice());
            Err(fault)
        }
    }
}

/// The files of the sockets go.
pub fn close_doors<F: Disk>(files: &F, doors: &[Door]) {
    for door in doors {
        let _ = fs::remove_file(files, door.path.as_str());
    }
}
