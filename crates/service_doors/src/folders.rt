//! The folders that sockets are in, and who else may write there.

ghost use Rattle.service_doors.specs.Folders.{refusal_of};
ghost use Rattle.std.specs.Prelude.{◌≡◌};

use crate::fault::{DoorRefusal, PlaceFault, at};
use program_parts::Disk;
use std::fs::{self, DirBuilder};
use std::os::unix::fs::{DirBuilderExt, MetadataExt};

/// The bits of a mode by which a group and others may write.
const OTHERS: u32 = 0o022;

/// The bit of a folder's mode by which what is there is moved by its owner alone.
const STICKY: u32 = 0o1000;

/// Whose a folder is, and who may write there: the number of its owner, and its mode.
#[derive(Clone, Copy, Debug, PartialEq, Eq)]
pub(crate) struct Holder {
    pub(crate) owner: u32,
    pub(crate) mode: u32,
}

/// Why no socket of the user `own` may be in a folder, or below it where `is_above`; `None` where one may: nobody but that user
/// and root could put another one in its place.
pub(crate) fn refusal_of(holder: Holder, own: u32, is_above: bool) -> Option<PlaceFault>
    ensures { result ≡ refusal_of holder own is_above }
{
    if holder.owner != 0 && holder.owner != own {
        return Some(PlaceFault::Owner(holder.owner));
    }
    let is_kept = is_above && holder.mode & STICKY != 0;
    if holder.mode & OTHERS != 0 && !is_kept {
        return Some(PlaceFault::Writers);
    }
    None
}

/// A folder is looked at, which is no link.
fn look_at<F: Disk>(files: &F, path: &str, is_above: bool) -> Result<(), DoorRefusal> {
    let holder = match fs::symlink_metadata(files, path) {
        Ok(found) if found.is_dir() => Holder {
            owner: found.uid(),
            mode: found.mode(),
        },
        _ => return Err(at(files.alloc(), PlaceFault::NoFolder, path)),
    };
    match refusal_of(holder, libc::geteuid(), is_above) {
        Some(fault) => Err(at(files.alloc(), fault, path)),
        None => Ok(()),
    }
}

/// The folders of a path that begins with a `/` are looked at, from the top down: once one was found to be the driver's or
/// root's own, nobody else can change what is at its path. The last one is above what is looked for where `is_above`.
pub(crate) fn look_along<F: Disk>(
    files: &F,
    path: &str,
    is_above: bool,
) -> Result<(), DoorRefusal> {
    look_at(files, "/", is_above || path != "/")?;
    for (place, byte) in path.bytes().enumerate() {
        if byte == b'/' && place > 0 {
            look_at(files, path.get(..place).unwrap_or("/"), true)?;
        }
    }
    look_at(files, path, is_above)
}

/// The folder and the name of a path.
pub(crate) fn parts_of(path: &str) -> (&str, &str) {
    match path.rsplit_once('/') {
        Some(("", name)) => ("/", name),
        Some((folder, name)) => (folder, name),
        None => (".", path),
    }
}

/// The path of a folder that is there, with no link on it.
pub(crate) fn real_path<F: Disk>(files: &F, path: &str) -> Result<String, DoorRefusal> {
    match fs::canonicalize(files, path) {
        Ok(real) => Ok(String::from_str(files.alloc(), real.as_str())?),
        Err(_) => Err(at(files.alloc(), PlaceFault::NoFolder, path)),
    }
}

/// The path of what has that name in a folder.
pub(crate) fn joined<F: Disk>(files: &F, folder: &str, name: &str) -> Result<String, DoorRefusal> {
    let folder = folder.trim_end_matches('/');
    Ok(format!(in files.alloc(); "{folder}/{name}")?)
}

/// A folder is made, where nobody else can choose in which one that is.
fn make<F: Disk>(files: &F, path: &str, mode: u32) -> Result<(), DoorRefusal> {
    let mut builder = DirBuilder::new();
    builder.mode(mode);
    match builder.create(files, path) {
        Ok(()) => Ok(()),
        Err(_) => Err(at(files.alloc(), PlaceFault::NoFolder, path)),
    }
}

/// The driver's folder is made.
fn make_folder<F: Disk>(files: &F, path: &str) -> Result<(), DoorRefusal> {
    let (above, name) = parts_of(path.trim_end_matches('/'));
    let above = real_path(files, above)?;
    look_along(files, above.as_str(), true)?;
    let path = joined(files, above.as_str(), name)?;
    make(files, path.as_str(), 0o755)
}

/// The path of the driver's folder, with no link on it. The folder is made where it is wanting.
pub(crate) fn keep_folder<F: Disk>(files: &F, path: &str) -> Result<String, DoorRefusal> {
    if fs::symlink_metadata(files, path).is_err() {
        make_folder(files, path)?;
    }
    let real = real_path(files, path)?;
    look_along(files, real.as_str(), false)?;
    Ok(real)
}

/// A folder that nobody else may enter is made in one that was looked at, for a socket there. What an earlier driver left is
/// taken away.
pub(crate) fn make_hidden<F: Disk>(
    files: &F,
    hidden: &str,
    socket: &str,
) -> Result<(), DoorRefusal> {
    if let Ok(found) = fs::symlink_metadata(files, hidden)
        && found.is_dir()
    {
        let _ = fs::remove_file(files, socket);
        let _ = fs::remove_dir(files, hidden);
    }
    make(files, hidden, 0o700)?;
    look_at(files, hidden, false)
}
