//! One file, read and replaced whole. It touches the file's folder: the lock, which is the folder's
//! or a file's in it, a new file beside the old one, syncs and the rename. Begin with `read_file`
//! and `replace_file`; tests show what they do, since no contract says what files hold.

ghost use Rattle.std.specs.{Prelude.{◌≤◌, length, IfOk, IsTrue}, Io.KnownBytes.{Consumes, IsAtEnd}};

use crate::fault::Fault;
use std::alloc::{AllocError, Global};
use std::fs::{File, Metadata, OpenFile, OpenOptions, TryLockError};
use std::io::{ErrorKind, Read, Write};
use std::os::unix::fs::{MetadataExt, OpenOptionsExt};
use std::path::Path;
use std::rt::{Clock, Files};
use std::time::Duration;
use std::{fs, io, thread};
use wiping::wipe;

/// How long a change pauses between two tries for the lock that another program holds, and how
/// often: ten seconds in all.
const LOCK_PAUSE_MILLIS: u64 = 10;

const MAX_LOCK_PAUSES: u32 = 1_000;

/// What is added to the name of the file at a link's end where it is replaced: that folder may be
/// anybody's, and no file of his has such a name.
const LINKED_ENDING: &str = ".dogwoodcatch-new";

/// What is added to it for the file whose lock is held then, where it isn't the folder's.
const LINKED_LOCK_ENDING: &str = ".dogwoodcatch-lock";

/// Which file a name led to, and in what state: one that was replaced or written meanwhile differs.
#[derive(Clone, Copy, PartialEq, Eq)]
pub(crate) struct FileStamp {
    device: u64,
    number: u64,
    len: u64,
    modified_secs: i64,
    modified_nanos: i64,
}

impl FileStamp {
    fn of(metadata: &Metadata) -> FileStamp {
        FileStamp {
            device: metadata.dev(),
            number: metadata.ino(),
            len: metadata.len(),
            modified_secs: metadata.mtime(),
            modified_nanos: metadata.mtime_nsec(),
        }
    }
}

/// What a name led to.
#[derive(Clone, Copy, PartialEq, Eq)]
pub(crate) enum Found {
    Nothing,
    File(FileStamp),
}

/// A file that was read whole.
#[derive(Drop)]
pub(crate) struct WholeFile {
    pub(crate) bytes: Vec<u8>,
    pub(crate) stamp: FileStamp,
}

/// Reads a regular file of at most so many bytes. Anything else that has this name is a fault. One
/// that takes its name meanwhile is none: the file that was opened is read.
pub(crate) fn read_file<R: Files<File = File>>(
    rt: &R,
    alloc: Global,
    path: &str,
    max_len: usize,
) -> Result<WholeFile, Fault>
    ensures { IfOk result (λ file. length file.bytes.items ≤ max_len) }
{
    let mut file = open_file(rt, path)?;
    // First, so that one that is written while it is read differs.
    let stamp = FileStamp::of(&file.metadata()?);
    let bytes = read_open(&mut file, alloc, max_len)?;
    Ok(WholeFile { bytes, stamp })
}

// Opens what has this name. Another kind than a regular file isn't opened, since that may wait.
fn open_file<R: Files<File = File>>(rt: &R, path: &str) -> Result<File, Fault> {
    match fs::metadata(rt, path) {
        Ok(metadata) if metadata.is_file() => Ok(File::open(rt, path)?),
        Ok(_) => Err(Fault::Failed),
        Err(error) => Err(missing(rt, path, error)),
    }
}

// A link that leads to nothing is a fault, and not absent. A file that has the name by now wasn't
// there before.
fn missing<R: Files<File = File>>(rt: &R, path: &str, error: io::Error) -> Fault {
    match fs::symlink_metadata(rt, path) {
        Ok(metadata) if metadata.is_symlink() => Fault::Failed,
        _ => error.into(),
    }
}

// All of an open file, with one allocation. It is a fault where it is no regular file, is too long,
// or where its length changes meanwhile.
fn read_open<F: Read + OpenFile>(
    file: &mut F,
    alloc: Global,
    max_len: usize,
) -> Result<Vec<u8>, Fault>
    ensures fits { IfOk result (λ bytes. length bytes.items ≤ max_len) }
    ensures whole { IfOk result
        (λ bytes. Consumes (F.remaining file.old) (F.remaining file.new) bytes.items) }
    ensures ended { IfOk result (λ bytes. IsAtEnd (F.remaining file.new)) }
{
    let len = file_len(file, max_len)?;
    let mut bytes = vec![in alloc; 0u8; len]?;
    if is_whole(file, &mut bytes) {
        return Ok(bytes);
    }
    wipe(&mut bytes);
    Err(Fault::Failed)
}

// The length of an open regular file that isn't too long.
fn file_len<F: OpenFile>(file: &F, max_len: usize) -> Result<usize, Fault>
    ensures { IfOk result (λ len. len ≤ max_len) }
{
    let metadata = file.metadata()?;
    match usize::try_from(metadata.len()) {
        Ok(len) if metadata.is_file() && len <= max_len => Ok(len),
        _ => Err(Fault::Failed),
    }
}

/// Whether a reader has exactly as many bytes left as the buffer has room for, which then holds
/// them. At most one byte more is read.
fn is_whole<R: Read>(reader: &mut R, buf: &mut [u8]) -> bool
    ensures { IsTrue result → Consumes (R.remaining reader.old) (R.remaining reader.new) buf.new
        × IsAtEnd (R.remaining reader.new) }
{
    if reader.read_exact(buf).is_err() {
        return false;
    }
    matches!(reader.read(&mut [0]), Ok(0))
}

/// Whose lock a change holds.
#[derive(Clone, Copy)]
pub(crate) enum Lock {
    /// A folder's, where nobody else may open that: whoever may can hold its lock.
    Folder,
    /// A file's of its own, which nobody else may open. It is made where it isn't there, and stays.
    File,
}

/// Where a file lies: its folder, its path, and the path of the file that is to become it, in the
/// same folder; and whose lock a change holds, with its path.
#[derive(Clone, Copy)]
pub(crate) struct Place<'a> {
    pub(crate) folder: &'a str,
    pub(crate) path: &'a str,
    pub(crate) new_path: &'a str,
    pub(crate) lock: Lock,
    pub(crate) lock_path: &'a str,
}

/// Makes these bytes the file at the place, as a whole, under its lock: they are written and synced
/// under the other name in that folder, which is then renamed. Where it fails the file is as it
/// was. Where `expected` says what is to be replaced, anything else there is a fault.
///
/// A link stays, and the file at its end is replaced in its own folder.
pub(crate) fn replace_file<R: Files<File = File> + Clock>(
    rt: &R,
    alloc: Global,
    place: Place<'_>,
    bytes: &[u8],
    expected: Option<Found>,
) -> Result<FileStamp, Fault> {
    let Some(end) = link_end(rt, alloc, place.path)? else {
        return replace_at(rt, place, bytes, expected);
    };
    let Some(folder) = Path::new(end.as_str()).parent() else {
        return Err(Fault::Failed);
    };
    let new_path = with_ending(&end, LINKED_ENDING)?;
    let lock_path = match place.lock {
        Lock::Folder => String::from_str(alloc, folder.as_str())?,
        Lock::File => with_ending(&end, LINKED_LOCK_ENDING)?,
    };
    let linked = Place {
        folder: folder.as_str(),
        path: end.as_str(),
        new_path: new_path.as_str(),
        lock: place.lock,
        lock_path: lock_path.as_str(),
    };
    replace_at(rt, linked, bytes, expected)
}

fn with_ending(path: &String, ending: &str) -> Result<String, AllocError> {
    let mut longer = path.clone()?;
    longer.push_str(ending)?;
    Ok(longer)
}

// The regular file at the end of the link that has this name, or none where it is no link. One that
// leads to nothing is a fault.
fn link_end<R: Files<File = File>>(
    rt: &R,
    alloc: Global,
    path: &str,
) -> Result<Option<String>, Fault> {
    match fs::symlink_metadata(rt, path) {
        Ok(metadata) if metadata.is_symlink() => {}
        Err(error) if error.kind() != ErrorKind::NotFound => return Err(error.into()),
        _ => return Ok(None),
    }
    let end = rt.canonicalize(alloc, path)?.into_string();
    if fs::symlink_metadata(rt, end.as_str())?.is_file() {
        Ok(Some(end))
    } else {
        Err(Fault::Failed)
    }
}

fn replace_at<R: Files<File = File> + Clock>(
    rt: &R,
    place: Place<'_>,
    bytes: &[u8],
    expected: Option<Found>,
) -> Result<FileStamp, Fault> {
    let locked = match place.lock {
        Lock::Folder => lock_folder(rt, place.lock_path)?,
        Lock::File => take_lock(rt, open_lock(rt, place.lock_path)?)?,
    };
    let replaced = replace_locked(rt, place, bytes, expected);
    drop(locked);
    replaced
}

// Under the lock.
fn replace_locked<R: Files<File = File>>(
    rt: &R,
    place: Place<'_>,
    bytes: &[u8],
    expected: Option<Found>,
) -> Result<FileStamp, Fault> {
    // What a crash left.
    remove_leftover(rt, place.new_path)?;
    match put_in_place(rt, place, bytes, expected) {
        Ok(stamp) => {
            // The file is in its place, whether or not the system can sync a folder.
            let _ = sync_folder(rt, place.folder);
            Ok(stamp)
        }
        Err(fault) => {
            let _ = fs::remove_file(rt, place.new_path);
            Err(fault)
        }
    }
}

fn sync_folder<R: Files<File = File>>(rt: &R, folder: &str) -> io::Result<()> {
    File::open(rt, folder)?.sync_all()
}

// Opens the file of a lock, which is made for its owner alone where it isn't there. A link isn't
// followed, and another kind than a regular file isn't opened, since that may wait.
fn open_lock<R: Files<File = File>>(rt: &R, path: &str) -> io::Result<File> {
    let made = OpenOptions::new()
        .write(true)
        .create_new(true)
        .mode(0o600)
        .open(rt, path);
    match made {
        Err(error) if error.kind() == ErrorKind::AlreadyExists => open_old_lock(rt, path),
        made => made,
    }
}

fn open_old_lock<R: Files<File = File>>(rt: &R, path: &str) -> io::Result<File> {
    let named = fs::symlink_metadata(rt, path)?;
    if !named.is_file() {
        return Err(ErrorKind::InvalidInput.into());
    }
    let file = OpenOptions::new().write(true).open(rt, path)?;
    // It may have become a link in between.
    if FileStamp::of(&file.metadata()?) == FileStamp::of(&named) {
        Ok(file)
    } else {
        Err(ErrorKind::InvalidInput.into())
    }
}

/// The folder, locked until it is dropped: changes in it come one after another, whichever program
/// makes them by this crate. It is a fault where another program still holds the lock after ten
/// seconds.
pub(crate) fn lock_folder<R: Files<File = File> + Clock>(rt: &R, folder: &str) -> io::Result<File> {
    take_lock(rt, File::open(rt, folder)?)
}

// The file, locked until it is dropped.
fn take_lock<R: Clock>(rt: &R, file: File) -> io::Result<File> {
    let mut locked = file.try_lock();
    for _ in 0..MAX_LOCK_PAUSES {
        if !matches!(locked, Err(TryLockError::WouldBlock)) {
            break;
        }
        thread::sleep(rt, Duration::from_millis(LOCK_PAUSE_MILLIS));
        locked = file.try_lock();
    }
    locked?;
    Ok(file)
}

fn put_in_place<R: Files<File = File>>(
    rt: &R,
    place: Place<'_>,
    bytes: &[u8],
    expected: Option<Found>,
) -> Result<FileStamp, Fault> {
    let stamp = write_new_file(rt, place.new_path, bytes)?;
    // As late as can be, since an editor knows nothing of the lock.
    if let Some(expected) = expected {
        if found_at(rt, place.path)? != expected {
            return Err(Fault::Failed);
        }
    }
    fs::rename(rt, place.new_path, place.path)?;
    Ok(stamp)
}

// Writes a file that isn't there yet, which only its owner may read, and syncs it.
fn write_new_file<R: Files<File = File>>(
    rt: &R,
    path: &str,
    bytes: &[u8],
) -> io::Result<FileStamp> {
    let mut file = OpenOptions::new()
        .write(true)
        .create_new(true)
        .mode(0o600)
        .open(rt, path)?;
    file.write_all(bytes)?;
    file.sync_all()?;
    Ok(FileStamp::of(&file.metadata()?))
}

fn found_at<R: Files<File = File>>(rt: &R, path: &str) -> io::Result<Found> {
    match fs::symlink_metadata(rt, path) {
        Ok(metadata) => Ok(Found::File(FileStamp::of(&metadata))),
        Err(error) if error.kind() == ErrorKind::NotFound => Ok(Found::Nothing),
        Err(error) => Err(error),
    }
}

/// Removes a file where it is there.
pub(crate) fn remove_leftover<R: Files<File = File>>(rt: &R, path: &str) -> io::Result<()> {
    match fs::remove_file(rt, path) {
        Err(error) if error.kind() != ErrorKind::NotFound => Err(error),
        _ => Ok(()),
    }
}
