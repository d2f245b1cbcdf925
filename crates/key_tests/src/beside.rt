//! Folders in which another program is at work beside: it takes a name, changes a file or holds a
//! lock between two calls of the store. The files are the system's, seen through `Beside`, which
//! does that at a given call. Begin with `Beside`.

use agent_ports::{Grip, KeyDone, KeyNames, KeyRead, Keys, TrustFile};
use key_store::{FolderKeys, FolderTrust};
use std::alloc::{AllocError, Allocator, Global};
use std::cell::Cell;
use std::fs::{File, Metadata, OpenOptions};
use std::io::{ErrorKind, Read};
use std::rt::{Clock, Files};
use std::sync::atomic::{AtomicBool, Ordering};
use std::test::Fail;
use std::time::Duration;
use std::{fs, io, thread};

const GRIP: Grip = Grip([0xAB; 20]);

const KEY: &str = "private-keys-v1.d/ABABABABABABABABABABABABABABABABABABABAB.key";

/// The system's files, and what another program does beside.
#[derive(Drop)]
struct Beside<'a, R> {
    rt: &'a R,
    /// What takes the name of a key's file between a look at the name and its opening.
    newer: Option<&'a str>,
    /// A lock that it holds, and when it gives it back, in milliseconds of what is slept.
    lock: Option<File>,
    held: u64,
    slept: Cell<u64>,
    /// Whether its disk fails behind a folder's names.
    breaks: bool,
}

impl<'a, R> Beside<'a, R> {
    /// Nothing is done yet.
    fn new(rt: &'a R) -> Self {
        Beside {
            rt,
            newer: None,
            lock: None,
            held: 0,
            slept: Cell::new(0),
            breaks: false,
        }
    }
}

/// No time passes but what is slept.
impl<R: Clock> Clock for Beside<'_, R> {
    fn monotonic(&self) -> io::Result<Duration> {
        Ok(Duration::from_millis(self.slept.get()))
    }

    fn since_1970(&self) -> io::Result<Duration> {
        self.rt.since_1970()
    }

    fn sleep(&self, duration: Duration) {
        let millis = u64::try_from(duration.as_millis()).unwrap_or(u64::MAX);
        let slept = self.slept.get().saturating_add(millis);
        self.slept.set(slept);
        if slept >= self.held {
            let _ = self.lock.as_ref().map(File::unlock);
        }
    }
}

/// The names of a folder, behind which a read may fail.
#[derive(Drop)]
struct Names<D> {
    names: D,
    breaks: bool,
}

impl<D: Read> Read for Names<D> {
    fn read(&mut self, buf: &mut [u8]) -> io::Result<usize> {
        match self.names.read(buf) {
            Ok(0) if self.breaks => Err(io::Error::from(ErrorKind::Other)),
            other => other,
        }
    }
}

impl<R: Files<File = File>> Files for Beside<'_, R> {
    type File = File;

    type Dir = Names<R::Dir>;

    fn open_file(&self, how: &OpenOptions, path: &str) -> io::Result<File> {
        if let Some(newer) = self.newer {
            self.rt.rename(newer, path)?;
        }
        self.rt.open_file(how, path)
    }

    fn open_dir(&self, path: &str) -> io::Result<Names<R::Dir>> {
        Ok(Names {
            names: self.rt.open_dir(path)?,
            breaks: self.breaks,
        })
    }

    fn metadata(&self, path: &str) -> io::Result<Metadata> {
        self.rt.metadata(path)
    }

    fn symlink_metadata(&self, path: &str) -> io::Result<Metadata> {
        self.rt.symlink_metadata(path)
    }

    fn copy(&self, from: &str, to: &str) -> io::Result<u64> {
        self.rt.copy(from, to)
    }

    fn rename(&self, from: &str, to: &str) -> io::Result<()> {
        self.rt.rename(from, to)
    }

    fn remove_file(&self, path: &str) -> io::Result<()> {
        self.rt.remove_file(path)
    }

    fn create_dir(&self, path: &str) -> io::Result<()> {
        self.rt.create_dir(path)
    }

    fn create_dir_with_mode(&self, path: &str, mode: u32) -> io::Result<()> {
        self.rt.create_dir_with_mode(path, mode)
    }

    fn remove_dir(&self, path: &str) -> io::Result<()> {
        self.rt.remove_dir(path)
    }

    fn remove_dir_all<B: Allocator>(&self, alloc: B, path: &str) -> io::Result<()> {
        self.rt.remove_dir_all(alloc, path)
    }
}

/// A folder with the file of a key, and a longer one that is no key's yet.
fn make_home(rt: &HostRuntime, home: &str) -> Result<(), Fail> {
    let alloc = rt.alloc();
    let _ = fs::remove_dir_all(rt, home);
    let folder = format!(in alloc; "{home}/private-keys-v1.d")?;
    fs::create_dir_all(rt, folder.as_str())?;
    let key = format!(in alloc; "{home}/{KEY}")?;
    fs::write(rt, key.as_str(), b"short")?;
    let newer = format!(in alloc; "{home}/newer")?;
    fs::write(rt, newer.as_str(), b"much longer")?;
    Ok(())
}

// What a read gives, as text.
fn text_of(alloc: Global, read: KeyRead) -> Result<String, AllocError> {
    match read {
        KeyRead::Found(file) => Ok(String::from_utf8(file).unwrap_or(String::new(alloc))),
        KeyRead::Absent => String::from_str(alloc, "absent"),
        KeyRead::Failed => String::from_str(alloc, "failed"),
        KeyRead::NoMemory => String::from_str(alloc, "no memory"),
    }
}

#[test]
fn a_file_that_takes_the_name_before_it_is_opened_is_read(rt: HostRuntime) -> Result<(), Fail> {
    let alloc = rt.alloc();
    make_home(&rt, "renewed")?;
    let mut beside = Beside::new(&rt);
    beside.newer = Some("renewed/newer");
    let mut keys = FolderKeys::new(&beside, alloc, "renewed")?;
    let text = text_of(alloc, keys.read(alloc, &GRIP))?;
    assert_eq!(rt; text.as_str(), "much longer");
    fs::remove_dir_all(&rt, "renewed")?;
    Ok(())
}

// What changes of a key and of the trust list come to, and how long they slept, where another
// program holds the lock of the keys' folder, of the list's own file, or of the home folder for so
// many milliseconds; and what the key's file is then.
fn changed_under_locks(rt: &HostRuntime, held: u64) -> Result<String, Fail> {
    let alloc = rt.alloc();
    make_home(rt, "locked")?;
    let mut text = String::new(alloc);
    fs::write(rt, LIST_LOCK, b"")?;
    let locks = [
        (FOLDER, 0u8),
        (FOLDER, 1),
        (FOLDER, 2),
        (LIST_LOCK, 3),
        ("locked", 3),
    ];
    for (locked, change) in locks {
        let mut beside = Beside::new(rt);
        let lock = File::open(rt, locked)?;
        lock.lock()?;
        beside.lock = Some(lock);
        beside.held = held;
        let done = change_of(&beside, alloc, change)?;
        let slept = beside.slept.get();
        let next = format!(in alloc; "{done} {slept}, ")?;
        text.push_str(next.as_str())?;
    }
    fs::remove_dir_all(rt, "locked")?;
    Ok(text)
}

const FOLDER: &str = "locked/private-keys-v1.d";

const LIST_LOCK: &str = "locked/trustlist.lock";

// A change of a key, a look whether it is there, or a change of the trust list, and what it comes
// to.
fn change_of<R: Files<File = File> + Clock>(
    rt: &R,
    alloc: Global,
    change: u8,
) -> Result<String, AllocError> {
    let mut keys = FolderKeys::new(rt, alloc, "locked")?;
    let mut trust = FolderTrust::new(rt, alloc, "locked")?;
    match change {
        0 => format!(in alloc; "{:?}", keys.replace(alloc, &GRIP, b"longer")),
        1 => text_of(alloc, keys.read(alloc, &GRIP)),
        2 => format!(in alloc; "{:?}", keys.remove(alloc, &GRIP)),
        _ => format!(in alloc; "{:?}", trust.replace(alloc, b"")),
    }
}

#[test]
fn a_lock_that_another_program_holds_is_waited_for_ten_seconds(
    rt: HostRuntime,
) -> Result<(), Fail> {
    let rows = [
        (
            u64::MAX,
            "Failed 10000, short 0, Failed 10000, Failed 10000, Done 0, ",
        ),
        (
            10_000,
            "Done 10000, longer 0, Done 10000, Done 10000, Done 0, ",
        ),
        (25, "Done 30, longer 0, Done 30, Done 30, Done 0, "),
    ];
    for (held, want) in rows {
        let text = changed_under_locks(&rt, held)?;
        assert_eq!(rt; text.as_str(), want);
    }
    Ok(())
}

#[test]
fn a_folder_that_cant_be_read_to_its_end_is_a_fault(rt: HostRuntime) -> Result<(), Fail> {
    let alloc = rt.alloc();
    make_home(&rt, "broken")?;
    let mut beside = Beside::new(&rt);
    for (breaks, want) in [(false, Some(1)), (true, None)] {
        beside.breaks = breaks;
        let mut keys = FolderKeys::new(&beside, alloc, "broken")?;
        let count = match keys.list(alloc) {
            KeyNames::Names(names) => Some(names.len()),
            KeyNames::Failed | KeyNames::NoMemory => None,
        };
        assert_eq!(rt; count, want);
    }
    fs::remove_dir_all(&rt, "broken")?;
    Ok(())
}

/// How often one thread replaces a key's file by two others, and how often at most another reads it
/// meanwhile.
const ROUNDS: u32 = 100;

const MAX_READS: u32 = 1_000_000;

// Whether each change in a number of rounds was made: two files of other lengths, and where asked
// for, that there is none.
fn changes<K: Keys>(alloc: Global, keys: &mut K, removes: bool) -> bool {
    let mut all_done = true;
    for _ in 0..ROUNDS {
        let longer = keys.replace(alloc, &GRIP, b"much longer");
        let shorter = keys.replace(alloc, &GRIP, b"short");
        all_done &= longer == KeyDone::Done && shorter == KeyDone::Done;
        if removes {
            all_done &= keys.remove(alloc, &GRIP) == KeyDone::Done;
        }
    }
    all_done
}

fn is_one_of(text: &str, wanted: &[&str]) -> bool {
    for one in wanted {
        if *one == text {
            return true;
        }
    }
    false
}

// The first answer to a read that isn't one of these, until the changes are made.
fn first_other<K: Keys>(
    alloc: Global,
    keys: &mut K,
    wanted: &[&str],
    ended: &AtomicBool,
) -> Result<Option<String>, AllocError> {
    for _ in 0..MAX_READS {
        if ended.load(Ordering::SeqCst) {
            break;
        }
        let text = text_of(alloc, keys.read(alloc, &GRIP))?;
        if !is_one_of(&text, wanted) {
            return Ok(Some(text));
        }
    }
    Ok(None)
}

// Whether the file is removed in between, and what a read beside its changes may answer.
const CHANGED_BESIDE: [(bool, &[&str]); 2] = [
    (false, &["short", "much longer"]),
    (true, &["short", "much longer", "absent"]),
];

// One thread makes its changes, and another reads meanwhile.
#[test]
fn a_file_is_read_whole_while_it_is_replaced(rt: HostRuntime) -> Result<(), Fail> {
    let alloc = rt.alloc();
    make_home(&rt, "shared")?;
    for (removes, wanted) in CHANGED_BESIDE {
        let mut changing = FolderKeys::new(&rt, alloc, "shared")?;
        let mut reading = FolderKeys::new(&rt, alloc, "shared")?;
        let ended = AtomicBool::new(false);
        let (other, done) = thread::join(
            &rt,
            || first_other(alloc, &mut reading, wanted, &ended),
            || {
                let done = changes(alloc, &mut changing, removes);
                ended.store(true, Ordering::SeqCst);
                done
            },
        );
        assert_eq!(rt; (done, other?), (true, None));
    }
    fs::remove_dir_all(&rt, "shared")?;
    Ok(())
}
