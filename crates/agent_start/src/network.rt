//! Whether a folder is on a file system that other hosts may have too, by the table of mounts
//! (proc(5), `/proc/self/mountinfo`). It computes on that text, and reads it. Begin with `kind_at`;
//! its tests show which kinds are those of a network.

use std::alloc::Global;
use std::fs::{File, Files};
use std::{fs, str};

const MOUNTS: &str = "/proc/self/mountinfo";

/// Kinds of file systems that several hosts have at a time. One that ends in a star stands for all
/// that begin so.
const NETWORK: [&str; 30] = [
    "nfs",
    "nfs*",
    "cifs",
    "smb*",
    "ncp",
    "ncpfs",
    "afs",
    "coda",
    "ceph",
    "lustre",
    "gpfs",
    "glusterfs",
    "beegfs",
    "gfs",
    "gfs2",
    "ocfs2",
    "pvfs2",
    "fuse",
    "davfs",
    "fuse.sshfs",
    "fuse.rclone",
    "fuse.s3fs",
    "fuse.glusterfs",
    "fuse.ceph*",
    "fuse.davfs*",
    "fuse.curlftpfs",
    "fuse.smbnetfs",
    "fuse.gvfsd-fuse",
    "fuse.mfs",
    "fuse.juicefs",
];

/// The kind of the network's file system that this folder is on, whose path has no links, if it is
/// on one.
pub fn network_kind<R: Files<File = File>>(rt: &R, alloc: Global, folder: &str) -> Option<String> {
    let mounts = fs::read(&(rt, alloc), MOUNTS).ok()?;
    let kind = kind_at(mounts.as_slice(), folder)?;
    if !is_networks(kind) {
        return None;
    }
    String::from_str(alloc, kind).ok()
}

/// The kind of the file system at this path: of the mounts at its folder and above it the lowest
/// one, and of several there the last one, which hides the others.
fn kind_at<'a>(mounts: &'a [u8], path: &str) -> Option<&'a str> {
    let mut found = None;
    let mut longest = 0;
    for line in mounts.split(|byte| *byte == b'\n') {
        let Some((point, kind)) = mount_of(line) else {
            continue;
        };
        let Some(len) = length_above(point, path.as_bytes()) else {
            continue;
        };
        if len >= longest {
            longest = len;
            found = Some(kind);
        }
    }
    str::from_utf8(found?).ok()
}

/// Where a line's file system is mounted, as it is spelled there, and its kind.
fn mount_of(line: &[u8]) -> Option<(&[u8], &[u8])> {
    let mut fields = line.split(|byte| *byte == b' ');
    let point = fields.nth(4)?;
    // Behind fields that needn't be there.
    let _ = fields.find(|field| *field == b"-".as_slice())?;
    Some((point, fields.next()?))
}

/// How long the mount's path is, if it is this one or one above it.
fn length_above(point: &[u8], path: &[u8]) -> Option<usize> {
    let mut rest = path;
    let mut point = point;
    let mut len = 0usize;
    for _ in 0..=path.len() {
        let Some((byte, behind)) = next_byte(point) else {
            let is_whole = rest.is_empty()
                || rest.starts_with(b"/")
                || path.get(..len) == Some(b"/".as_slice());
            return if is_whole { Some(len) } else { None };
        };
        rest = rest.strip_prefix(&[byte])?;
        point = behind;
        len = len.saturating_add(1);
    }
    None
}

/// The next byte of a spelled path: blanks, tabs, line feeds and backslashes are three octal digits
/// behind a backslash.
fn next_byte(spelled: &[u8]) -> Option<(u8, &[u8])> {
    match spelled {
        [
            b'\\',
            a @ b'0'..=b'3',
            b @ b'0'..=b'7',
            c @ b'0'..=b'7',
            rest @ ..,
        ] => {
            let byte = ((a & 3) << 6) | ((b & 7) << 3) | (c & 7);
            Some((byte, rest))
        }
        [byte, rest @ ..] => Some((*byte, rest)),
        [] => None,
    }
}

/// Whether several hosts may have a file system of this kind.
fn is_networks(kind: &str) -> bool {
    NETWORK.iter().any(|row| match row.strip_suffix('*') {
        Some(front) => kind.starts_with(front),
        None => kind == *row,
    })
}

#[cfg(test)]
mod tests {
    use super::*;

    const TABLE: &[u8] = b"22 27 0:21 / /proc rw,nosuid shared:12 - proc proc rw
27 1 8:1 / / rw,relatime shared:1 - ext4 /dev/sda1 rw
30 27 0:40 / /home rw shared:2 master:3 - nfs4 server:/home rw,vers=4.2
31 30 8:2 / /home/alice rw - btrfs /dev/sdb rw
32 30 0:41 / /home/bob\\040s rw - fuse.sshfs bob@host: rw
33 27 8:3 / /mnt rw - ext4 /dev/sdc rw
34 33 0:42 / /mnt rw - cifs //host/share rw
a line of another form
";

    #[test]
    fn the_lowest_mount_of_a_path_counts(rt: HostRuntime) {
        for (path, wanted) in [
            ("/", Some("ext4")),
            ("/root/.gnupg", Some("ext4")),
            ("/home", Some("nfs4")),
            ("/home/carol/.gnupg", Some("nfs4")),
            ("/home/alice", Some("btrfs")),
            ("/home/alice/.gnupg", Some("btrfs")),
            ("/home/alicex", Some("nfs4")),
            ("/home/bob s/.gnupg", Some("fuse.sshfs")),
            ("/homes", Some("ext4")),
            ("/mnt/x", Some("cifs")),
            ("/proc/1", Some("proc")),
        ] {
            assert_eq!(rt; (path, kind_at(TABLE, path)), (path, wanted));
        }
        assert_eq!(rt; kind_at(b"", "/x"), None);
        assert_eq!(rt; kind_at(b"1 2 3:4 / /home", "/home"), None);
    }

    #[test]
    fn kinds_of_a_network(rt: HostRuntime) {
        for (kind, wanted) in [
            ("ext4", false),
            ("btrfs", false),
            ("overlay", false),
            ("tmpfs", false),
            ("zfs", false),
            ("fuse.gocryptfs", false),
            ("fuse.fuse-overlayfs", false),
            ("fuse.encfs", false),
            ("fuseblk", false),
            ("nfs4", true),
            ("nfs", true),
            ("cifs", true),
            ("smb3", true),
            ("smbfs", true),
            ("fuse", true),
            ("fuse.sshfs", true),
            ("fuse.rclone", true),
            ("fuse.ceph-fuse", true),
            ("ceph", true),
            ("", false),
        ] {
            assert_eq!(rt; (kind, is_networks(kind)), (kind, wanted));
        }
    }
}
