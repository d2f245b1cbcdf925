//! The key that a passphrase gives: iterated and salted S2K (RFC 4880, 3.7.1.3) with SHA-1.
//!
//! Begin with [`derive`]: exactly the standard's 16 bytes for a passphrase, a salt and a count of
//! bytes to hash; [`count_of`] is the count that a written number means. No call takes memory. The
//! pieces that are hashed are overwritten, and what the hasher keeps of its last 64 bytes isn't.
//! The definitions stand in `specs/S2k`.
#![tactic(auto)]

ghost use Rattle.std.specs.Prelude.{◌≡◌, ◌+◌, ◌<◌, ◌≤◌, ◌++◌, length, slice_index, SomeIff};
ghost use Rattle.sha1.specs.Sha1.{sha1};
ghost use Rattle.s2k_derive.specs.S2k.{copies_of, derived_key, octets, IsAccepted};
ghost use Rattle.s2k_derive.specs.declared.TheConstants.{MAX_PASSPHRASE_LEN, MAX_COUNT, PIECE_LEN};

use sha1::Sha1;
use wiping::wipe;

/// How many bytes a passphrase has at most.
pub const MAX_PASSPHRASE_LEN: usize = 255;

/// The fewest bytes that an accepted count stands for. The bound is this project's own: an octet
/// codes counts from 1024 on (RFC 4880, 3.7.1.3).
pub const MIN_COUNT: u64 = 65_536;

/// The most bytes that an accepted count stands for. The bound is this project's own: an octet
/// codes counts up to 65,011,712 (RFC 4880, 3.7.1.3).
pub const MAX_COUNT: u64 = 4_294_967_296;

const SALT_LEN: usize = 8;

const KEY_LEN: usize = 16;

// Copies of salt and passphrase are hashed in pieces of about this many bytes, so that what a piece
// costs beside its hash does not count.
const PIECE_LEN: usize = 2048;

/// The key of a passphrase and a salt, for a count of bytes to be hashed. Salt and passphrase are
/// hashed once where they are longer than the count.
///
/// The copies of the passphrase that it makes are overwritten; the key is the caller's to
/// overwrite. What the hasher keeps of the last 64 bytes isn't.
pub fn derive(pass: &[u8], salt: &[u8; 8], count: u64) -> [u8; 16]
    requires short { length pass.now ≤ MAX_PASSPHRASE_LEN }
    requires bounded { count ≤ MAX_COUNT }
    ensures { result ≡ derived_key pass.now salt.now count }
{
    let copy_len = SALT_LEN + pass.len();
    let mut copies = [0; PIECE_LEN];
    write_copies(&mut copies, pass, salt);
    let piece = &copies[..PIECE_LEN - PIECE_LEN % copy_len];
    let total = (count as usize).max(copy_len);
    let mut hasher = Sha1::new();
    'pieces: for _ in 0..total / piece.len() {
        hasher.update(piece);
    }
    hasher.update(&piece[..total % piece.len()]);
    let mut digest = hasher.finalize();
    let mut key = [0; KEY_LEN];
    key.copy_from_slice(&digest[..KEY_LEN]);
    wipe(&mut copies);
    wipe(&mut digest);
    key
}

// Salt and passphrase over and over, as far as there is room.
fn write_copies(copies: &mut [u8; PIECE_LEN], pass: &[u8], salt: &[u8; 8])
    requires { length pass.now ≤ MAX_PASSPHRASE_LEN }
    ensures { copies.new ≡ copies_of (salt.now ++ pass.now) PIECE_LEN }
{
    let copy_len = SALT_LEN + pass.len();
    for (i, byte) in copies.iter_mut().enumerate() {
        *byte = byte_at(pass, salt, i % copy_len);
    }
}

// One byte of salt and passphrase.
fn byte_at(pass: &[u8], salt: &[u8; 8], place: usize) -> u8
    requires { place < 8 + length pass.now }
    ensures { result ≡ slice_index (salt.now ++ pass.now) place }
{
    if place < SALT_LEN {
        salt[place]
    } else {
        pass[place - SALT_LEN]
    }
}

/// The count of bytes that a written number means: one octet is coded as in RFC 4880, and any other
/// number is the count itself. `None` where the count is too small or too great.
pub fn count_of(n: u64) -> Option<u64>
    ensures { SomeIff result (IsAccepted (octets n)) (octets n) }
{
    let count = if n < 256 {
        (16 + n % 16) << (n / 16 + 6)
    } else {
        n
    };
    (MIN_COUNT..=MAX_COUNT).contains(&count).then_some(count)
}
