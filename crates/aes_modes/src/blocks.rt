//! Blocks of 16 bytes within longer bytes, for both modes. A block is copied out, or put in its
//! place in the caller's bytes; nothing else is touched. The two clauses say all of it.

ghost use Rattle.std.specs.Prelude.{◌≡◌, ◌+◌, ◌≤◌, ◌++◌, length, take, drop};

pub(crate) const BLOCK_LEN: usize = 16;

pub(crate) fn block_at(bytes: &[u8], start: usize) -> [u8; 16]
    requires { start + 16 ≤ length bytes.now }
    ensures { result ≡ take 16 (drop start bytes.now) }
{
    let mut block = [0; BLOCK_LEN];
    block.copy_from_slice(&bytes[start..start + BLOCK_LEN]);
    block
}

pub(crate) fn put_block(bytes: &mut [u8], start: usize, block: &[u8; 16])
    requires { start + 16 ≤ length bytes.old }
    ensures { bytes.new ≡ take start bytes.old ++ block.now ++ drop (start + 16) bytes.old }
{
    bytes[start..start + BLOCK_LEN].copy_from_slice(block);
}
