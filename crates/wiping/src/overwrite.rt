//! Overwriting bytes so that the optimiser keeps it, and overwriting the stack below a caller.
//! `wipe` touches its bytes, `wipe_stack` a frame of its own. Begin with the comment at `wipe`,
//! which says why it is written so; the machine's side of it has no proof.

ghost use Rattle.std.specs.Prelude.{◌≡◌, length, replicate};

use std::hint;

/// How many bytes of the stack `wipe_stack` overwrites.
pub const WIPED_STACK_LEN: usize = 131_072;

/// Overwrites the bytes with zeros.
// The toolchain has no volatile write, and its `black_box` is the identity. A call that is not
// inlined, and that has an effect which the optimiser may not drop, stands in for them: so the call
// stays, and its writes with it.
#[inline(never)]
pub fn wipe(bytes: &mut [u8])
    ensures { bytes.new ≡ replicate (length bytes.old) 0 }
{
    bytes.fill(0);
    hint::spin_loop();
}

/// Overwrites the stack below its caller, where calls that have returned may have left bytes. It
/// takes a few microseconds.
// Not inlined, since its frame must begin where those of the calls before it began.
#[inline(never)]
pub fn wipe_stack() {
    let mut room = [0; WIPED_STACK_LEN];
    wipe(&mut room);
}
