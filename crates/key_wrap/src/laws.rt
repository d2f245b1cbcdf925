//! A law: unwrapping undoes wrapping. A function without a body, whose contract is a fact about
//! `wrapped_of` and `unwrapped_of` of `specs/KeyWrap`; it touches nothing.

ghost use Rattle.std.specs.{Prelude.{◌≡◌, ◌%◌, ◌≤◌, ℕ, List, length, IsTrue}, List.concat};
ghost use Rattle.aes_block.specs.Aes.{IsBytes};
ghost use Rattle.key_wrap.specs.KeyWrap.{initial_value, wrapped_of, unwrapped_of};
ghost use Rattle.key_wrap.specs.KeyWrap.{is_wrapped_length};

/// A law: unwrapping undoes wrapping, for every key and whole registers of bytes, and finds the
/// initial value.
pub fn unwrapping_undoes_wrapping()
    ensures { (key plain : List ℕ) → IsBytes 16 key → IsBytes (length plain) plain
        → length plain % 8 ≡ 0 → 16 ≤ length plain → length plain ≤ 65536
        → IsTrue (is_wrapped_length (length (wrapped_of key plain)))
        × (concat (unwrapped_of key (wrapped_of key plain)).blocks ≡ plain)
        × ((unwrapped_of key (wrapped_of key plain)).check ≡ initial_value) }
{}
