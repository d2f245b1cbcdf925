//! Tables of names, each with what it stands for, searched from their first row. Pure, over slices.
//! Begin with `found`; each function is its namesake in `specs/Rows`.

ghost use Rattle.std.specs.{Prelude.◌≡◌, Str.str_eq_ignore_ascii_case};
ghost use Rattle.assuan_text.specs.Rows.{found, found_in_any_case, has_pair, rows_of, pairs_of};

/// What the first row of this name has, in a table of names.
pub fn found<X: Copy>(name: &[u8], rows: &[(&[u8], X)]) -> Option<X>
    ensures { result ≡ found name.now (rows_of rows.now) }
{
    for (known, value) in rows {
        if *known == name {
            return Some(*value);
        }
    }
    None
}

/// What the first row of this name has, without regard to the case of letters.
pub fn found_in_any_case<X: Copy>(name: &[u8], rows: &[(&[u8], X)]) -> Option<X>
    ensures { result ≡ found_in_any_case name.now (rows_of rows.now) }
{
    for (known, value) in rows {
        if is_same_in_any_case(known, name) {
            return Some(*value);
        }
    }
    None
}

fn is_same_in_any_case(left: &[u8], right: &[u8]) -> bool
    ensures { result ≡ str_eq_ignore_ascii_case left.now right.now }
{
    left.eq_ignore_ascii_case(right)
}

/// Whether a row has both.
pub fn has_pair(first: &[u8], second: &[u8], rows: &[(&[u8], &[u8])]) -> bool
    ensures { result ≡ has_pair first.now second.now (pairs_of rows.now) }
{
    for (left, right) in rows {
        if *left == first && *right == second {
            return true;
        }
    }
    false
}
