//! A test of line filters: whether a line is skipped may depend on those before it. Begin with
//! `FirstTwo`, a filter that has a state.

ghost use Rattle.std.specs.Prelude.{length, nat_lt};

use agent_ports::MemSource;
use assuan_line::{Line, LineFilter, LineReader, Took, next_after_skipped};
use std::test::Fail;

/// Skips two lines in all, whatever they are.
#[derive(Drop)]
struct FirstTwo {
    count: usize,
}

impl LineFilter for FirstTwo {
    ghost use Rattle.std.specs.Prelude.{◌≡◌, length, nat_lt};

    ghost skips = { λ before _. nat_lt (length before) 2 };

    ghost keeps = { λ filter lines. filter.count ≡ length lines };

    ghost limit = { λ _. 0 };

    fn skip(&mut self, _line: &Line) -> bool {
        if self.count < 2 {
            self.count += 1;
            return true;
        }
        false
    }
}

#[test]
fn whether_a_line_is_skipped_may_depend_on_those_before(rt: HostRuntime) -> Result<(), Fail> {
    let alloc = rt.alloc();
    let mut source = MemSource::new(Vec::from_slice(alloc, b"a\nb\nc\nd\n")?, 1, Vec::new(alloc));
    let mut reader = LineReader::new(alloc, 100);
    let mut filter = FirstTwo { count: 0 };
    let Took::Line(line) = next_after_skipped(&mut reader, &mut source, &mut filter) else {
        return Err("no line".into());
    };
    assert_eq!(rt; line.bytes(), b"c".as_slice());
    let Took::Line(line) = next_after_skipped(&mut reader, &mut source, &mut filter) else {
        return Err("no second line".into());
    };
    assert_eq!(rt; line.bytes(), b"d".as_slice());
    Ok(())
}
