//! What becomes of the options of a start, as lines on the error stream. It writes there alone; a
//! write that fails is told to nobody. Begin with `tell`; definitions are in `specs/GpgAgent`.

ghost use Rattle.std.specs.Prelude.{◌≡◌, ◌++◌, IfOk, map, MatchResult};
ghost use Rattle.agent_conf.specs.{Told.told_by};
ghost use Rattle.agent_top.specs.GpgAgent.{Tells, TellsFirst, file_text, told_line};

use crate::gpg_agent::reading::StartPlace;
use agent_conf::{Place, Told, printable_text, told_text};
use agent_ports::Sink;
use std::alloc::{AllocError, Global};

/// Writes a line for each of them, as far as there is memory.
pub(crate) fn tell<E: Sink>(
    alloc: Global,
    place: &StartPlace<'_>,
    told: &[Told<'_>],
    errors: &mut E,
) -> Result<(), AllocError>
    ensures { MatchResult result (λ done. Tells place.now (E.output errors.old)
        (map told_by told.now) (E.output errors.new)) (λ fault. TellsFirst place.now
        (E.output errors.old) (map told_by told.now) (E.output errors.new)) }
{
    for one in told {
        let line = told_line(alloc, place, one)?;
        // Where it can't be written nobody is to be told.
        let _ = errors.put(&line);
    }
    Ok(())
}

/// The line by which it is told of a setting.
fn told_line(alloc: Global, place: &StartPlace<'_>, told: &Told<'_>) -> Result<Vec<u8>, AllocError>
    ensures { IfOk result (λ line. line.items ≡ told_line place.now (told_by told.now)) }
{
    let mut line = Vec::from_slice(alloc, place.program)?;
    put_file(alloc, &mut line, place, told.setting.place)?;
    let text = told_text(alloc, told)?;
    line.extend_from_slice(&text)?;
    line.push(b'\n')?;
    Ok(line)
}

/// The path of the file that a setting stands in.
fn put_file(
    alloc: Global,
    line: &mut Vec<u8>,
    place: &StartPlace<'_>,
    file: Place,
) -> Result<(), AllocError>
    ensures { IfOk result (λ done. line.new.items
        ≡ line.old.items ++ file_text place.now file) }
{
    let path = match file {
        Place::Machine => place.machine_file,
        Place::Home => place.home_file,
        Place::Words => return Ok(()),
    };
    let path = printable_text(alloc, path)?;
    line.extend_from_slice(&path)?;
    line.extend_from_slice(b", ")
}
