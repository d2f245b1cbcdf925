//! What the words of the command line and the two files of options mean for a start. It reads the
//! files by their port, and writes on the error stream what becomes of the settings. Begin with
//! `read_options`; definitions are in `specs/GpgAgent`.

ghost use Rattle.std.specs.Prelude.{◌≡◌, Some, map, string_bytes, MatchResult};
ghost use Rattle.std.specs.Option.{option_map};
ghost use Rattle.agent_top.specs.GpgAgent.{EndsBy, MeansOptions, ReadsFiles, ReadsNone, ReadsOptions, found_in};
ghost use Rattle.agent_top.specs.GpgAgent.{options_of};

use crate::Status;
use crate::gpg_agent::telling::tell;
use agent_conf::{Folders, Mode, Start, StartFault, read_start};
use agent_ports::{ConfFiles, ConfRead, Sink};
use session_options::Rules;
use std::alloc::Global;

/// Where an agent is started: by which folders its paths are read, and what stands in front of
/// what it tells.
#[derive(Drop)]
pub struct StartPlace<'a> {
    /// What each line begins with: the name of the program, a colon and a blank.
    pub program: &'a [u8],
    pub folders: Folders<'a>,
    /// The path of the machine's file of options.
    pub machine_file: &'a [u8],
    /// The path of the home folder's file, or of the one that stands for it.
    pub home_file: &'a [u8],
}

/// What the words and the files say of a start.
#[derive(Drop)]
pub struct Options {
    pub mode: Mode,
    pub rules: Rules,
    /// Whether a home folder that other hosts may have is taken: `force-network-home`.
    pub forces_network_home: bool,
    /// The milliseconds that a measured count takes: `s2k-calibration`.
    pub calibration: u64,
    /// Whether nobody names a count, so that one is to be measured.
    pub measures_count: bool,
}

/// Reads the machine's file and that of the home folder, and what they mean with the words, which
/// leave out the program's name. What becomes of their settings is told on the error stream, a
/// line each, where the files were read. The status is 2 where a setting is refused or a file can't
/// be read, and 1 where there is no memory.
pub fn read_options<F: ConfFiles, E: Sink>(
    alloc: Global,
    place: &StartPlace<'_>,
    words: &[String],
    files: &mut F,
    errors: &mut E,
) -> Result<Options, Status>
    ensures { ReadsOptions place.now (map string_bytes words.now) (F.confs files.old)
        (E.output errors.old) result (F.confs files.new) (E.output errors.new) }
{
    let (machine, home) = read_files(alloc, files)?;
    settle(
        alloc,
        place,
        words,
        machine.as_deref(),
        home.as_deref(),
        errors,
    )
}

/// What the words and these files mean.
fn settle<E: Sink>(
    alloc: Global,
    place: &StartPlace<'_>,
    words: &[String],
    machine: Option<&[u8]>,
    home: Option<&[u8]>,
    errors: &mut E,
) -> Result<Options, Status>
    ensures { MeansOptions place.now (map string_bytes words.now)
        (option_map (λ file. file.now) machine.entry) (option_map (λ file. file.now) home.entry)
        (E.output errors.old) result (E.output errors.new) }
{
    match read_start(alloc, &place.folders, words, machine, home) {
        Ok(start) => {
            tell(alloc, place, &start.told, errors)?;
            Ok(options_of(start))
        }
        Err(StartFault::Refused(told)) => {
            tell(alloc, place, &told, errors)?;
            Err(Status::BadWords)
        }
        Err(StartFault::NoMemory) => Err(Status::NoMemory),
    }
}

/// Reads the machine's file, and then that of the home folder.
fn read_files<F: ConfFiles>(
    alloc: Global,
    files: &mut F,
) -> Result<(Option<Vec<u8>>, Option<Vec<u8>>), Status>
    ensures { MatchResult result (λ found. ReadsFiles (F.confs files.old)
        (option_map (λ file. file.items) found.0) (option_map (λ file. file.items) found.1)
        (F.confs files.new)) (λ ends. ReadsNone (F.confs files.old) ends (F.confs files.new)) }
{
    let machine = text_of(files.read_machine(alloc))?;
    let home = text_of(files.read_home(alloc))?;
    Ok((machine, home))
}

/// The bytes of a file that was read, or none where it isn't there.
fn text_of(read: ConfRead) -> Result<Option<Vec<u8>>, Status>
    ensures { MatchResult result (λ text. found_in read
        ≡ Some (option_map (λ file. file.items) text)) (λ ends. EndsBy read ends) }
{
    match read {
        ConfRead::Found(bytes) => Ok(Some(bytes)),
        ConfRead::Absent => Ok(None),
        ConfRead::Failed => Err(Status::BadWords),
        ConfRead::NoMemory => Err(Status::NoMemory),
    }
}

fn options_of(start: Start<'_>) -> Options
    ensures { result ≡ options_of start.entry }
{
    Options {
        mode: start.mode,
        rules: start.rules,
        forces_network_home: start.forces_network_home,
        calibration: start.calibration,
        measures_count: start.measures_count,
    }
}
