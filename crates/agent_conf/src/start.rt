//! What an agent is started with, by the words of the command line and two files. It takes memory
//! for the settings and for what is told of them. Begin with `read_start`; definitions are in
//! `specs/Starts`.

ghost use Rattle.std.specs.Prelude.{◌≡◌, ◌==◌, IfErr, IfOk, false, map, string_bytes, true};
ghost use Rattle.std.specs.Option.{option_map};
ghost use Rattle.agent_conf.specs.Starts.{IsStart, IsRefused, texts_of, told_of};
ghost use Rattle.agent_conf.specs.{Told.told_by, Verdicts.has_refusal};

use crate::paths::Folders;
use crate::rules::{Mode, calibration_of, count_named, is_set, mode_of, rules_of};
use crate::settings::Settings;
use crate::told::{Told, has_refusal, told_of};
use session_options::Rules;
use std::alloc::{AllocError, Global};

/// The milliseconds that a measured count takes where nobody says.
pub const CALIBRATION: u64 = 100;

/// What an agent is started with.
#[derive(Drop)]
pub struct Start<'a> {
    pub mode: Mode,
    pub rules: Rules,
    /// What is told of the settings, of which none is refused.
    pub told: Vec<Told<'a>>,
    /// Whether a home folder that other hosts may have is taken: `force-network-home`.
    pub forces_network_home: bool,
    /// The milliseconds that a measured count takes: `s2k-calibration`.
    pub calibration: u64,
    /// Whether nobody names a count, so that one is to be measured. The rules have the usual one.
    pub measures_count: bool,
}

/// Why an agent isn't started.
#[derive(Drop)]
pub enum StartFault<'a> {
    /// What is told of the settings, of which one is refused or more.
    Refused(Vec<Told<'a>>),
    /// There was no memory.
    NoMemory,
}

impl<'a> From<AllocError> for StartFault<'a> {
    ghost use Rattle.agent_conf.specs.declared.start.StartFault.{StartFault};

    ghost from_gives = { λ _ fault. fault ≡ StartFault.NoMemory };

    fn from(_error: AllocError) -> StartFault<'a> {
        StartFault::NoMemory
    }
}

/// Reads the words of the command line, without the program's name, and the files of the machine
/// and of the home folder. A word counts before a line of the home folder's file, and this before
/// one of the machine's; in each of them the last one counts. A setting that can't be kept as it is
/// written, nor more strictly, refuses the start, also where another one counts before it.
pub fn read_start<'a>(
    alloc: Global,
    folders: &Folders<'_>,
    words: &'a [String],
    machine: Option<&'a [u8]>,
    home: Option<&'a [u8]>,
) -> Result<Start<'a>, StartFault<'a>>
    ensures start { IfOk result (IsStart folders.entry.now.home.items folders.entry.now.user.now
        (texts_of (option_map (λ file. file.now) machine.entry)
        (option_map (λ file. file.now) home.entry) (map string_bytes words.entry.now))) }
    ensures refused { IfErr result (IsRefused folders.entry.now.home.items
        folders.entry.now.user.now (texts_of (option_map (λ file. file.now) machine.entry)
        (option_map (λ file. file.now) home.entry) (map string_bytes words.entry.now))) }
{
    let settings = Settings::read(alloc, words, machine, home)?;
    let all = settings.all(alloc)?;
    let told = told_of(alloc, folders, &all)?;
    if has_refusal(&told) {
        return Err(StartFault::Refused(told));
    }
    Ok(Start {
        mode: mode_of(&settings.words),
        rules: rules_of(folders, &settings),
        told,
        forces_network_home: is_set(&settings, b"force-network-home"),
        calibration: calibration_of(&settings),
        measures_count: count_named(&settings) == 0,
    })
}
