//! What the words of the command line and the environment say before a file is read: what is to be
//! done, and in which home folder. It takes memory for the paths. Begin with `Call::read`.

use agent_conf::{
    ConfFile, Environment, Folders, MAX_PATH_LEN, Mode, Path, Refusal, StartFault, Told, Verdict,
    read_places, read_start,
};
use agent_start::{Fault, HomeConf, MACHINE_CONF, Voice, log_path, said};
use agent_top::StartPlace;
use gnupg_home::{absolute, variable};
use printable::Printable;
use std::alloc::{AllocError, Global};
use std::rt::Env;
use std::str;

/// One call of the program.
#[derive(Drop)]
pub(crate) struct Call {
    pub(crate) mode: Mode,
    /// The words of the command line, without the program's name.
    pub(crate) words: Vec<String>,
    /// The home folder, as a path from the root.
    pub(crate) home: String,
    /// The user's own folder, or nothing.
    pub(crate) user: String,
    pub(crate) conf: HomeConf,
    /// The log of the folder.
    pub(crate) log: String,
}

impl Call {
    /// What these words and the environment say.
    pub(crate) fn read(env: &impl Env, alloc: Global, words: Vec<String>) -> Result<Call, Fault> {
        let user = variable(env, alloc, "HOME")?.unwrap_or(String::new(alloc));
        let gnupg = variable(env, alloc, "GNUPGHOME")?.unwrap_or(String::new(alloc));
        let (home, conf) = read_paths(env, alloc, &words, &user, &gnupg)?;
        let mode = mode_of(alloc, &words)?;
        let log = log_path(alloc, &home)?;
        Ok(Call {
            mode,
            words,
            home,
            user,
            conf,
            log,
        })
    }

    /// To whom this call says what it has to say.
    pub(crate) fn voice(&self) -> Voice<'_> {
        match self.mode {
            Mode::Check => Voice::Answer,
            Mode::Serve => Voice::Caller,
            Mode::Detach => Voice::CallerAndLog(&self.log),
            Mode::Stay => Voice::Log,
        }
    }

    /// What the options are read by.
    pub(crate) fn place(&self) -> StartPlace<'_> {
        StartPlace {
            // Whoever says a line has it in front.
            program: b"",
            folders: Folders {
                home: as_path(&self.home),
                user: self.user.as_bytes(),
            },
            machine_file: MACHINE_CONF.as_bytes(),
            home_file: self.home_file().as_bytes(),
        }
    }

    /// The path of the home folder's file, as it is told.
    pub(crate) fn home_file(&self) -> &str {
        match &self.conf {
            HomeConf::OfFolder(path) | HomeConf::Named(path) => path.as_str(),
            HomeConf::Nothing => "/dev/null",
        }
    }
}

fn as_path(text: &str) -> Path {
    let mut path = Path::new();
    // It was measured before.
    let _ = path.try_extend_from_slice(text.as_bytes());
    path
}

/// The home folder and the file of its options.
fn read_paths(
    env: &impl Env,
    alloc: Global,
    words: &[String],
    user: &str,
    gnupg: &str,
) -> Result<(String, HomeConf), Fault> {
    let environment = Environment {
        user: user.as_bytes(),
        home: gnupg.as_bytes(),
    };
    let places = read_places(alloc, words, &environment)?;
    let home = match &places.home {
        Some(path) => absolute(env, alloc, str::from_utf8(path).unwrap_or(""))?,
        None => return Err(no_home(alloc)),
    };
    if home.len() > MAX_PATH_LEN {
        return Err(no_home(alloc));
    }
    let conf = match places.conf {
        ConfFile::OfHome => HomeConf::OfFolder(format!(in alloc; "{home}/gpg-agent.conf")?),
        ConfFile::Named(path) => {
            HomeConf::Named(absolute(env, alloc, str::from_utf8(path).unwrap_or(""))?)
        }
        ConfFile::Nothing => HomeConf::Nothing,
    };
    Ok((home, conf))
}

fn no_home(alloc: Global) -> Fault {
    said(
        2,
        format!(in alloc;
            "no home folder is named, or its path has more than {MAX_PATH_LEN} bytes: name one by --homedir"
        ),
    )
}

/// What the words say that is to be done. A command that is to run beside a daemon is refused
/// before anything is made.
fn mode_of(alloc: Global, words: &[String]) -> Result<Mode, Fault> {
    let folders = Folders {
        home: Path::new(),
        user: b"/",
    };
    let told = match read_start(alloc, &folders, words, None, None) {
        Ok(start) => return Ok(start.mode),
        Err(StartFault::Refused(told)) => told,
        Err(StartFault::NoMemory) => return Err(Fault::NoMemory),
    };
    let mode = spelled_mode(words);
    match first_command(&told) {
        Some(command) if matches!(mode, Mode::Detach | Mode::Stay) => {
            let command = Printable(command);
            Err(said(
                2,
                format!(in alloc;
                    "{command} isn't started: no command is run beside the daemon, so start it by itself"
                ),
            ))
        }
        _ => Ok(mode),
    }
}

/// The first word that is no option.
fn first_command<'a>(told: &[Told<'a>]) -> Option<&'a [u8]> {
    told.iter()
        .find(|one| one.verdict == Verdict::Refused(Refusal::NoCommand))
        .map(|one| one.setting.text)
}

/// What is to be done by words of which one is refused: only to whom it is told hangs on that.
fn spelled_mode(words: &[String]) -> Mode {
    let mut mode = Mode::Detach;
    for word in words {
        match word.as_str() {
            "--check-options" => return Mode::Check,
            "--server" => mode = Mode::Serve,
            "--no-detach" => mode = Mode::Stay,
            "--daemon" => mode = Mode::Detach,
            _ => {}
        }
    }
    mode
}

/// The words of the command line without the program's name.
pub(crate) fn words_of(env: &impl Env, alloc: Global) -> Result<Vec<String>, Fault> {
    let Ok(all) = std::env::args(&(env, alloc)) else {
        return Err(said(
            2,
            format!(in alloc;
                "a word of the command line isn't UTF-8, or there are too many: write it anew"
            ),
        ));
    };
    let mut words = Vec::new(alloc);
    for word in all.skip(1) {
        words.push(word).map_err(|_| AllocError)?;
    }
    Ok(words)
}
