//! Which agents are asked: those that answer, and one that is started where none does. It works on
//! sockets, files and processes by `reach.rt`, `set_up.rt` and `starting.rt`. Begin with
//! `find_agents`.

ghost use Rattle.std.specs.Prelude.{IfOk};
ghost use Rattle.passphrase_host.specs.Paths.{IsAt};

use crate::failure::{Failure, refused, said};
use crate::patience::{Deadline, Limits};
use crate::reach::{Ahead, Greeting, Reached, greet, reach, too_long};
use crate::set_up::{SetUp, StandIn, has_keys, set_up, stand_in};
use crate::starting::{make_own, silence, start};
use gnupg_home::{
    MAX_PATH, absolute, check_home, gnupg_home, home_socket, own_folder, socket_paths,
};
use std::alloc::Global;
use std::fs;
use std::fs::{File, Files};
use std::marker::Model;
use std::net::Net;
use std::os::unix::fs::FileTypeExt;
use std::process::Processes;
use std::rt::{Clock, Env};

/// An agent that is asked. Contracts see where it may listen.
#[derive(Drop)]
pub(crate) struct Asked {
    pub(crate) folder: String,
    paths: Vec<String>,
    made: Option<Opened>,
}

impl Model for Asked {
    ghost use Rattle.std.specs.Prelude.{List, ℕ, map, string_bytes};
    ghost use Rattle.passphrase_host.specs.Paths.{IsMadeAt};

    ghost Value = { List (List ℕ) };

    ghost view = { λ asked. map string_bytes asked.paths.items };

    ghost invariant = { λ asked. IsMadeAt (map string_bytes asked.paths.items) asked.made };
}

/// A connection that was made already, and what was read of it.
#[derive(Drop)]
pub(crate) struct Opened {
    pub(crate) reached: Reached,
    pub(crate) ahead: Ahead,
}

/// The agents that answer: that of the folder that the user means, and where it runs too that of
/// the folder of its own.
#[derive(Drop)]
pub(crate) struct Found {
    pub(crate) home: Asked,
    pub(crate) beside: Option<Asked>,
}

/// Finds the agents for the folder that the user names, or for the GnuPG home, and starts one where
/// none answers.
pub(crate) fn find_agents<R: Clock + Env + Processes + Files<File = File> + Net + Eprint>(
    rt: &R,
    alloc: Global,
    named: Option<&str>,
    limits: Limits,
) -> Result<Found, Failure> {
    let stand_in = stand_in(rt, alloc)?;
    match named {
        Some(named) => {
            let folder = absolute(rt, alloc, named)?;
            Ok(Found {
                home: named_agent(rt, alloc, folder, stand_in, limits)?,
                beside: None,
            })
        }
        None => match gnupg_home(rt, alloc)? {
            Some(home) => home_agents(rt, alloc, home, stand_in, limits),
            None => Err(said(format!(in alloc;
                "no agent: neither GNUPGHOME nor HOME names a folder for it"
            ))),
        },
    }
}

/// The agent of the folder that the user names. It is taken as it is, but where who uses its keys
/// would miss GnuPG's own agent.
fn named_agent<R: Clock + Env + Processes + Files<File = File> + Net>(
    rt: &R,
    alloc: Global,
    folder: String,
    stand_in: StandIn,
    limits: Limits,
) -> Result<Asked, Failure> {
    let mut asked = Asked::new(rt, alloc, folder)?;
    if asked.is_there(rt, alloc, limits)? {
        return Ok(asked);
    }
    let program = match set_up(rt, alloc, asked.folder.as_str())? {
        SetUp::By(program) => program,
        SetUp::Marked => stand_in,
        SetUp::No => {
            refuse_keys(rt, alloc, asked.folder.as_str())?;
            stand_in
        }
    };
    let program = path_of(alloc, asked.folder.as_str(), program)?;
    asked.start(rt, alloc, program.as_str(), limits)?;
    Ok(asked)
}

fn refuse_keys<R: Files>(rt: &R, alloc: Global, folder: &str) -> Result<(), Failure> {
    if has_keys(rt, alloc, folder)? {
        return Err(said(format!(in alloc;
            "no agent answers for {folder}, and ours isn't started there: the folder has secret keys, by which ours neither signs nor decrypts"
        )));
    }
    Ok(())
}

/// The agent of the GnuPG home, which is started where the folder was set up for it, and beside it
/// the one of the folder of its own: what was typed while none answered for the GnuPG home is there.
fn home_agents<R: Clock + Env + Processes + Files<File = File> + Net + Eprint>(
    rt: &R,
    alloc: Global,
    home: String,
    stand_in: StandIn,
    limits: Limits,
) -> Result<Found, Failure> {
    let own = own_folder(rt, alloc)?;
    let mut asked = Asked::new(rt, alloc, home)?;
    if !asked.is_there(rt, alloc, limits)? {
        let program = match set_up(rt, alloc, asked.folder.as_str())? {
            SetUp::By(program) => program,
            SetUp::Marked => stand_in,
            SetUp::No => {
                let home = own_agent(rt, alloc, asked.folder.as_str(), own, stand_in, limits)?;
                return Ok(Found { home, beside: None });
            }
        };
        let program = path_of(alloc, asked.folder.as_str(), program)?;
        asked.start(rt, alloc, program.as_str(), limits)?;
    }
    let beside = running_own(rt, alloc, asked.folder.as_str(), own)?;
    Ok(Found {
        home: asked,
        beside,
    })
}

/// The agent of the folder of its own, where it runs and isn't that of the GnuPG home.
fn running_own<R: Env + Files<File = File> + Net>(
    rt: &R,
    alloc: Global,
    home: &str,
    own: Option<String>,
) -> Result<Option<Asked>, Failure> {
    let Some(own) = own else {
        return Ok(None);
    };
    if own.as_str() == home || !is_folder(rt, own.as_str()) {
        return Ok(None);
    }
    let socket = home_socket(alloc, own.as_str())?;
    let mut asked = Asked::new(rt, alloc, own)?;
    Ok(if is_socket(rt, socket.as_str()) && asked.is_reached(rt, alloc)? {
        Some(asked)
    } else {
        None
    })
}

fn is_folder(files: &impl Files, path: &str) -> bool {
    fs::metadata(files, path).is_ok_and(|found| found.is_dir())
}

fn is_socket(files: &impl Files, path: &str) -> bool {
    fs::metadata(files, path).is_ok_and(|found| found.file_type().is_socket())
}

/// The agent of the folder of its own, in which no other program looks for one. It is started where
/// none answers, and who makes the folder says so.
fn own_agent<R: Clock + Env + Processes + Files<File = File> + Net + Eprint>(
    rt: &R,
    alloc: Global,
    home: &str,
    own: Option<String>,
    stand_in: StandIn,
    limits: Limits,
) -> Result<Asked, Failure> {
    let Some(own) = own else {
        return Err(said(format!(in alloc;
            "no agent answers for {home}, which isn't set up for ours, and HOME names no place for a folder of its own: name one by --homedir"
        )));
    };
    let mut asked = Asked::new(rt, alloc, own)?;
    if asked.is_there(rt, alloc, limits)? {
        return Ok(asked);
    }
    let program = path_of(alloc, home, stand_in)?;
    let own = asked.folder.as_str();
    if make_own(rt, alloc, own, home)? {
        // Where that can't be written nobody is to be told.
        let _ = eprintln!(rt;
            "passphrase: no agent answers for {home}, which isn't set up for ours: made {own}, in which it is started"
        );
    }
    asked.start(rt, alloc, program.as_str(), limits)?;
    Ok(asked)
}

/// The program that is started for this folder, where there is one.
fn path_of(alloc: Global, folder: &str, program: StandIn) -> Result<String, Failure> {
    match program {
        StandIn::At(path) => Ok(path),
        StandIn::Refused(reason) => Err(said(format!(in alloc;
            "no agent answers for {folder}, and none is started: {reason}"
        ))),
        StandIn::Missing => Err(said(format!(in alloc;
            "no agent answers for {folder}, and its program isn't installed"
        ))),
    }
}

fn not_started(alloc: Global, folder: &str) -> Failure {
    said(format!(in alloc;
        "no agent answers for {folder}, and none could be started (agent.log there may say why)"
    ))
}

impl Asked {
    /// The agent of this folder, to which no connection was made. The folder is the user's alone:
    /// nothing in it is looked at before.
    fn new<R: Env + Files<File = File>>(
        rt: &R,
        alloc: Global,
        folder: String,
    ) -> Result<Self, Failure> {
        check_home(rt, alloc, folder.as_str()).map_err(|fault| refused(alloc, &fault))?;
        let paths = socket_paths(rt, alloc, folder.as_str())?;
        Ok(Asked {
            folder,
            paths,
            made: None,
        })
    }

    /// Whether an agent answers. One that is there and has no answer is a failure: none is started
    /// in its place.
    fn is_there<R: Clock + Env + Processes + Files<File = File> + Net>(
        &mut self,
        rt: &R,
        alloc: Global,
        limits: Limits,
    ) -> Result<bool, Failure> {
        let Some(mut reached) = reach(rt, alloc, self.paths.as_slice())? else {
            return Ok(false);
        };
        match greet(
            rt,
            &mut reached.stream,
            Deadline::in_seconds(rt, limits.answer),
        ) {
            Greeting::Agent(ahead) => {
                self.made = Some(Opened { reached, ahead });
                Ok(true)
            }
            Greeting::Other => Ok(false),
            Greeting::Silent => Err(silence(rt, alloc, self.folder.as_str(), limits.answer)),
        }
    }

    /// Whether somebody listens there. That one may hang.
    fn is_reached<R: Env + Files<File = File> + Net>(
        &mut self,
        rt: &R,
        alloc: Global,
    ) -> Result<bool, Failure> {
        let Some(reached) = reach(rt, alloc, self.paths.as_slice())? else {
            return Ok(false);
        };
        let ahead = Ahead::new();
        self.made = Some(Opened { reached, ahead });
        Ok(true)
    }

    /// Has this program start an agent, which answers then.
    fn start<R: Clock + Env + Processes + Files<File = File> + Net>(
        &mut self,
        rt: &R,
        alloc: Global,
        program: &str,
        limits: Limits,
    ) -> Result<(), Failure> {
        let socket = home_socket(alloc, self.folder.as_str())?;
        if socket.len() > MAX_PATH {
            return Err(too_long(alloc, socket.as_str()));
        }
        if start(rt, alloc, program, self.folder.as_str())? && self.is_there(rt, alloc, limits)? {
            return Ok(());
        }
        Err(not_started(alloc, self.folder.as_str()))
    }

    /// The connection that was made already, or else a new one.
    pub(crate) fn opened<R: Env + Files<File = File> + Net>(
        &mut self,
        rt: &R,
        alloc: Global,
    ) -> Result<Opened, Failure>
        ensures at { IfOk result (IsAt self.old) }
    {
        if let Some(opened) = self.made.take() {
            return Ok(opened);
        }
        match reach(rt, alloc, self.paths.as_slice())? {
            Some(reached) => Ok(Opened {
                reached,
                ahead: Ahead::new(),
            }),
            None => {
                let folder = self.folder.as_str();
                Err(said(format!(in alloc; "no agent answers for {folder}")))
            }
        }
    }
}
