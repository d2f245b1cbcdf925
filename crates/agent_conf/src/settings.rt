//! What the words of the command line and two files set. It takes memory for the lists alone. Begin
//! with `Settings::read`; definitions are in `specs/Settled` and `specs/Starts`.

ghost use Rattle.std.specs.Prelude.{◌≡◌, [], IfOk, map, string_bytes, unwrap_or};
ghost use Rattle.std.specs.Option.{option_map};
ghost use Rattle.agent_conf.specs.Written.{written};

use crate::lines::settings_in;
use crate::setting::{Place, Setting};
use crate::settled::last_of;
use crate::words::settings_of;
use std::alloc::{AllocError, Global};

/// What is set in each of the three places.
#[derive(Drop)]
pub(crate) struct Settings<'a> {
    pub(crate) machine: Vec<Setting<'a>>,
    pub(crate) home: Vec<Setting<'a>>,
    pub(crate) words: Vec<Setting<'a>>,
}

impl<'a> Settings<'a> {
    ghost use Rattle.agent_conf.specs.{Settled.{all_of, settled}, Starts.texts_of, Texts.texts_in};

    /// Those of the machine's file, of the home folder's and of the words. A file that isn't there
    /// sets nothing.
    pub(crate) fn read(
        alloc: Global,
        words: &'a [String],
        machine: Option<&'a [u8]>,
        home: Option<&'a [u8]>,
    ) -> Result<Settings<'a>, AllocError>
        ensures { IfOk result (λ settings. texts_in settings
            ≡ texts_of (option_map (λ file. file.now) machine.entry)
            (option_map (λ file. file.now) home.entry) (map string_bytes words.entry.now)) }
    {
        let machine = settings_in(alloc, Place::Machine, text_of(machine))?;
        let home = settings_in(alloc, Place::Home, text_of(home))?;
        let words = settings_of(alloc, words)?;
        Ok(Settings {
            machine,
            home,
            words,
        })
    }

    /// The setting of an option of these names that counts.
    pub(crate) fn settled(&self, names: &[&[u8]]) -> Option<Setting<'a>>
        ensures { option_map written result
            ≡ settled (map (λ name. name.now) names.entry.now) (texts_in self.entry.now) }
    {
        let of_word = last_of(names, &self.words);
        if of_word.is_some() {
            return of_word;
        }
        let of_home = last_of(names, &self.home);
        if of_home.is_some() {
            return of_home;
        }
        last_of(names, &self.machine)
    }

    /// All of them, in the order in which they are read.
    pub(crate) fn all(&self, alloc: Global) -> Result<Vec<Setting<'a>>, AllocError>
        ensures { IfOk result
            (λ all. map written all.items ≡ all_of (texts_in self.entry.now)) }
    {
        let mut all = Vec::new(alloc);
        all.extend_from_slice(&self.machine)?;
        all.extend_from_slice(&self.home)?;
        all.extend_from_slice(&self.words)?;
        Ok(all)
    }
}

/// The text of a file, which is empty where there is none.
fn text_of(file: Option<&[u8]>) -> &[u8]
    ensures { result.now ≡ unwrap_or (option_map (λ text. text.now) file.entry) [] }
{
    match file {
        Some(text) => text,
        None => b"",
    }
}
