//! A setting as it is written in a file or on the command line. Plain data over the text itself.
//! Begin with `Setting`; `Written` of `specs/Written` is what contracts see of it.

/// Where options are set. A later one of these counts before the ones above it.
#[derive(Clone, Copy, Debug, PartialEq, Eq)]
pub enum Place {
    /// `gpg-agent.conf` of the machine's own folder.
    Machine,
    /// `gpg-agent.conf` of the home folder, or the file that stands for it.
    Home,
    /// The command line.
    Words,
}

/// An option's name, and what is written behind it.
#[derive(Clone, Copy)]
pub struct Setting<'a> {
    /// Where it stands.
    pub place: Place,
    /// The number of its line there, or of its word, from 1.
    pub number: usize,
    /// The line without the white space around it, or the word.
    pub text: &'a [u8],
    /// The name of the option, of the command line with its dashes.
    pub name: &'a [u8],
    /// What it is set to: nothing, where nothing is written.
    pub value: &'a [u8],
}
