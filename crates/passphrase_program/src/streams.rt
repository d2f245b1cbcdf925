//! The standard streams that were closed as the program began, each held by a file in its place. It
//! opens `/dev/null`, before anything else is opened. Begin with `Streams::hold`.

use std::fs::{File, OpenOptions};
use std::os::fd::AsFd;

/// What takes everything, and has nothing.
const NOTHING: &str = "/dev/null";

/// The standard streams that were closed, each with a file in its place. Else the connection to the
/// agent would get the number of one of them, and what is written there would go to the agent.
#[derive(Drop)]
pub(crate) struct Streams {
    input: Option<File>,
    output: Option<File>,
    errors: Option<File>,
    output_is_closed: bool,
}

impl Streams {
    /// Holds the place of each one that is closed. A file that is opened gets the lowest number
    /// that is free, so they are taken in their order.
    pub(crate) fn hold(rt: &HostRuntime) -> Self {
        let input = if is_open(&rt.stdin()) {
            None
        } else {
            File::open(rt, NOTHING).ok()
        };
        let output_is_closed = !is_open(&rt.stdout());
        let output = if output_is_closed { sink(rt) } else { None };
        let errors = if is_open(&rt.stderr()) {
            None
        } else {
            sink(rt)
        };
        Streams {
            input,
            output,
            errors,
            output_is_closed,
        }
    }

    /// Whether standard output was closed.
    pub(crate) fn output_is_closed(&self) -> bool {
        self.output_is_closed
    }
}

fn sink(rt: &HostRuntime) -> Option<File> {
    OpenOptions::new().write(true).open(rt, NOTHING).ok()
}

fn is_open(stream: &impl AsFd) -> bool {
    stream.as_fd().try_clone_to_owned().is_ok()
}
