//! What the statuses of the agent mean, in words. Pure. Begin with `reason`.

/// Why a daemon ends with this status, but for one that was told to.
pub fn reason(status: u8) -> Option<&'static str> {
    match status {
        0 => None,
        1 => Some("there was no memory"),
        2 => Some("its options were refused"),
        3 => Some("a read failed"),
        4 => Some("its summary couldn't be written"),
        5 => Some("it could have no socket in the home folder, or lost it for good"),
        6 => Some("the session has read all that it may"),
        7 => Some("a line was longer than 1,000 bytes"),
        126 | 127 => Some("it can't be run"),
        _ => Some("see dogwoodcatch-agent(1), EXIT STATUS"),
    }
}
