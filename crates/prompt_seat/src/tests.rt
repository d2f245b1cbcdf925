//! The seat (the prompt's lock) and its tickets (permits) in one run: one is out at a time, and
//! another seat's ticket frees none. It touches values alone.

use super::*;
use std::test::Fail;

#[test]
fn one_ticket_is_out_at_a_time(rt: HostRuntime) -> Result<(), Fail> {
    let mut seat = Seat::new();
    let mut other = Seat::new();
    assert_eq!(rt; seat.holder(), None);
    let Some(ticket) = seat.take(7) else {
        return Err("no ticket".into());
    };
    assert_eq!(rt; ticket.number(), 7);
    assert_eq!(rt; seat.holder(), Some(7));
    let second = match seat.take(8) {
        Some(second) => seat.give(second),
        None => false,
    };
    assert!(rt; !second);
    assert!(rt; !other.give(ticket));
    assert_eq!(rt; seat.holder(), Some(7));
    let Some(same) = other.take(7) else {
        return Err("no ticket".into());
    };
    assert!(rt; seat.give(same));
    assert_eq!(rt; seat.holder(), None);
    Ok(())
}
