//! A test of the cache's steps as values: one that isn't taken gives back the ticket (permit) that
//! it has. No cache is called; laws of `cache_policy` are, once each.

use cache_policy::{
    Secret, Step, a_history_turns_over, a_replay_is_the_only_one, a_run_goes_on, no_secret_is_read,
    nothing_comes_back, one_more_mark, one_prompt,
};
use prompt_seat::Seat;
use std::test::Fail;

#[test]
fn a_step_gives_its_ticket_back(rt: HostRuntime) -> Result<(), Fail> {
    let mut seat = Seat::new();
    let Some(ticket) = seat.take(7) else {
        return Err("no ticket".into());
    };
    let close = Step::Close {
        ticket,
        keep: Secret::of(b"pw"),
    };
    let given = match close.into_ticket() {
        Some(ticket) => seat.give(ticket),
        None => false,
    };
    assert!(rt; given);
    let other = match Step::Flush.into_ticket() {
        Some(ticket) => !seat.give(ticket),
        None => true,
    };
    assert!(rt; other);
    one_more_mark();
    a_history_turns_over();
    a_run_goes_on();
    a_replay_is_the_only_one();
    no_secret_is_read();
    nothing_comes_back();
    one_prompt();
    Ok(())
}
