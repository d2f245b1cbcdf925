//! Sessions on keys go as their rows say. The rows are in `key_sessions.rt`, `key_faults.rt` and
//! `key_questions.rt`, which tools/key-sessions makes; here each table is served by `first_wrong`
//! (`rows.rt`).

use crate::key_faults::{LAUNCHES, REFUSALS};
use crate::key_questions::{DESCRIPTIONS, INQUIRIES};
use crate::key_sessions::{CHANGES, EXPORTS, IMPORTS, LISTS, OTHERS};
use crate::rows::first_wrong;
use std::test::Fail;

#[test]
fn keys_are_looked_at_and_listed(rt: HostRuntime) -> Result<(), Fail> {
    assert_eq!(rt; first_wrong(&rt, rt.alloc(), LISTS)?, None);
    Ok(())
}

#[test]
fn keys_are_exported(rt: HostRuntime) -> Result<(), Fail> {
    assert_eq!(rt; first_wrong(&rt, rt.alloc(), EXPORTS)?, None);
    Ok(())
}

#[test]
fn keys_come_in(rt: HostRuntime) -> Result<(), Fail> {
    assert_eq!(rt; first_wrong(&rt, rt.alloc(), IMPORTS)?, None);
    Ok(())
}

#[test]
fn passphrases_are_changed(rt: HostRuntime) -> Result<(), Fail> {
    assert_eq!(rt; first_wrong(&rt, rt.alloc(), CHANGES)?, None);
    Ok(())
}

#[test]
fn other_sessions_on_keys_go_as_their_rows_say(rt: HostRuntime) -> Result<(), Fail> {
    assert_eq!(rt; first_wrong(&rt, rt.alloc(), OTHERS)?, None);
    Ok(())
}

#[test]
fn a_request_fails_alone_where_keys_or_dice_fail(rt: HostRuntime) -> Result<(), Fail> {
    assert_eq!(rt; first_wrong(&rt, rt.alloc(), REFUSALS)?, None);
    Ok(())
}

#[test]
fn a_request_fails_alone_where_no_pinentry_can_be_launched(rt: HostRuntime) -> Result<(), Fail> {
    assert_eq!(rt; first_wrong(&rt, rt.alloc(), LAUNCHES)?, None);
    Ok(())
}

#[test]
fn inquiries_on_keys_decide_their_requests(rt: HostRuntime) -> Result<(), Fail> {
    assert_eq!(rt; first_wrong(&rt, rt.alloc(), INQUIRIES)?, None);
    Ok(())
}

#[test]
fn prompts_say_what_the_client_described(rt: HostRuntime) -> Result<(), Fail> {
    assert_eq!(rt; first_wrong(&rt, rt.alloc(), DESCRIPTIONS)?, None);
    Ok(())
}
