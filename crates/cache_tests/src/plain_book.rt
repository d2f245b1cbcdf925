//! Tests of the list of entries by which the policy is defined (`ListBook`): what it finds at which
//! second, and the sizes of ids and passphrases. Begin with `found_until_the_last_second`.

use cache_policy::{CacheId, Life, Limits, ListBook, Mode, Secret};
use std::test::Fail;

/// The manual's lifetimes.
const LIMITS: Limits = Limits {
    ttl: 600,
    max: 7200,
    ttl_ssh: 1800,
    max_ssh: 7200,
};

fn id(name: &[u8]) -> Result<CacheId, Fail> {
    Ok(CacheId::of(name).ok_or("an id")?)
}

fn secret(bytes: &[u8]) -> Result<Secret, Fail> {
    Ok(Secret::of(bytes).ok_or("a secret")?)
}

#[test]
fn found_until_the_last_second(rt: HostRuntime) -> Result<(), Fail> {
    let cases = [
        (Mode::User, Life::Seconds(10), 15, true),
        (Mode::User, Life::Seconds(10), 16, false),
        (Mode::User, Life::Default, 605, true),
        (Mode::User, Life::Default, 606, false),
        (Mode::Ssh, Life::Default, 1805, true),
        (Mode::Ssh, Life::Default, 1806, false),
        (Mode::User, Life::Endless, 7205, true),
        (Mode::User, Life::Endless, 7206, false),
        (Mode::User, Life::Seconds(0), 5, false),
    ];
    for (mode, life, moment, there) in cases {
        let mut book = ListBook::new(rt.alloc());
        book.put(5, id(b"id1")?, mode, life, secret(b"pw")?, &LIMITS)?;
        let found = book.find(moment, &id(b"id1")?, mode);
        assert_eq!(rt; found.is_some(), there, "{mode:?} {life:?} at {moment}");
    }
    Ok(())
}

#[test]
fn a_shorter_life_hides_a_longer_one(rt: HostRuntime) -> Result<(), Fail> {
    let limits = LIMITS;
    let mut book = ListBook::new(rt.alloc());
    book.put(
        0,
        id(b"id1")?,
        Mode::Any,
        Life::Endless,
        secret(b"old")?,
        &limits,
    )?;
    book.put(
        5,
        id(b"id1")?,
        Mode::User,
        Life::Seconds(10),
        secret(b"new")?,
        &limits,
    )?;

    let grant = book.find(15, &id(b"id1")?, Mode::User).ok_or("live")?;
    assert_eq!(rt; grant.secret().bytes(), b"new".as_slice());
    assert_eq!(rt; grant.number(), 1);
    assert!(rt; book.find(16, &id(b"id1")?, Mode::User).is_none());

    let grant = book.find(20, &id(b"id1")?, Mode::Normal).ok_or("live")?;
    assert_eq!(rt; grant.secret().bytes(), b"old".as_slice());
    assert_eq!(rt; grant.number(), 0);
    assert!(rt; book.find(20, &id(b"id2")?, Mode::Normal).is_none());
    Ok(())
}

#[test]
fn ids_and_secrets_have_their_sizes(rt: HostRuntime) -> Result<(), Fail> {
    let bytes = [b'a'; 256];
    for (len, is_id, is_secret) in [
        (0, false, true),
        (1, true, true),
        (50, true, true),
        (51, false, true),
        (255, false, true),
        (256, false, false),
    ] {
        assert!(rt; len <= bytes.len());
        assert_eq!(rt; CacheId::of(&bytes[..len]).is_some(), is_id, "{len}");
        assert_eq!(rt; Secret::of(&bytes[..len]).is_some(), is_secret, "{len}");
    }
    assert!(rt; id(b"id1")? == id(b"id1")?.copy());
    assert!(rt; id(b"id1")? != id(b"id2")?);
    assert_eq!(rt; secret(b"pw")?.copy().bytes(), b"pw".as_slice());
    Ok(())
}
