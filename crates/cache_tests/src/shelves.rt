//! Tests of both shelves for entries, that of slots beside that of a list: thousands of generated
//! calls, and both have to find the same. Begin with `Both`, and with `NAMES` for the ids that are
//! hard.

ghost use Rattle.std.specs.Prelude.{ℕ, ◌+◌};
ghost use Rattle.cache_book.specs.Shelves.{AreBelow};

use cache_book::{ListShelf, Shelf, SlotShelf};
use cache_policy::{CacheId, Entry, MAX_MARKS, MAX_SECRET_LEN, Mode, Secret};
use rand_core::SeedableRng;
use rand_core::utils::NextWord;
use rand_pcg::Pcg32;
use std::alloc::Global;
use std::marker::Model;
use std::test::Fail;

const MODES: [Mode; 5] = [Mode::Normal, Mode::User, Mode::Ssh, Mode::Nonce, Mode::Any];

const K1: u32 = 1;

/// The ids that the generated calls name. Some begin alike for more than 8 bytes, and one is the
/// beginning of others.
const NAMES: [u32; 7] = [K1, 10, 2, 1000, 1001, 1002, 1003];

/// What is never to happen.
#[derive(Clone, Copy, Debug, Drop)]
enum Wrong {
    NoNumber,
    NoMemory,
    NoRoom,
    OtherPassphrase,
    ShelvesDiffer,
}

/// The id with this number. Those below 1,000 are k0 to k999, whose order is not that of their
/// numbers.
fn id(k: u32) -> CacheId {
    let hundreds = b'0' + (k / 100 % 10) as u8;
    let tens = b'0' + (k / 10 % 10) as u8;
    let ones = b'0' + (k % 10) as u8;
    match k {
        0..=9 => CacheId::of(&[b'k', ones]).unwrap(),
        10..=99 => CacheId::of(&[b'k', tens, ones]).unwrap(),
        100..=999 => CacheId::of(&[b'k', hundreds, tens, ones]).unwrap(),
        1000 => CacheId::of(b"passphrase-of-").unwrap(),
        1001 => CacheId::of(b"passphrase-of-1").unwrap(),
        1002 => CacheId::of(b"passphrase-of-10").unwrap(),
        _ => CacheId::of(b"passphrase-of-2").unwrap(),
    }
}

/// The passphrase of the entry with this number. Its length is 0, 22, 23 or 255 bytes in turn: the
/// bounds of those that stand in a slot, and of those in memory of their own.
fn passphrase(number: u64) -> Option<Secret> {
    let len = match number % 4 {
        0 => 0,
        1 => 22,
        2 => 23,
        _ => MAX_SECRET_LEN,
    };
    let mut bytes = [(number % 251) as u8; MAX_SECRET_LEN];
    bytes[..8].copy_from_slice(&number.to_be_bytes());
    Secret::of(bytes.get(..len)?)
}

/// A life: the ttl and the maximum age.
#[derive(Clone, Copy)]
struct Lives {
    ttl: Option<u32>,
    max: u32,
}

/// The manual's lifetimes.
const USUAL: Lives = Lives {
    ttl: Some(600),
    max: 7200,
};

const ENDLESS: Lives = Lives {
    ttl: None,
    max: 7200,
};

const TEN_SECONDS: Lives = Lives {
    ttl: Some(10),
    max: 7200,
};

/// What is asked of both shelves.
#[derive(Clone, Copy)]
enum Call {
    Put(u32, Mode, Lives),
    Reserve(usize),
    /// Stores an entry in room that was made before.
    Keep(u32, Mode, Lives),
    Ask(u32, Mode),
    Peek(u32, Mode),
    Clear(u32, Mode),
    Flush,
    Sweep,
}

/// Drops what is past a lifetime, where that is wanted.
fn sweep_if<S: Shelf>(shelf: &mut S, sweeps: bool, now: u64)
    ensures { (number : ℕ) → AreBelow number (S.at shelf.old).slots
        → AreBelow number (S.at shelf.new).slots }
{
    if sweeps {
        shelf.sweep(now);
    }
}

/// The number of an entry, and its last use.
type Found = Option<(u64, u64)>;

/// What is found, whose passphrase is that of the number.
fn found<S: Shelf>(shelf: &S, k: u32, mode: Mode, now: u64) -> Result<Found, Wrong> {
    let Some(grant) = shelf.find(&id(k), mode, now) else {
        return Ok(None);
    };
    let Some(secret) = passphrase(grant.number()) else {
        return Err(Wrong::OtherPassphrase);
    };
    if grant.secret().bytes() != secret.bytes() {
        return Err(Wrong::OtherPassphrase);
    }
    Ok(Some((grant.number(), grant.last)))
}

/// What is found, whose ttl begins anew.
fn asked<S: Shelf>(
    shelf: &mut S,
    sweeps: bool,
    now: u64,
    k: u32,
    mode: Mode,
) -> Result<Found, Wrong>
    ensures { (number : ℕ) → AreBelow number (S.at shelf.old).slots
        → AreBelow number (S.at shelf.new).slots }
{
    let there = found(shelf, k, mode, now);
    sweep_if(shelf, sweeps, now);
    if let Ok(Some((number, _))) = there {
        shelf.touch(number, now);
    }
    there
}

/// Stores an entry with this number, which is above all others.
fn stored<S: Shelf>(
    shelf: &mut S,
    number: u64,
    now: u64,
    k: u32,
    mode: Mode,
    lives: Lives,
) -> Result<Found, Wrong>
    requires { AreBelow number (S.at shelf.old).slots }
    ensures { AreBelow (number + 1) (S.at shelf.new).slots }
{
    let Some(secret) = passphrase(number) else {
        return Err(Wrong::OtherPassphrase);
    };
    if shelf.spare() == 0 {
        return Err(Wrong::NoRoom);
    }
    shelf.store(Entry {
        number,
        id: id(k),
        mode,
        secret,
        entered: now,
        ttl: lives.ttl,
        max: lives.max,
    });
    Ok(None)
}

/// Makes a call that stores nothing, and says what it finds.
fn changed<S: Shelf>(shelf: &mut S, sweeps: bool, now: u64, call: Call) -> Result<Found, Wrong>
    ensures { (number : ℕ) → AreBelow number (S.at shelf.old).slots
        → AreBelow number (S.at shelf.new).slots }
{
    match call {
        Call::Ask(k, mode) => return asked(shelf, sweeps, now, k, mode),
        Call::Peek(k, mode) => {
            let there = found(shelf, k, mode, now);
            sweep_if(shelf, sweeps, now);
            return there;
        }
        Call::Clear(k, mode) => {
            sweep_if(shelf, sweeps, now);
            shelf.clear(&id(k), mode);
        }
        Call::Flush => shelf.flush(),
        Call::Sweep | Call::Put(_, _, _) => sweep_if(
            shelf,
            sweeps || matches!(call, Call::Sweep),
            now,
        ),
        Call::Reserve(_) | Call::Keep(_, _, _) => {}
    }
    Ok(None)
}

/// Makes a call at a shelf, and says what it finds.
fn made<S: Shelf>(
    shelf: &mut S,
    sweeps: bool,
    number: u64,
    now: u64,
    call: Call,
) -> Result<Found, Wrong>
    requires { AreBelow number (S.at shelf.old).slots }
    ensures { AreBelow (number + 1) (S.at shelf.new).slots }
{
    let there = changed(shelf, sweeps, now, call);
    let room = match call {
        Call::Put(_, _, _) => 1,
        Call::Reserve(n) => n,
        _ => 0,
    };
    if shelf.reserve(room).is_err() {
        return Err(Wrong::NoMemory);
    }
    match call {
        Call::Put(k, mode, lives) | Call::Keep(k, mode, lives) => stored(
            shelf, number, now, k, mode, lives,
        ),
        _ => there,
    }
}

/// Both shelves, at which the same calls are made. An entry gets the number of the call that stores
/// it.
#[derive(Drop)]
struct Both {
    list: ListShelf,
    slots: SlotShelf,
    /// Whether it sweeps as the cache core does: before it stores or clears, and behind what is
    /// found.
    sweeps: bool,
    number: u64,
}

impl Model for Both {
    ghost use Rattle.std.specs.Prelude.{ℕ};
    ghost use Rattle.cache_book.specs.Shelves.{AreBelow};

    ghost Value = { ℕ };

    ghost view = { λ both. both.number };

    ghost invariant = { λ both. AreBelow both.number both.list.slots
        × AreBelow both.number both.slots.slots };
}

impl Both {
    fn new(alloc: Global, sweeps: bool) -> Both {
        Both {
            list: ListShelf::new(alloc),
            slots: SlotShelf::new(alloc),
            sweeps,
            number: 0,
        }
    }

    /// Makes a call, and says the number of the entry that it finds: the same on both shelves.
    fn call(&mut self, now: u64, call: Call) -> Result<Option<u64>, Wrong> {
        let number = self.number;
        let Some(next) = number.checked_add(1) else {
            return Err(Wrong::NoNumber);
        };
        let list = made(&mut self.list, self.sweeps, number, now, call);
        let slots = made(&mut self.slots, self.sweeps, number, now, call);
        self.number = next;
        same(list?, slots?)
    }

    /// The number of what both shelves find.
    fn found(&self, k: u32, mode: Mode, now: u64) -> Result<Option<u64>, Wrong> {
        same(
            found(&self.list, k, mode, now)?,
            found(&self.slots, k, mode, now)?,
        )
    }

    /// Looks for an id in each mode.
    fn agree(&self, k: u32, now: u64) -> Result<(), Wrong> {
        for mode in MODES {
            self.found(k, mode, now)?;
        }
        Ok(())
    }
}

/// The number of what both shelves find, which were last used at the same moment.
fn same(list: Found, slots: Found) -> Result<Option<u64>, Wrong> {
    if list != slots {
        return Err(Wrong::ShelvesDiffer);
    }
    Ok(list.map(|(number, _)| number))
}

/// A call that is made of a random word.
fn call_of(word: u32, k: u32) -> Call {
    let mode = MODES[(word >> 4) as usize % 5];
    let ttl = match word >> 8 & 3 {
        0 => None,
        some => Some(some * 4),
    };
    let max = word >> 16 & 15;
    if word >> 12 & 1 == 0 {
        return Call::Put(k, mode, Lives { ttl, max });
    }
    // A flush is rare.
    match word >> 13 & 511 {
        1 => Call::Flush,
        other => match other % 9 {
            0 | 1 => Call::Clear(k, mode),
            2 | 3 => Call::Sweep,
            _ => Call::Ask(k, mode),
        },
    }
}

#[test]
fn both_shelves_find_the_same_after_each_call(rt: HostRuntime) -> Result<(), Fail> {
    let mut both = Both::new(rt.alloc(), false);
    let mut random = Pcg32::new(42, 54);
    for number in 0..3000_u64 {
        let word = random.next_word();
        let now = number / 3;
        both.call(now, call_of(word, NAMES[word as usize % 7]))?;
        for k in NAMES {
            both.agree(k, now)?;
        }
    }
    Ok(())
}

#[test]
fn both_shelves_find_the_same_among_hundreds(rt: HostRuntime) -> Result<(), Fail> {
    let mut both = Both::new(rt.alloc(), false);
    let mut random = Pcg32::new(42, 54);
    for number in 0..3000_u64 {
        let word = random.next_word();
        let k = word % 500;
        // No life is longer than 15 seconds: so all end together.
        let now = number / 600 * 20;
        both.call(now, call_of(word, k))?;
        both.agree(k, now)?;
        if number % 300 == 299 {
            for k in 0..500 {
                both.agree(k, now)?;
            }
        }
    }
    Ok(())
}

/// Puts an entry with this number of seconds to live.
fn put_for(k: u32, ttl: u32) -> Call {
    let lives = Lives {
        ttl: Some(ttl),
        max: 7200,
    };
    Call::Put(k, Mode::User, lives)
}

#[test]
fn a_thousand_lives_end_in_turn(rt: HostRuntime) -> Result<(), Fail> {
    let mut both = Both::new(rt.alloc(), false);
    for k in 0..1000 {
        both.call(0, put_for(k, k + 1))?;
    }
    for _ in [false, true] {
        for k in 0..1000 {
            let there = both.found(k, Mode::User, 500)?.is_some();
            assert_eq!(rt; (k, there), (k, k >= 499));
        }
        both.call(500, Call::Sweep)?;
    }
    Ok(())
}

/// A step of a load, which is made of a random word; one word in eight is none.
fn step_of_a_load(word: u32) -> Option<Call> {
    let k = word >> 3 & 31;
    match word & 7 {
        0..=3 => Some(Call::Ask(k, Mode::User)),
        4 | 5 => {
            let lives = Lives {
                ttl: Some((word >> 8) % 1000 + 1),
                max: 7200,
            };
            Some(Call::Put(k, Mode::Any, lives))
        }
        6 => Some(Call::Clear(k, Mode::User)),
        _ => None,
    }
}

/// How many of a load's requests are given a passphrase. Its steps come seven seconds apart.
fn given_of_a_load(alloc: Global, seed: u64) -> Result<u32, Wrong> {
    let mut both = Both::new(alloc, false);
    let mut random = Pcg32::seed_from_u64(seed);
    let mut now: u64 = 0;
    let mut given: u32 = 0;
    for _ in 0..12_800 {
        if let Some(call) = step_of_a_load(random.next_word()) {
            both.call(now, Call::Sweep)?;
            given = given.saturating_add(u32::from(both.call(now, call)?.is_some()));
            now = now.saturating_add(7);
        }
    }
    Ok(given)
}

#[test]
fn a_load_is_answered_alike(rt: HostRuntime) -> Result<(), Fail> {
    // The numbers are those of a program in another language, over a table of ids.
    for (seed, given) in [(0, 2986), (1, 2753), (2, 2881)] {
        assert_eq!(rt; given_of_a_load(rt.alloc(), seed)?, given);
    }
    Ok(())
}

/// Of a thousand slots 8 to 16 are in a range on average.
const MAX_RANGE_LEN: usize = 40;

/// Puts entries under k0 to k999 with lives of 1 to 1,000 seconds, and says the first behind which
/// the guide doesn't lead to each slot.
fn put_a_thousand(both: &mut Both) -> Result<Option<u32>, Wrong> {
    for k in 0..1000 {
        both.call(0, put_for(k, k + 1))?;
        if !both.slots.is_guided(MAX_RANGE_LEN) {
            return Ok(Some(k));
        }
    }
    Ok(None)
}

#[test]
fn the_guide_leads_to_each_slot(rt: HostRuntime) -> Result<(), Fail> {
    let mut both = Both::new(rt.alloc(), false);
    for _ in 0..2 {
        assert_eq!(rt; put_a_thousand(&mut both)?, None);
    }
    // A sweep takes few slots one by one, and many in a walk.
    for now in [10, 500] {
        both.call(now, Call::Sweep)?;
        assert!(rt; both.slots.is_guided(MAX_RANGE_LEN));
    }
    for k in 600..700 {
        both.call(500, Call::Clear(k, Mode::User))?;
        assert!(rt; both.slots.is_guided(MAX_RANGE_LEN));
    }
    both.call(500, Call::Flush)?;
    assert_eq!(rt; put_a_thousand(&mut both)?, None);
    Ok(())
}

#[test]
fn an_entry_takes_the_room_of_one(rt: HostRuntime) -> Result<(), Fail> {
    let mut both = Both::new(rt.alloc(), false);
    both.call(0, Call::Reserve(3))?;
    let room = both.slots.spare();
    both.call(0, Call::Put(K1, Mode::User, ENDLESS))?;
    assert!(rt; 3 <= room && room - 1 <= both.slots.spare());
    Ok(())
}

/// A call, its moment, and the number of the entry that it is to find.
type Row = (u64, Call, Option<u64>);

/// The place of the first of these calls that finds something else, on shelves without entries.
fn first_wrong(alloc: Global, rows: &[Row]) -> Result<Option<usize>, Wrong> {
    let mut both = Both::new(alloc, true);
    for place in 0..rows.len() {
        let (now, call, then) = rows[place];
        if both.call(now, call)? != then {
            return Ok(Some(place));
        }
    }
    Ok(None)
}

/// An entry that is used often enough ends with its maximum age.
const OFTEN: [Row; 17] = [
    (0, Call::Put(K1, Mode::Any, USUAL), None),
    (500, Call::Ask(K1, Mode::User), Some(0)),
    (1000, Call::Ask(K1, Mode::User), Some(0)),
    (1500, Call::Ask(K1, Mode::User), Some(0)),
    (2000, Call::Ask(K1, Mode::User), Some(0)),
    (2500, Call::Ask(K1, Mode::User), Some(0)),
    (3000, Call::Ask(K1, Mode::User), Some(0)),
    (3500, Call::Ask(K1, Mode::User), Some(0)),
    (4000, Call::Ask(K1, Mode::User), Some(0)),
    (4500, Call::Ask(K1, Mode::User), Some(0)),
    (5000, Call::Ask(K1, Mode::User), Some(0)),
    (5500, Call::Ask(K1, Mode::User), Some(0)),
    (6000, Call::Ask(K1, Mode::User), Some(0)),
    (6500, Call::Ask(K1, Mode::User), Some(0)),
    (7000, Call::Ask(K1, Mode::User), Some(0)),
    (7200, Call::Ask(K1, Mode::User), Some(0)),
    (7201, Call::Ask(K1, Mode::User), None),
];

#[test]
fn a_use_restarts_the_ttl_and_not_the_greatest_age(rt: HostRuntime) -> Result<(), Fail> {
    let in_time = [
        (0, Call::Put(K1, Mode::Any, USUAL), None),
        (600, Call::Ask(K1, Mode::User), Some(0)),
        (1200, Call::Ask(K1, Mode::User), Some(0)),
        (1801, Call::Ask(K1, Mode::User), None),
    ];
    assert_eq!(rt; first_wrong(rt.alloc(), &in_time)?, None);
    assert_eq!(rt; first_wrong(rt.alloc(), &OFTEN)?, None);
    Ok(())
}

#[test]
fn the_newest_hides_the_older(rt: HostRuntime) -> Result<(), Fail> {
    let ended = [
        (0, Call::Put(K1, Mode::Any, ENDLESS), None),
        (5, Call::Put(K1, Mode::User, TEN_SECONDS), None),
        (20, Call::Ask(K1, Mode::User), None),
        (21, Call::Peek(K1, Mode::Normal), Some(0)),
    ];
    assert_eq!(rt; first_wrong(rt.alloc(), &ended)?, None);

    let cleared = [
        (0, Call::Put(K1, Mode::Any, ENDLESS), None),
        (5, Call::Put(K1, Mode::User, TEN_SECONDS), None),
        (6, Call::Clear(K1, Mode::User), None),
        (7, Call::Ask(K1, Mode::User), None),
        (8, Call::Peek(K1, Mode::Normal), None),
    ];
    assert_eq!(rt; first_wrong(rt.alloc(), &cleared)?, None);
    Ok(())
}

/// Passphrases of all lengths one behind another. Each call's number is its place here, and the
/// passphrase's length goes by it.
const LENGTHS_IN_TURN: [Row; 17] = [
    (0, Call::Put(K1, Mode::User, ENDLESS), None),
    (1, Call::Ask(K1, Mode::User), Some(0)),
    (2, Call::Ask(K1, Mode::User), Some(0)),
    (3, Call::Put(K1, Mode::User, ENDLESS), None),
    (4, Call::Ask(K1, Mode::User), Some(3)),
    (5, Call::Put(K1, Mode::User, ENDLESS), None),
    (6, Call::Ask(K1, Mode::User), Some(5)),
    (7, Call::Ask(K1, Mode::User), Some(5)),
    (8, Call::Put(K1, Mode::User, ENDLESS), None),
    (9, Call::Put(K1, Mode::User, ENDLESS), None),
    (10, Call::Put(K1, Mode::User, ENDLESS), None),
    (11, Call::Ask(K1, Mode::User), Some(10)),
    (12, Call::Ask(K1, Mode::User), Some(10)),
    (13, Call::Put(K1, Mode::User, ENDLESS), None),
    (14, Call::Ask(K1, Mode::User), Some(13)),
    (15, Call::Clear(K1, Mode::User), None),
    (16, Call::Ask(K1, Mode::User), None),
];

#[test]
fn a_passphrase_of_each_length_is_found_again(rt: HostRuntime) -> Result<(), Fail> {
    assert_eq!(rt; first_wrong(rt.alloc(), &LENGTHS_IN_TURN)?, None);
    Ok(())
}

/// Takes this many peeks at moment 0, and says whether each finds the entry with this number.
fn peeks_find(both: &mut Both, times: u64, then: Option<u64>) -> Result<bool, Wrong> {
    for _ in 0..times {
        if both.call(0, Call::Peek(K1, Mode::User))? != then {
            return Ok(false);
        }
    }
    Ok(true)
}

/// Whether each peek finds what was put before this many of them, and what is found at the end of
/// their history.
fn found_behind_peeks(alloc: Global, peeks: u64) -> Result<(bool, Option<u64>), Wrong> {
    let mut both = Both::new(alloc, true);
    both.call(0, Call::Put(K1, Mode::Any, ENDLESS))?;
    let all = peeks_find(&mut both, peeks, Some(0))?;
    if peeks == MAX_MARKS - 1 {
        both.call(0, Call::Flush)?;
    }
    Ok((all, both.found(K1, Mode::User, 0)?))
}

#[test]
fn nothing_is_found_behind_a_full_history(rt: HostRuntime) -> Result<(), Fail> {
    for (peeks, then) in [(131_070, Some(0)), (131_071, None)] {
        assert_eq!(rt; found_behind_peeks(rt.alloc(), peeks)?, (true, then));
    }
    Ok(())
}

/// Whether nothing is found under a prompt, by this many peeks and by a request that has to stand,
/// and whether the next request finds what is kept of it. Its room is made as it opens.
fn found_behind_a_prompt(alloc: Global, peeks: u64, keeps: bool) -> Result<(bool, bool), Wrong> {
    let mut both = Both::new(alloc, true);
    let asked = both.call(0, Call::Peek(K1, Mode::User))?;
    both.call(0, Call::Reserve(1))?;
    let stands = both.found(K1, Mode::User, 0)?;
    let none = asked.is_none() && stands.is_none() && peeks_find(&mut both, peeks, None)?;
    if peeks == MAX_MARKS - 1 {
        both.call(0, Call::Flush)?;
    }
    if keeps {
        both.call(0, Call::Keep(K1, Mode::User, USUAL))?;
    }
    Ok((none, both.found(K1, Mode::User, 0)?.is_some()))
}

#[test]
fn what_is_kept_of_a_prompt_is_found_by_the_next(rt: HostRuntime) -> Result<(), Fail> {
    // The last prompt stays open until its history is full.
    for (peeks, keeps) in [(0, true), (0, false), (131_071, true)] {
        assert_eq!(rt;
            found_behind_a_prompt(rt.alloc(), peeks, keeps)?,
            (true, keeps)
        );
    }
    Ok(())
}
