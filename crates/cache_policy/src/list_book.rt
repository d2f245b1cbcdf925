//! The plain cache: a list of what was put, the newest found first, which meets the definitions for
//! puts alone and for endless ones with asks. It works on its list's memory; the agent doesn't use
//! it, and a test of the load puts it beside the agent's own. Begin with `ListBook::find`;
//! definitions begin in `specs/Book`.

ghost use Rattle.std.specs.Prelude.{◌≡◌, ◌≤◌, [], ◌++◌, OnOk, OnErr, IfSome, Option, ℕ};
ghost use Rattle.std.specs.Option.{option_map, option_copied, option_to_list};
ghost use Rattle.agent_ports.specs.declared.session.SessionId.{SessionId};
ghost use Rattle.cache_policy.specs.declared.{life.Limits.Limits as Lifetimes, mark.Way.Way};
ghost use Rattle.cache_policy.specs.declared.mark.MarkReply.{MarkReply};
ghost use Rattle.cache_policy.specs.declared.bounds.TheConstants.{MAX_MOMENT};
ghost use Rattle.cache_policy.specs.{Histories.{History, with_mark}, Live.{newest_of, live}};
ghost use Rattle.cache_policy.specs.Book.{empty_book, after_put, found, put_mark, ask_mark};
ghost use Rattle.cache_policy.specs.Book.{IsBookOf, IsEndlessBookOf};

use crate::{CacheId, Entry, Grant, Life, Limits, Mode, Secret};
use std::alloc::{AllocError, Global};
use std::marker::Model;

/// There was no memory for what was to be stored.
pub type NoMemory = AllocError;

/// The cache as a plain list of what was put into it. It counts no uses, and forgets nothing.
#[derive(Drop)]
pub struct ListBook {
    stored: Vec<Entry>,
    // The number of the next put.
    puts: u64,
    // The moment of the last put, below which the caller's moments may not fall.
    latest: u64,
}

impl Model for ListBook {
    ghost use Rattle.cache_policy.specs.Book.{Book};

    ghost Value = { Book };

    ghost view = { λ book.
        record { entries = book.stored.items; puts = book.puts; latest = book.latest } };
}

impl ListBook {
    /// An empty book, which takes no memory yet.
    pub fn new(alloc: Global) -> ListBook
        ensures empty { result ≡ empty_book }

        // It is the book of a history without marks.
        ensures puts_alone { (limits : Lifetimes) (history : History) → history.base ≡ 0
            → history.marks ≡ [] → IsBookOf limits history result }
        ensures endless { (limits : Lifetimes) (history : History) → history.marks ≡ []
            → IsEndlessBookOf limits history result }
    {
        ListBook {
            stored: Vec::new(alloc),
            puts: 0,
            latest: 0,
        }
    }

    /// Stores a passphrase at a moment in seconds, unless its effective ttl is 0.
    ///
    /// It fails where there is no memory for it, and after 2^64 - 1 puts, since there is no number
    /// for the next one.
    pub fn put(
        &mut self,
        moment: u64,
        id: CacheId,
        mode: Mode,
        life: Life,
        secret: Secret,
        limits: &Limits,
    ) -> Result<(), NoMemory>
        requires in_order { self.old.latest ≤ moment }
        requires in_range { moment ≤ MAX_MOMENT }

        ensures ok { OnOk result
            (self.new ≡ after_put limits.now self.old moment id mode life secret) }
        ensures err { OnErr result (self.new ≡ self.old) }

        // A history that the book was of goes on by the mark of this put.
        ensures puts_alone { OnOk result ((history : History) (session : SessionId)
            → IsBookOf limits.now history self.old → IsBookOf limits.now
            (with_mark history (put_mark session moment id mode life secret)) self.new) }
        ensures endless { OnOk result
            ((history : History) (session : SessionId) → life ≡ Life.Endless
            → IsEndlessBookOf limits.now history self.old → IsEndlessBookOf limits.now
            (with_mark history (put_mark session moment id mode life secret)) self.new) }
    {
        let puts = self.puts.checked_add(1).ok_or(AllocError)?;
        let entry = Entry::of(limits, self.puts, moment, id, mode, life, secret);
        store(&mut self.stored, entry)?;
        self.puts = puts;
        self.latest = moment;
        Ok(())
    }

    /// The newest passphrase for the id and mode, if it is within both lifetimes at the moment, in
    /// seconds.
    pub fn find(&self, moment: u64, id: &CacheId, mode: Mode) -> Option<Grant>
        requires in_order { self.now.latest ≤ moment }
        requires in_range { moment ≤ MAX_MOMENT }

        ensures found { option_map (λ grant. grant.entry) result
            ≡ found self.now.entries id.now mode moment }
        ensures id { IfSome result (λ grant. grant.id ≡ id.now) }
        ensures mode { IfSome result (λ grant. grant.mode ≡ mode) }
        ensures last { IfSome result (λ grant. grant.last ≡ grant.entry.entered) }
        ensures moment { IfSome result (λ grant. grant.moment ≡ moment) }

        // Over a history of puts alone, it is the live entry.
        ensures puts_alone { (limits : Lifetimes) (history : History)
            → IsBookOf limits history self.now
            → option_map (λ grant. grant.entry) result ≡ live limits history id.now mode moment }

        // Over endless puts and asks it is the live secret, and an ask of it leaves that so.
        ensures endless { (limits : Lifetimes) (history : History)
            → IsEndlessBookOf limits history self.now
            → option_map (λ grant. grant.entry.secret) result
            ≡ option_map (λ entry. entry.secret) (live limits history id.now mode moment) }
        ensures asked { (limits : Lifetimes) (history : History)
            (session : SessionId) (way : Way) (since : Option ℕ) (reply : MarkReply)
            → IsEndlessBookOf limits history self.now → IsEndlessBookOf limits
            (with_mark history (ask_mark session moment id.now mode way since reply)) self.now }
    {
        grant_of(&self.stored, moment, id, mode)
    }
}

fn store(stored: &mut Vec<Entry>, entry: Option<Entry>) -> Result<(), NoMemory>
    ensures ok { OnOk result (stored.new.items ≡ stored.old.items ++ option_to_list entry) }
    ensures err { OnErr result (stored.new.items ≡ stored.old.items) }
{
    if let Some(entry) = entry {
        stored.push(entry)?;
    }
    Ok(())
}

/// What is stored last hides what was stored before, also where it is past a lifetime.
fn newest<'a>(stored: &'a [Entry], id: &CacheId, mode: Mode) -> Option<&'a Entry>
    ensures { option_copied result ≡ newest_of id.now mode stored.now }
{
    stored.iter().rev().find(|entry| entry.serves(id, mode))
}

fn grant_of(stored: &[Entry], moment: u64, id: &CacheId, mode: Mode) -> Option<Grant>
    ensures found { option_map (λ grant. grant.entry) result ≡ found stored.now id.now mode moment }
    ensures id { IfSome result (λ grant. grant.id ≡ id.now) }
    ensures mode { IfSome result (λ grant. grant.mode ≡ mode) }
    ensures last { IfSome result (λ grant. grant.last ≡ grant.entry.entered) }
    ensures moment { IfSome result (λ grant. grant.moment ≡ moment) }
{
    let entry = newest(stored, id, mode)?;
    Grant::of(id.copy(), mode, entry.copy(), entry.entered, moment)
}
