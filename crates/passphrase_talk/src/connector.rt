//! The port to the agents of a machine: which answer, a connection to one, and how long an answer
//! may take. A trait and what it speaks of; `SystemConnector` (`passphrase_host`) is the real one.
//! Begin with `Connector`; `specs/Contacts` says what its calls do to what contracts see.

ghost use Rattle.std.specs.Prelude.{◌≡◌, ◌≤◌, ◌+◌, ◌∷◌, [], IfOk, Err, MatchResult, List, ℕ};
ghost use Rattle.std.specs.{Prelude.Option, Option.option_map};
ghost use Rattle.agent_ports.specs.{Counts.{Rose, RoseBy}, Launches.{IsFresh, child_then}};
ghost use Rattle.session_options.specs.OptionValues.{EnvWords, words_of};
ghost use Rattle.passphrase_talk.specs.Contacts.{Contacts, HasLaunched, then_met, then_sought};
ghost use Rattle.passphrase_talk.specs.Contacts.{then_opened, with_launches};
ghost use Rattle.assuan_client.specs.declared.answer.State.TheVariants.{Asked};

use agent_ports::Link;
use assuan_client::Peer;
use session_options::Env;

/// Which agent is asked.
#[derive(Clone, Copy, Debug, PartialEq, Eq)]
pub enum Place {
    /// The one that answers for the folder that the user means.
    Home,
    /// The one of the folder of its own, where both run.
    Beside,
}

/// Which agents answer.
#[derive(Clone, Copy, Debug, PartialEq, Eq)]
pub enum Agents {
    /// One, at `Place::Home`.
    One,
    /// One at each place.
    Both,
}

/// What an answer may take.
#[derive(Clone, Copy, Debug, PartialEq, Eq)]
pub enum Waits {
    /// The agent answers by itself, within seconds.
    Answer,
    /// A user may have to type first, which takes minutes. The agent is told the terminal.
    Prompt,
}

/// Why there is no agent, or no connection to it.
#[derive(Clone, Copy, Debug, PartialEq, Eq)]
pub enum Unmet {
    /// This is counted by itself.
    NoMemory,
    /// [`Connector::reason`] says more.
    Fault,
}

/// Finds the agents, starts one where none answers, and connects to them.
pub trait Connector {
    /// The way to an agent.
    type Link: Link;

    /// The links to come, the agents that were found, the connections that were made, the contacts
    /// that were left, and what was handed on of each pinentry that was launched: in contacts that
    /// wait for a prompt, and in no other. And how many calls failed, and had no memory.
    ghost contacts: { Self → Contacts };

    /// The terminal and the locale of the user. No call changes them.
    ghost terminal: { Self → EnvWords };

    /// Why the last call failed, of those up to `keep_reason`.
    ghost reason: { Self → List ℕ };

    /// Finds the agents that are asked: for this folder, or the GnuPG home where none is named, and
    /// given this many seconds for an answer.
    fn find(&mut self, folder: Option<&str>, seconds: Option<u32>) -> Result<Agents, Unmet>
        ensures sought { MatchResult result (λ agents. (contacts self.new).sought
            ≡ then_sought (contacts self.old).sought (option_map (λ name. name.now) folder.entry)
            seconds agents) (λ _. (contacts self.new).sought ≡ (contacts self.old).sought) }
        ensures coming { (contacts self.new).coming ≡ (contacts self.old).coming }
        ensures opened { (contacts self.new).opened ≡ (contacts self.old).opened }
        ensures met { (contacts self.new).met ≡ (contacts self.old).met }
        ensures failed { result ≡ Err Unmet.Fault
            → Rose (contacts self.old).faults (contacts self.new).faults }
        ensures faults { (contacts self.old).faults ≤ (contacts self.new).faults }
        ensures no_memory { result ≡ Err Unmet.NoMemory
            → Rose (contacts self.old).shortages (contacts self.new).shortages }
        ensures shortages { (contacts self.old).shortages ≤ (contacts self.new).shortages }
        ensures launches { (contacts self.new).launches ≡ (contacts self.old).launches }
        ensures terminal { terminal self.new ≡ terminal self.old };

    /// Connects to the agent at this place. What the link then holds is all that the agent gives.
    fn connect(&mut self, place: Place, waits: Waits) -> Result<Self::Link, Unmet>
        ensures fresh { IfOk result
            (λ link. IsFresh (Self.Link.input link) (Self.Link.output link)) }
        ensures coming { MatchResult result (λ link. (contacts self.old).coming
            ≡ child_then (Self.Link.input link).bytes (contacts self.new).coming)
            (λ _. (contacts self.new).coming ≡ (contacts self.old).coming) }
        ensures opened { MatchResult result (λ _. (contacts self.new).opened
            ≡ then_opened (contacts self.old).opened place waits)
            (λ _. (contacts self.new).opened ≡ (contacts self.old).opened) }
        ensures sought { (contacts self.new).sought ≡ (contacts self.old).sought }
        ensures met { (contacts self.new).met ≡ (contacts self.old).met }
        ensures failed { result ≡ Err Unmet.Fault
            → Rose (contacts self.old).faults (contacts self.new).faults }
        ensures faults { (contacts self.old).faults ≤ (contacts self.new).faults }
        ensures no_memory { result ≡ Err Unmet.NoMemory
            → Rose (contacts self.old).shortages (contacts self.new).shortages }
        ensures shortages { (contacts self.old).shortages ≤ (contacts self.new).shortages }
        ensures launches { (contacts self.new).launches ≡ (contacts self.old).launches }
        ensures terminal { terminal self.new ≡ terminal self.old };

    /// Closes the connection. What failed there counts here too.
    fn leave(&mut self, place: Place, link: Self::Link)
        ensures met { (contacts self.new).met ≡ then_met (contacts self.old).met place
            (Self.Link.input link).bytes (Self.Link.output link).bytes }
        ensures coming { (contacts self.new).coming ≡ (contacts self.old).coming }
        ensures sought { (contacts self.new).sought ≡ (contacts self.old).sought }
        ensures opened { (contacts self.new).opened ≡ (contacts self.old).opened }
        ensures rose { RoseBy ((Self.Link.input link).faults + (Self.Link.output link).faults)
            (contacts self.old).faults (contacts self.new).faults }
        ensures faults { (contacts self.old).faults ≤ (contacts self.new).faults }
        ensures shortages { (contacts self.new).shortages ≡ (contacts self.old).shortages }
        ensures launches { (contacts self.new).launches ≡ (contacts self.old).launches }
        ensures terminal { terminal self.new ≡ terminal self.old };

    /// What the agent is told of the terminal.
    fn terminal(&self) -> &Env
        ensures { words_of result.now ≡ terminal self.now };

    /// Why the last call failed, in words for a user.
    fn reason(&self) -> &str
        ensures { result.now ≡ reason self.now };

    /// Has the reason stay as it is, whatever fails behind it: what failed is what the run ends by.
    fn keep_reason(&mut self)
        ensures reason { reason self.new ≡ reason self.old }
        ensures contacts { contacts self.new ≡ contacts self.old }
        ensures terminal { terminal self.new ≡ terminal self.old };

    /// A pinentry was launched where a user may have to type, of which the agent says this text. Its
    /// prompt is open: the inquiry that says so isn't answered yet.
    fn launched(&mut self, text: &[u8], peer: &Peer<Self::Link>)
        requires open { peer.now.state ≡ Asked }
        ensures launches { HasLaunched (contacts self.old).launches (text.now ∷ [])
            (contacts self.new).launches }
        ensures contacts { contacts self.new
            ≡ with_launches (contacts self.old) (contacts self.new).launches }
        ensures terminal { terminal self.new ≡ terminal self.old }
        ensures reason { reason self.new ≡ reason self.old };
}
