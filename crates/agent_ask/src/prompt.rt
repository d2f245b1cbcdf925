//! One prompt, for a passphrase or for consent: what it shows, whom it calls, and what it comes to.
//! It calls the prompter, the client and the test of a passphrase, under a ticket that it borrows.
//! Begin with `ask` and `consent`; `prompter` is the port to what asks the user.

pub(crate) mod agreeing;
pub(crate) mod ask;
pub(crate) mod consent;
pub(crate) mod given;
pub(crate) mod opening;
pub(crate) mod plan;
pub(crate) mod prompter;
pub(crate) mod spec;
pub(crate) mod test;
pub(crate) mod tries;
