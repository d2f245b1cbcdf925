//! The commands on the agent's trust list: a line of the client read as a request, or refused by a
//! code, and carried out and answered over any link, any desk (cache handle), any prompter and any
//! trust file. Begin with `run_trust`; what it does is `TrustExchange` (`specs/TrustExchanges`).

mod calls;
mod marking;
mod questions;
mod read;
mod reply;
mod request;
mod run;

pub use read::read_trust;
pub(crate) use read::read_trust_cut;
pub use request::{MAX_NAME_LEN, OwnerName, TrustPurpose, TrustRequest};
pub use run::run_trust;
