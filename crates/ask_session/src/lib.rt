//! A session: requests read from a source, with what was read ahead; each served by a store, with its reply put
//! to a sink.
#![tactic(auto)]

mod body;
mod changes;
mod heads;
mod line;
mod reads;
mod request;
mod run;
mod serving;
mod session;

pub use ask_text::{End, Turn};
pub use changes::{answer_change, serve_back, serve_keep, serve_stat};
pub use heads::answer_of;
pub use line::read_first;
pub use reads::{serve_get, serve_list, serve_old};
pub use request::{object_size, read_request};
pub use serving::{can_serve, serve};
pub use session::Session;
