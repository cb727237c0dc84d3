//! Connections and listeners over any sockets: whole messages go out and come in through a chain of
//! framers, and each socket is closed once.
#![tactic(auto)]

mod backlog;
mod connection;
mod datagrams;
mod encoding;
mod framed;
mod joined;
mod listener;
mod plain;
mod pulled;
mod receiver;
mod receiving;
mod room;
mod sender;
mod sending;
mod state;
mod worked;

pub use connection::Connection;
pub use joined::heard_as_sent;
pub use listener::{Listener, ListenerAnswer};
pub use pulled::Pulled;
pub use sender::Pushed;
pub use state::{Closed, Closing, Established, Open, State};
