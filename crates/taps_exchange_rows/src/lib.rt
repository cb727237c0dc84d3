//! Tests of the exchange of messages over scripted sockets: a table with each of its outcomes.
#![tactic(auto)]

#[cfg(test)]
mod exchange_rows;
