//! Tests in which each call of the outside fails in turn: calls of scripted sockets and of sockets in memory, reads of
//! files, and the write of a text.
#![tactic(auto)]

#[cfg(test)]
mod file_rows;
#[cfg(test)]
mod loop_rows;
#[cfg(test)]
mod narrow_rows;
#[cfg(test)]
mod race_rows;
#[cfg(test)]
mod row;
#[cfg(test)]
mod session_rows;
#[cfg(test)]
mod sink_rows;
