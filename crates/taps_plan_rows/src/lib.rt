//! Tests of the public calls from endpoints to plans and their lines: constant tables, each read
//! by one small interpreter.
#![tactic(auto)]

#[cfg(test)]
mod address_rows;
#[cfg(test)]
mod base_rows;
#[cfg(test)]
mod candidate_rows;
#[cfg(test)]
mod error_rows;
#[cfg(test)]
mod file_rows;
#[cfg(test)]
mod host_rows;
#[cfg(test)]
mod line_rows;
#[cfg(test)]
mod log_rows;
#[cfg(test)]
mod property_rows;
#[cfg(test)]
mod stack_rows;
#[cfg(test)]
mod survival_rows;
#[cfg(test)]
mod turn_rows;
