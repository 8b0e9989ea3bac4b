//! The checksums with which the events of a MySQL binary log may end, CRC-32.
#![tactic(auto)]

mod crc;
mod fault;
mod folding;
mod laws;
mod register;
mod sums;
mod tables;

pub use crc::{Crc, crc32};
pub use fault::SumFault;
pub use laws::{check_value, faults_are_of_a_front};
pub use sums::{SUM_LEN, check_format_sum, crc_not_in_use, summed_event};
