//! Examples that are proved: what the definitions give for small logs, spelled byte by byte.
#![tactic(auto)]

mod worked_logs;

pub use worked_logs::{
    worked_event_faults, worked_faults, worked_file_faults, worked_first_faults, worked_groups,
    worked_inverses, worked_normal_forms, worked_outputs, worked_printed, worked_selections,
    worked_starts, worked_versions,
};
