//! The devices, scripts and sinks over real files.
//!
//! The program makes them and hands them to the layers above by the traits of `disk_model`. They
//! tell nothing of what their files hold: what is promised over them of bytes rests on the model of
//! the disk, and which calls of the system they make is tested.
#![tactic(auto)]

mod begun_tables;
#[cfg(test)]
mod calls_tests;
mod faults;
mod file_at;
mod folder;
mod journal_folder;
mod keep_out;
mod makers;
mod real_devices;
mod real_journal;
mod real_maker;
mod real_port;
mod real_scripts;
mod real_sink;
mod real_sinks;
mod real_table;
mod returned;
mod shared;
mod table_handles;
#[cfg(test)]
mod tables_tests;
mod taken_away;
#[cfg(test)]
mod tests;
#[cfg(test)]
mod watched;

pub use keep_out::KeepOut;
pub use real_devices::RealDevices;
pub use real_scripts::RealScripts;
pub use real_sinks::RealSinks;
