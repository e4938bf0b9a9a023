//! Tests of the crates of the outside by their public calls, a module for each crate: devices, the disk, threads. There is nothing else here.
#![tactic(auto)]

#[cfg(test)]
mod disk_tests;
#[cfg(test)]
mod folder_tests;
#[cfg(test)]
mod slow_devices_tests;
#[cfg(test)]
mod wave_run_tests;
