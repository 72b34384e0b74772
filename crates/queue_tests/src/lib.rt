//! Tests of queues and schedulers: commands that wait in a device, queues that threads share, requests whose barriers are
//! reassigned, the plain scheduler and the elevator.
//!
//! Stands on `device_epochs::queue`, `schedulers::dispatch`, `schedulers::reassign`, `schedulers::epochs` and `schedulers::elevator`.
#![tactic(auto)]

#[cfg(test)]
mod bench;
#[cfg(test)]
mod elevator;
#[cfg(test)]
mod epoch_queue;
#[cfg(test)]
mod plain_scheduler;
#[cfg(test)]
mod shared_queues;
#[cfg(test)]
mod steps;
#[cfg(test)]
mod waiting_commands;
