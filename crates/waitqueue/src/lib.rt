// The C interface: include/waitqueue.h.
#![tactic(auto)]

pub mod answers;
pub mod condvars;
pub mod events;
pub mod futexes;
pub mod msgqs;
pub mod mutexes;
pub mod pipes;
pub mod queues;
pub mod rings;
pub mod semaphores;
pub mod slabs;
pub mod stacks;
pub mod threads;
pub mod timeouts;
pub mod timers;
