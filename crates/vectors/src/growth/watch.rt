//! The times of calls.

use std::io;
use std::time::{CpuClock, Duration};

/// A watch of the processor's time, to which other work on the machine adds little. It keeps the least time of each call,
/// in the order of the calls.
#[derive(Drop)]
pub struct Watch<'a> {
    rt: &'a HostRuntime,
    pub least: Vec<(&'static str, Duration)>,
    at: usize,
    last: Duration,
    has_failed: bool,
}

impl<'a> Watch<'a> {
    pub fn new(rt: &'a HostRuntime) -> Watch<'a> {
        Watch {
            rt,
            least: Vec::new(rt.alloc()),
            at: 0,
            last: Duration::ZERO,
            has_failed: false,
        }
    }

    /// Begins a round of the calls.
    pub fn start(&mut self) {
        self.at = 0;
        self.go_on();
    }

    /// Leaves out the time since the last reading.
    pub fn go_on(&mut self) {
        match self.rt.thread_cpu_time() {
            Ok(time) => self.last = time,
            Err(_) => self.has_failed = true,
        }
    }

    /// The time since the last reading is that of the next call.
    pub fn lap(&mut self, call: &'static str) {
        let began = self.last;
        self.go_on();
        let taken = self.last.saturating_sub(began);
        match self.least.get_mut(self.at) {
            Some((_, least)) => *least = (*least).min(taken),
            None => self.has_failed |= self.least.push((call, taken)).is_err(),
        }
        self.at = self.at.saturating_add(1);
        self.go_on();
    }

    /// Fails if the clock could not be read, or a time could not be kept.
    pub fn check(&self) -> io::Result<()> {
        match self.has_failed {
            true => Err(io::ErrorKind::Other.into()),
            false => Ok(()),
        }
    }
}
