use std::time::{CpuClock, Duration};

/// The processor time up to the end of the last step.
#[derive(Drop)]
pub(crate) struct Watch {
    last: Duration,
}

impl Watch {
    /// Begins with the first step.
    pub fn start(clock: &impl CpuClock) -> Option<Watch> {
        Some(Watch {
            last: clock.thread_cpu_time().ok()?,
        })
    }

    /// Ends a step: prints how much it made, and how many seconds it took.
    pub fn end<R: Print + Eprint + CpuClock>(
        &mut self,
        rt: &R,
        step: &str,
        made: usize,
    ) -> Option<()> {
        let now = rt.thread_cpu_time().ok()?;
        let took = now.saturating_sub(self.last).as_millis();
        println!(rt; "{step} {made}").ok()?;
        eprintln!(rt; "{step}: {took} ms").ok()?;
        self.last = rt.thread_cpu_time().ok()?;
        Some(())
    }
}
