//! What a job is.

/// Work that is done once, on what the job holds. A job that waits for others holds the runtime by a reference, and its
/// type has a parameter for it, as in `impl<'a, R: Wait> Job for Lane<'a, R>`.
pub trait Job {
    /// What `run` needs.
    ghost ready: { Self → Type 0 };

    /// What `run` gives: the job before it, and the job after.
    ghost ran: { Self → Self → Type 0 };

    /// Does the work.
    fn run(&mut self)
        requires { ready self.old }
        ensures { ran self.old self.new };
}
