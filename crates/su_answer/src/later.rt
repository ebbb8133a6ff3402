//! Jobs that come behind others.
use su_par::Gate;

/// A gate for jobs with `first` others before them, which it counts too.
#[derive(Drop)]
pub struct Later<'a, G> {
    pub gate: &'a G,
    pub first: usize,
}

impl<'a, G: Gate> Gate for Later<'a, G> {
    fn pass(&self, job: usize) {
        self.gate.pass(self.first.wrapping_add(job));
    }
}
