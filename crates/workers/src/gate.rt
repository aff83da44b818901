//! The callback for the ticks of a script.

/// Each tick of a script calls it in the thread that ticks, with that thread's name.
pub trait Gate {
    fn tick(&self, name: u64);
}

/// A gate that does nothing.
#[derive(Clone, Copy, Debug, Drop)]
pub struct OpenGate;

impl Gate for OpenGate {
    fn tick(&self, _name: u64) {}
}
