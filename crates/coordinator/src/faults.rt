//! The results of driving a request, and its faults. `stopped_threads` has those of the other calls.
ghost use Rattle.std.specs.Prelude.{◌≡◌};
ghost use Rattle.coordinator.specs.Driving.{number_of};

/// The request that was worked on: a handshake, or a census with a pair of serial and frames for each code.
#[derive(Drop)]
pub enum Driven {
    Handshake(u64),
    Census(u64, Vec<(u64, u32)>),
}

impl Driven {
    /// Returns the number of the operation.
    pub fn number(&self) -> u64
        ensures { result ≡ number_of self.now }
    {
        match self {
            Driven::Handshake(number) => *number,
            Driven::Census(number, _) => *number,
        }
    }
}

/// Why `drive` closed no request.
#[derive(Drop, Clone, Copy, PartialEq, Eq, Debug)]
pub enum DriveFault {
    /// No request is open or waits.
    QueueEmpty,
    /// There is no memory for the list of a census. The census stays open, and the next `drive` continues with it.
    NoMemory,
}
