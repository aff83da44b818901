// The state of a system.
use crate::records::Record;
use crate::requests::Requests;
use crate::thread::Thread;
use activation_index::dense::DenseIndex;
use method_table::table::MethodTable;

/// The places with their threads, the codes with a record for each slot, the published counts, the last numbers and the
/// requests.
#[derive(Drop)]
pub struct Core {
    pub places: Vec<Option<Thread>>,
    pub table: MethodTable,
    pub records: Vec<Record>,
    pub index: DenseIndex,
    /// How many names were given out.
    pub names: u64,
    /// 1 plus the number of rounds.
    pub moment: u64,
    pub requests: Requests,
}
