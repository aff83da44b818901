// Rows of steps, separated by semicolons.

// The steps for which the row `one thread runs` stands.
const ONE_THREAD_RUNS: &str =
    "start => thread 1 place 0; begin 0 | 0 begin => ok; end 0 | 0 end => ok; wake 0 => ok; cross 0 | 0 poll => go";

// The steps of a row, as text.
pub fn steps_in(row: &str) -> &str {
    if row == "one thread runs" {
        ONE_THREAD_RUNS
    } else {
        row
    }
}
