// Poll words: runs of one thread, rows that are closed, and rows that threads share.
use super::run::{Run, assert_plays};
use std::test::Fail;

const A_GREATER_NUMBER_STAYS_ARMED: &str = "| armer last 0 => 0; | 0 poll => go
| armer arm 0 1 => told; | armer last 0 => 1; | 0 poll => stop 1
| armer arm 0 2 => told; | 0 clear 1 => kept; | 0 poll => stop 2
| 0 clear 2 => ok; | 0 poll => go; | armer last 0 => 2";

const PLACES_ARE_APART: &str =
    "| armer arm 1 7 => told; | 0 poll => go; | 1 poll => stop 7; | 2 poll => go
| armer arm 2 1099511627775 => told; | 1 clear 7 => ok; | 2 poll => stop 1099511627775
| armer last 0 => 0; | armer last 1 => 7; | armer last 2 => 1099511627775";

const SIXTY_FOUR_PLACES: &str =
    "| armer arm 63 1099511627775 => told; | 63 poll => stop 1099511627775; | armer last 0 => 0
| 63 clear 1099511627775 => ok; | 63 poll => go";

#[test]
fn words_are_armed_polled_and_cleared(rt: HostRuntime) -> Result<(), Fail> {
    for (places, lines) in [
        (1, A_GREATER_NUMBER_STAYS_ARMED),
        (3, PLACES_ARE_APART),
        (64, SIXTY_FOUR_PLACES),
    ] {
        let run = Run {
            places,
            slots: 1,
            slot: 0,
            lines,
            left: "",
        };
        assert_plays(&rt, rt.alloc(), run)?;
    }
    Ok(())
}
