//! Tests of the runner itself: which rows it plays, and where it stops.
use std::alloc::Global;
use std::test::*;
use test_support::rows::{Played, Player, Stopped, play_rows};
use test_support::said::{Said, word};

/// Answers the words after `say`. It answers the words after `lack` too, once `lack` has answered `NoMemory` this many times.
#[derive(Drop)]
struct Echo {
    lacks: u32,
}

impl<R> Player<R> for Echo {
    fn answer(&mut self, _rt: &R, alloc: Global, call: &str) -> Option<Said> {
        let (name, words) = call.split_once(' ')?;
        if name == "lack" && self.lacks > 0 {
            self.lacks = self.lacks.saturating_sub(1);
            return Some(word(alloc, "NoMemory"));
        }
        match name {
            "say" | "lack" => Some(word(alloc, words)),
            _ => None,
        }
    }
}

// The result of playing rows.
fn outcome(alloc: Global, played: Played) -> Said {
    match played {
        Ok(None) => word(alloc, "whole"),
        Ok(Some(call)) => format!(in alloc; "refused: {call}"),
        Err(Stopped::NoMemory) => word(alloc, "no memory"),
        Err(Stopped::At(why)) => Ok(why),
    }
}

#[test]
fn rows_are_played_up_to_the_first_fault(rt: HostRuntime) -> Result<(), Fail> {
    let cases = [
        (
            0,
            "say 1, say 1 = 1\n\n# Nothing.\n 1..3: say * = *; say 2 = 2",
            "whole",
        ),
        (
            0,
            "say it: x, y = it: y",
            "line 1: say it: x answers it: x and not it: y",
        ),
        (
            0,
            "say 1 = 1\nsay 1, say 2 = 1",
            "line 2: say 2 answers 2 and not 1",
        ),
        (
            0,
            "say 1 = 1; say 1 = 2",
            "line 1: say 1 answers 1 and not 2",
        ),
        (0, "1..3: say * = 1", "line 1: say 2 answers 2 and not 1"),
        (0, "sing 1 = 1", "line 1: there is no sing 1"),
        (0, "say 1", "line 1: no answer in say 1"),
        (0, "1..x: say * = *", "line 1: no numbers before say * = *"),
        (1, "lack 1 = 1", "refused: lack 1"),
        (1, "lack 1 = 1 | say 2 = 2 | say 3 = 3", "refused: lack 1"),
        (
            1,
            "lack 1 = 1 | say 2 = 2 | say 3 = 4",
            "line 1: say 3 answers 3 and not 4",
        ),
        (2, "lack 1 = 1", "line 1: lack 1 answers NoMemory and not 1"),
        (
            0,
            "lack 1 = NoMemory",
            "line 1: lack 1 answers 1 and not NoMemory",
        ),
    ];
    for (lacks, text, expected) in cases {
        let played = play_rows(&rt, rt.alloc(), &mut Echo { lacks }, text, None);
        let said = outcome(rt.alloc(), played)?;
        assert_eq!(rt; said.as_str(), expected, "of {text}");
    }
    Ok(())
}
