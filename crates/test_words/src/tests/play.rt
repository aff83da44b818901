// Plays a call on running words. The call is a line of text: its caller (`keeper`, `armer` or the number of a place), the call, and
// its numbers.
use super::said::{Said, number_in, says, tells};
use super::tables::Tables;
use bodies::Name;

fn number_of(word: Option<&str>) -> u64 {
    match word {
        Some(word) => number_in(word).unwrap_or(0),
        None => 0,
    }
}

fn parsed(line: &str) -> Option<(&str, &str, u64, u64)> {
    let mut words = line.split(' ');
    let who = words.next()?;
    let call = words.next()?;
    let first = number_of(words.next());
    Some((who, call, first, number_of(words.next())))
}

// Answers None if there is no such call, or it isn't legal now.
pub fn play<N: Name>(tables: &mut Tables<N>, line: &str) -> Option<Said> {
    let (who, call, first, second) = parsed(line)?;
    if who == "keeper" {
        return tables.shelf.play(&tables.board, call, first);
    }
    if who == "armer" {
        return by_armer(tables, call, first as usize, second);
    }
    by_thread(tables, number_of(Some(who)) as usize, call, first)
}

fn by_armer<N: Name>(tables: &mut Tables<N>, call: &str, place: usize, n: u64) -> Option<Said> {
    if place >= tables.armer.places(&tables.row) {
        return None;
    }
    let last = tables.armer.last(place);
    if call == "last" {
        return tells("", last);
    }
    if call != "arm" || n <= last || n >= 1 << 40 {
        return None;
    }
    tables.armer.arm(&tables.row, place, n);
    says("told")
}

fn by_thread<N: Name>(tables: &mut Tables<N>, place: usize, call: &str, more: u64) -> Option<Said> {
    let place = tables.places.get_mut(place)?;
    place.play(&tables.board, &tables.row, call, more)
}
