//! Weighing a code that is not entrant, and freeing it where no activation is left.
ghost use Rattle.std.specs.Prelude.{◌≡◌, IfSome};
ghost use Rattle.stopped_threads.specs.Reclaiming.{IsReclaimed, IsReclaimedFrom, Frees};

use crate::faults::Reclaimed;
use board::{Board, Weighed};
use bodies::Name;
use desk::Desk;
use operations::job::HandshakeOp;

// Weighs a code, and frees it if no activation is left. None where the code can't be weighed.
fn weigh_and_free<N: Name, J: HandshakeOp>(
    desk: &mut Desk<N, J>,
    board: &Board,
    serial: u64,
) -> Option<Reclaimed<N>>
    requires board { board.now ≡ N.board }
    ensures { IfSome result (Frees N.board.places serial desk.old desk.new) }
{
    let Ok((said, weighing, _receipt)) = desk.weigh(board, serial) else {
        return None;
    };
    match said {
        Weighed::NotLooked(place) => Some(Reclaimed::Late(place, weighing)),
        Weighed::Used(count) => Some(Reclaimed::Used(count, weighing)),
        Weighed::Clear => match desk.free(board, serial) {
            Ok(receipt) => Some(Reclaimed::Freed(receipt)),
            Err(_) => None,
        },
    }
}

/// Looks at each place, weighs the code, and frees it if no activation is left. None where the code can't be weighed.
pub fn weigh<N: Name, J: HandshakeOp>(
    desk: &mut Desk<N, J>,
    board: &Board,
    serial: u64,
    places: usize,
) -> Option<Reclaimed<N>>
    requires board { board.now ≡ N.board }
    requires places { places ≡ N.board.places }
    ensures reclaimed { IfSome result (IsReclaimed N.board.places serial) }
    ensures from { IfSome result (IsReclaimedFrom desk.old N.board.places serial) }
{
    let Ok(()) = desk.look_at_all(board, serial, places) else {
        return None;
    };
    weigh_and_free(desk, board, serial)
}
