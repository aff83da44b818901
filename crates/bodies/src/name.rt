//! Which board and which poll row a running system has.
ghost use Rattle.std.specs.Prelude.{[]};
ghost use Rattle.board.specs.Boards.{BoardId};
ghost use Rattle.atomic_table.specs.Seated.{TableId};

use std::marker::Brand;

/// The identities of a board and of a poll row. Values whose types have the same `Name` belong to the same board and row, also
/// after they come out of a lock. A program picks one `Name` where it makes the board and the row.
pub trait Name {
    ghost board: { BoardId };

    ghost poll_row: { TableId };
}

impl Name for Brand {
    ghost board = { record { table = record { words = 0; slots = 0; views_name = 0; atom = 0; block = 0; offset = 0; slot_names = [] }; slots = 0; places = 0 } };

    ghost poll_row = { record { words = 0; slots = 0; views_name = 0; atom = 0; block = 0; offset = 0; slot_names = [] } };
}
