// This file finds the places of a program at which a run can continue.

ghost use Rattle.std.specs.Prelude.{◌≡◌, ◌≤◌, [], Some, None, length, pos, slice_get};
ghost use Rattle.ptb_command.specs.Prelude.{text_limit, Place, first_place, place_after, text_of, statement, IsLineAt};
ghost use Rattle.ptb_command.specs.Prelude.{PlacesAre};

use crate::command_order::command_laws;
use crate::location::Location;
use ptb_text::{Program, statement_laws};

/// The number and the text of this statement; 0 and nothing where there is none.
pub fn line_at(program: &Program, statement: usize) -> (i16, &[u8])
    ensures there { IsLineAt program.now.lines statement result.0 result.1.now }
    ensures absent { slice_get program.now.lines statement ≡ None
        → (result.0 ≡ pos 0) × (result.1.now ≡ []) }
    ensures short { length result.1.now ≤ text_limit }
{
    match program.get(statement) {
        Some(line) => line,
        None => (0, b""),
    }
}

/// The beginning of the first statement, if there is one.
pub(crate) fn first_place(program: &Program) -> Option<Location>
    ensures { PlacesAre program.now.lines (first_place program.now.lines) result }
{
    command_laws();
    statement_laws();
    if program.is_empty() {
        None
    } else {
        Some(Location {
            statement: 0,
            offset: 0,
        })
    }
}

/// The beginning of the statement after this one; none where there is no such statement.
pub(crate) fn place_after(program: &Program, statement: usize) -> Option<Location>
    ensures following { (q : Place) →
        slice_get program.now.lines statement
        ≡ Some (q.number, text_of program.now.lines q.number) →
        PlacesAre program.now.lines (place_after program.now.lines q.number) result }
    ensures absent { slice_get program.now.lines statement ≡ None → result ≡ None }
{
    command_laws();
    statement_laws();
    let count = program.len();
    if statement >= count || statement + 1 == count {
        return None;
    }
    Some(Location {
        statement: statement + 1,
        offset: 0,
    })
}

/// The beginning of the statement of this number, if there is one.
pub fn start_of(program: &Program, number: i16) -> Option<Location>
    ensures { PlacesAre program.now.lines (statement program.now.lines number) result }
{
    command_laws();
    statement_laws();
    match program.statement_index(number) {
        Some(statement) => {
            let offset = 0;
            Some(Location { statement, offset })
        }
        None => None,
    }
}
