// This file finds the command that is next in the text of a program.

ghost use Rattle.std.specs.Prelude.{◌≡◌, Option, None, MatchOption};
ghost use Rattle.ptb_command.specs.Locations.{PlacesAre, IsPlaceOf, NextIs};
ghost use Rattle.ptb_command.specs.State.{Place, next_command};

use crate::command_order::command_laws;
use crate::location::Location;
use crate::statement_places::{line_at, place_after};
use ptb_text::{Cursor, Program};

/// The place of the next command's statement, and a cursor at the command's beginning. None where
/// no command is left.
#[inline(always)]
pub fn next_command<'a>(
    program: &'a Program,
    place: Option<Location>,
) -> Option<(usize, Cursor<'a>)>
    requires { IsPlaceOf program.now.lines place }
    ensures { (q : Option Place) → PlacesAre program.now.lines q place →
        MatchOption result (next_command program.now.lines q ≡ None)
        (λ x. NextIs program.now.lines q
        (record { statement = x.0; offset = x.1.place }) x.1.text) }
{
    command_laws();
    let here = place?;
    let (_, text) = line_at(program, here.statement);
    let cursor = Cursor::new(text, here.offset);
    if !cursor.at_end() {
        return Some((here.statement, cursor));
    }
    let following = place_after(program, here.statement)?;
    let (_, text) = line_at(program, following.statement);
    let cursor = Cursor::new(text, following.offset);
    if cursor.at_end() {
        return None;
    }
    Some((following.statement, cursor))
}
