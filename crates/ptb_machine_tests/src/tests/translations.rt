// This file tests the code into which a command is translated, and where the next command begins.

use crate::tests::shared::{expect_eq, table};
use ptb_command::{Literal, Prompt};
use ptb_expr::FaultKind::{How, What};
use ptb_expr::{FaultKind, Step};
use ptb_machine::{CommandCode, Destination, Operation, translate};
use ptb_text::Cursor;

// An operation without its expressions: what it does, and its marks and places, or 0.
type Shape = (&'static str, u8, u8);

fn shape_of_set(destination: Destination) -> Shape {
    match destination {
        Destination::Letter(_) => ("set", 0, 0),
        Destination::Element(_, mark) => ("set element", mark, 0),
        Destination::Missing(_) => ("set nothing", 0, 0),
    }
}

fn shape_of_literal(literal: Literal) -> Shape {
    match literal {
        Literal::Text(range) => ("text", range.from, range.to),
        Literal::CarriageReturn => ("return byte", 0, 0),
    }
}

fn shape_of_prompt(prompt: Prompt) -> Shape {
    match prompt {
        Prompt::Name(range) => ("ask", range.from, range.to),
        Prompt::Text(range) => ("ask string", range.from, range.to),
        Prompt::CarriageReturn => ("ask return", 0, 0),
    }
}

fn shape_of(operation: Operation) -> Shape {
    match operation {
        Operation::Set(destination, _) => shape_of_set(destination),
        Operation::Say(literal) => shape_of_literal(literal),
        Operation::Show(_) => ("show", 0, 0),
        Operation::Width(_, mark) => ("width", mark, 0),
        Operation::NewLine => ("new line", 0, 0),
        Operation::Input(prompt, _) => shape_of_prompt(prompt),
        Operation::Discard(_) => ("discard", 0, 0),
        Operation::Fail(What, mark) => ("fail what", mark, 0),
        Operation::Fail(How, mark) => ("fail how", mark, 0),
        Operation::Fail(FaultKind::Sorry, mark) => ("fail sorry", mark, 0),
        Operation::Done { next } => ("done", next, 0),
        Operation::If { then, .. } => ("if", then, 0),
        Operation::Goto { end, .. } => ("goto", end, 0),
        Operation::Gosub { end, next, .. } => ("gosub", end, next),
        Operation::Return { end } => ("return", end, 0),
        Operation::For { end, next, .. } => ("for", end, next),
        Operation::EndTurn { end, next, .. } => ("end turn", end, next),
        Operation::Stop => ("stop", 0, 0),
        Operation::Remark => ("remark", 0, 0),
    }
}

// The fault of the last step, if it is that of a malformed part.
fn last_fault(steps: &[Step]) -> Option<(FaultKind, u8)> {
    match steps.last() {
        Some(Step::Fail(kind, mark)) => Some((*kind, *mark)),
        _ => None,
    }
}

// Each text: the operations of its first command, the fault of a malformed part that is an expression
// or a variable, and the place of the next command.
const TRANSLATIONS: &[(&str, &[Shape], Option<(FaultKind, u8)>, Option<usize>)] = table! {
    ("LET A=1,@(2)=A;P.1", &[("set", 0, 0), ("set element", 12, 0), ("done", 15, 0)], None, Some(15)),
    ("A=1", &[("set", 0, 0), ("done", 3, 0)], None, None),
    ("A=1 ; B=2", &[("set", 0, 0), ("done", 6, 0)], None, Some(6)),
    ("A=1X", &[("set", 0, 0), ("fail what", 3, 0)], None, None),
    ("A=1,B=(2", &[("set", 0, 0), ("set", 0, 0)], Some((What, 8)), None),
    ("A 1", &[("set", 0, 0)], Some((What, 2)), None),
    ("A=40000", &[("set", 0, 0)], Some((How, 7)), None),
    (",", &[("set nothing", 0, 0)], Some((What, 0)), None),
    (";P.1", &[("set nothing", 0, 0)], Some((What, 0)), None),
    ("", &[("set nothing", 0, 0)], Some((What, 0)), None),
    ("IF A=1 P.2", &[("if", 7, 0)], None, Some(7)),
    ("IF A", &[("if", 4, 0)], None, Some(4)),
    ("IF (", &[("discard", 0, 0)], Some((What, 4)), None),
    ("GOTO 20", &[("goto", 7, 0)], None, None),
    ("GOTO 20;P.1", &[("discard", 0, 0), ("fail what", 7, 0)], None, None),
    ("GOTO", &[("discard", 0, 0)], Some((What, 4)), None),
    ("GOSUB 20 ;P.1", &[("gosub", 9, 10)], None, Some(10)),
    ("GOSUB 20", &[("gosub", 8, 8)], None, None),
    ("GOSUB 20,", &[("discard", 0, 0), ("fail what", 8, 0)], None, None),
    ("RETURN", &[("return", 6, 0)], None, None),
    ("RETURN;", &[("fail what", 6, 0)], None, None),
    ("FOR A=1 TO 9 STEP B;P.A", &[("set", 0, 0), ("for", 19, 20)], None, Some(20)),
    ("F.A=1TO9", &[("set", 0, 0), ("for", 8, 8)], None, None),
    ("FOR 1", &[("fail what", 4, 0)], None, None),
    ("FOR A=1", &[("set", 0, 0), ("discard", 0, 0)], Some((What, 7)), None),
    ("F.A=1TO9,", &[("set", 0, 0), ("discard", 0, 0), ("discard", 0, 0), ("fail what", 8, 0)], None, None),
    ("F.A=1TO9S.", &[("set", 0, 0), ("discard", 0, 0), ("discard", 0, 0)], Some((What, 10)), None),
    ("NEXT A;P.1", &[("end turn", 6, 7)], None, Some(7)),
    ("NEXT A", &[("end turn", 6, 6)], None, None),
    ("NEXT 1", &[("fail what", 5, 0)], None, None),
    ("NEXT A,", &[("fail what", 6, 0)], None, None),
    ("INPUT A,'N'@(1),_;P.A",
     &[("ask", 6, 7), ("ask string", 9, 10), ("return byte", 0, 0), ("done", 18, 0)], None, Some(18)),
    ("IN._B", &[("ask return", 0, 0), ("done", 5, 0)], None, None),
    ("IN.A,", &[("ask", 3, 4), ("fail what", 5, 0)], None, None),
    ("IN.'N", &[("fail what", 3, 0)], None, None),
    ("IN.'N'@(", &[("ask string", 4, 5)], Some((What, 8)), None),
    ("P.'A',_,#3,B;P.1",
     &[("text", 3, 4), ("return byte", 0, 0), ("width", 10, 0), ("show", 0, 0), ("new line", 0, 0), ("done", 13, 0)],
     None, Some(13)),
    ("PRINT", &[("new line", 0, 0), ("done", 5, 0)], None, None),
    ("P.1,", &[("show", 0, 0), ("done", 4, 0)], None, None),
    ("P.1 2", &[("show", 0, 0), ("new line", 0, 0), ("fail what", 4, 0)], None, None),
    ("P.,", &[("show", 0, 0)], Some((What, 2)), None),
    ("P.'A", &[("fail what", 2, 0)], None, None),
    ("STOP", &[("stop", 0, 0)], None, None),
    ("STOP;", &[("fail what", 4, 0)], None, None),
    ("REM A;P.1", &[("remark", 0, 0)], None, None),
};

// The code of each command replaces that of the one before it.
#[test]
fn translations(rt: HostRuntime) {
    let mut code = CommandCode::new();
    for &(text, operations, malformed, next) in TRANSLATIONS {
        assert!(rt; text.len() <= 255);
        let mut cursor = Cursor::new(text.as_bytes(), 0);
        let next_then = translate(&mut cursor, &mut code);
        let found = (
            code.operations().len(),
            last_fault(code.expression_steps()),
            next_then,
        );
        expect_eq(&rt, text, found, (operations.len(), malformed, next));
        let mut left = code.operations();
        for &want in operations {
            if let [first, rest @ ..] = left {
                expect_eq(&rt, text, shape_of(*first), want);
                left = rest;
            }
        }
    }
}
