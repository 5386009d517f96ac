// This file writes the report of a run, and lists of answers.

ghost use Rattle.std.specs.Prelude.{◌≡◌, ◌==◌, [], ◌++◌, codes, if◌then◌else◌};
ghost use Rattle.ptb_text.specs.Streams.{GathersText, WritesText, writes_of};
ghost use Rattle.ptb_answers.specs.AnswerText.{spelling};
ghost use Rattle.ptb_explore.specs.Prelude.{asked_items, in_form, item_text, list_line, text_of_report};

use itoa::Buffer;
use ptb_answers::{Asked, Form, Marked};
use ptb_text::{DeviceFault, OutputBuffer, Write};

// Bytes that wait to be written: on the stack, since a report takes no memory.
type Pending = OutputBuffer<512>;

// What comes before the item at a place.
fn separator(place: usize) -> &'static [u8]
    ensures { result.now ≡ (if place == 0 then [] else codes ",") }
{
    if place == 0 { b"" } else { b"," }
}

// Adds an item to the pending bytes, after a separator.
fn put_item<W: Write>(
    out: &mut W,
    pending: &mut Pending,
    separator: &[u8],
    item: Marked,
) -> Result<(), DeviceFault>
    ensures { GathersText (writes_of W.contents W.failures out.old out.new)
        (pending.old ++ (separator.now ++ item_text item)) pending.new result }
{
    let (mut answer, mut bound) = (Buffer::new(), Buffer::new());
    let answer = answer.format(item.answer).as_bytes();
    match item.bound {
        None => pending.put_all(out, &[separator, answer]),
        Some(number) => {
            let bound = bound.format(number).as_bytes();
            pending.put_all(out, &[separator, answer, b"/", bound])
        }
    }
}

// An answer as a form has it.
fn item(form: Form, answer: i16, bound: i16) -> Marked
    ensures { result ≡ in_form form answer bound }
{
    match form {
        Form::One => Marked {
            answer,
            bound: None,
        },
        Form::Two => Marked {
            answer,
            bound: Some(bound),
        },
    }
}

// Adds the answers to the pending bytes as a form has them, joined by commas.
fn put_answers<W: Write>(
    out: &mut W,
    pending: &mut Pending,
    form: Form,
    asked: &[Asked],
) -> Result<(), DeviceFault>
    ensures { GathersText (writes_of W.contents W.failures out.old out.new)
        (pending.old ++ spelling (asked_items form asked.now)) pending.new result }
{
    if asked.is_empty() {
        return pending.put(out, b"none");
    }
    for k in 0..asked.len() {
        let Asked { answer, bound } = asked[k];
        put_item(out, pending, separator(k), item(form, answer, bound))?;
    }
    Ok(())
}

/// What the report of a run has.
///
/// Public so that tests can try how reports are written.
#[derive(Clone, Copy)]
pub struct Parts<'a> {
    /// How it has the answers.
    pub form: Form,
    /// The answers that the run took, each with its bound.
    pub asked: &'a [Asked],
    /// The word of its ending.
    pub word: &'a [u8],
    /// How many commands it began.
    pub steps: u32,
    /// All that it showed.
    pub transcript: &'a [u8],
}

/// Writes the report of a run piece by piece, whatever its length.
// Not inlined, so that the code for short reports needs no room for pieces.
#[inline(never)]
pub(crate) fn write_in_pieces<W: Write>(out: &mut W, report: &Parts) -> Result<(), DeviceFault>
    ensures { WritesText (writes_of W.contents W.failures out.old out.new)
        (text_of_report report.now) result }
{
    let mut pending = Pending::new();
    pending.put(out, b"RUN ")?;
    put_answers(out, &mut pending, report.form, report.asked)?;
    let (mut counted, mut sized) = (Buffer::new(), Buffer::new());
    let steps = counted.format(report.steps).as_bytes();
    let size = sized.format(report.transcript.len()).as_bytes();
    pending.finish(
        out,
        &[
            b" ",
            report.word,
            b" ",
            steps,
            b" ",
            size,
            b"\n",
            report.transcript,
            b"\n",
        ],
    )
}

/// Writes a list of answers as the form has it, and a newline.
///
/// It takes no memory, and writes a short list in one piece.
///
/// # Errors
///
/// [`DeviceFault::Write`] where the writer failed. A prefix of the line may have been taken then.
pub fn write_list<W: Write>(out: &mut W, form: Form, asked: &[Asked]) -> Result<(), DeviceFault>
    ensures { WritesText (writes_of W.contents W.failures out.old out.new)
        (list_line (asked_items form asked.now)) result }
{
    let mut pending = Pending::new();
    put_answers(out, &mut pending, form, asked)?;
    pending.finish(out, &[b"\n"])
}
