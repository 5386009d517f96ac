// This file loads a program text: it reads the bytes, and enters the lines one after the other.

ghost use Rattle.std.specs.Prelude.{◌≡◌, ◌<◌, ◌≤◌, ◌==◌, [], ◌∷◌, length, map, IfErr, IfOk, IfSome, IsOk, position};
ghost use Rattle.std.specs.Prelude.{take, vec_len};
ghost use Rattle.std.specs.Str.Lines.{strip_carriage_return};
ghost use Rattle.ptb_text.specs.Prelude.{IsLineFault, lines, tab_as_space, FailsToLoad, HasTextAt, Loads, ReadsProgram};
ghost use Rattle.ptb_text.specs.Prelude.{IsMemorySize, after_lines, program_limit, reads_of};

use crate::allowance::{Allowance, Piece};
use crate::{LoadFault, Program, Read};
use std::alloc::Global;

/// How many bytes a program text may have.
const PROGRAM_LIMIT: usize = 1_048_576;

/// One page, so that few reads are needed and the buffer stays on the stack.
const BUFFER_SIZE: usize = 4096;

/// Loads a program text into a program that is given this memory, 64 to 32767.
///
/// All bytes are read first, at most 1,048,577, also from a reader that never ends. Tabs are read
/// as spaces, and a line loses one byte 13 at its end. Then the lines are entered one after the
/// other, by [`Program::enter`].
///
/// # Errors
///
/// The first fault, with the source line that it came at, counted from 1. A fault of the text as a
/// whole comes at line 0: `Read` where the reader failed, `TooLong` where it gave more than
/// 1,048,576 bytes, `Memory` where a growth was refused while it was read. At any other line
/// `Memory` means that there was none for the text that the line stores.
pub fn load<R: Read>(
    alloc: Global,
    memory: u16,
    reader: &mut R,
) -> Result<Program, (u32, LoadFault)>
    requires { IsMemorySize memory }
    ensures loads { Loads memory (R.remaining reader.old) result }
    ensures reads { ReadsProgram
        (reads_of R.remaining R.given R.failures reader.old reader.new) result }
    ensures sure { R.reliable reader.old → ¬ FailsToLoad result LoadFault.Read }
{
    let mut text = program_text(alloc, reader)?;
    tabs_to_spaces(&mut text);
    enter_lines(Program::new(alloc, memory), &text)
}

// All that the reader gives to its end, if that isn't too much.
fn program_text<R: Read>(alloc: Global, reader: &mut R) -> Result<Vec<u8>, (u32, LoadFault)>
    ensures ok { IfOk result (λ text. IfSome (R.remaining reader.old) (λ b. b ≡ text.items)) }
    ensures short { IfOk result (λ text. vec_len text ≤ program_limit) }
    ensures whole { IfErr result (λ e. (e.0 ≡ 0) × ¬ IsLineFault e.1) }
    ensures reads { ReadsProgram
        (reads_of R.remaining R.given R.failures reader.old reader.new) result }
    ensures sure { R.reliable reader.old → ¬ FailsToLoad result LoadFault.Read }
{
    let mut text = Vec::new(alloc);
    let mut buffer = [0; BUFFER_SIZE];
    let mut left = Allowance::new(PROGRAM_LIMIT);
    loop {
        match left.read(reader, &mut buffer) {
            Ok(Piece::End) => return Ok(text),
            Ok(Piece::Bytes(count)) => {
                if text.extend_from_slice(&buffer[..count]).is_err() {
                    return Err((0, LoadFault::Memory));
                }
            }
            Ok(Piece::TooLong) => return Err((0, LoadFault::TooLong)),
            Err(_) => return Err((0, LoadFault::Read)),
        }
    }
}

// A program text is read with its tabs as spaces.
fn tabs_to_spaces(text: &mut [u8])
    ensures { text.new ≡ map tab_as_space text.old }
{
    for byte in text.iter_mut() {
        if *byte == b'\t' {
            *byte = b' ';
        }
    }
}

/// The first line of a text that isn't empty, and the text after it.
pub fn split_line(text: &[u8]) -> (&[u8], &[u8])
    requires { 0 < length text.now }
    ensures lines { lines text.now ≡ result.0.now ∷ lines result.1.now }
    ensures shorter { length result.1.now < length text.now }
{
    match newline(text) {
        Some(end) => (strip_carriage_return(&text[..end]), &text[end + 1..]),
        None => (strip_carriage_return(text), &[]),
    }
}

// The index of the first byte 10.
fn newline(text: &[u8]) -> Option<usize>
    ensures value { result ≡ position (λ b. b == 10) text.now }
    ensures within { IfSome result (λ end. end < length text.now) }
{
    text.iter().position(|b| *b == b'\n')
}

// The line without the one byte 13 at its end, if it has one.
fn strip_carriage_return(line: &[u8]) -> &[u8]
    ensures { result.now ≡ strip_carriage_return line.now }
{
    match line {
        [front @ .., b'\r'] => front,
        _ => line,
    }
}

// Enters the lines of a text without tabs into a program without statements.
fn enter_lines(mut program: Program, text: &[u8]) -> Result<Program, (u32, LoadFault)>
    requires empty { program.lines ≡ [] }
    requires short { length text.now ≤ program_limit }
    ensures memory { IfOk result (λ p. p.memory ≡ program.memory) }
    ensures ok { IfOk result
        (λ p. after_lines (lines text.now) 1 [] program.memory ≡ Ok p.lines) }
    ensures refused { IfErr result (λ e. IsLineFault e.1
        → after_lines (lines text.now) 1 [] program.memory ≡ Err e) }
    ensures memory_last { IfErr result (λ e. ¬ IsLineFault e.1 → (e.1 ≡ LoadFault.Memory)
        × IsOk (after_lines (take e.0 (lines text.now)) 1 [] program.memory)) }
    ensures memory_line { IfErr result (λ e. e.1 ≡ LoadFault.Memory
        → HasTextAt (lines text.now) e.0) }
    ensures line { IfErr result (λ e. 0 < e.0) }
{
    let mut rest = text;
    let mut entered: u32 = 0;
    while !rest.is_empty() {
        let (line, following) = split_line(rest);
        if let Err(fault) = program.enter(line) {
            return Err((entered + 1, fault));
        }
        entered += 1;
        rest = following;
    }
    Ok(program)
}
