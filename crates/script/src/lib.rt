// The language of the program: a script is lines, each a command, and a command that can be read is answered by a line.
//
// A line's words are the pieces between its single spaces. The first names the command, and the others are its own.
// An empty line and a line that begins with `#` ask for nothing.
//
// The main promise: what is read of a line, and what is printed for it, are those of the definitions in specs/Commands,
// which go over the line's bytes alone. Want of memory is the one fault that they leave open.
//
// A further command costs a case of `Command`, a reading function in the module of its topic, and an arm in `read_named`
// and in `answer`.

#![tactic(auto)]

ghost use Rattle.std.specs.Prelude.{◌≡◌, Err, string_bytes, IsUtf8};
ghost use Rattle.std.specs.Option.{option_map};
ghost use Rattle.words.specs.declared.faults.Fault.TheVariants.{NotText};
ghost use Rattle.script.specs.Commands.{asks_for, request, by_name, request_in, answer_in};
ghost use Rattle.words.specs.Input.{body};
ghost use Rattle.words.specs.Outcomes.{Gives};
ghost use Rattle.words.specs.Pieces.{words_left};

mod columns_command;

pub use columns_command::{ColumnsCommand, columns_line};
use columns_command::{answer_columns, read_columns};
use std::alloc::Global;
use words::{Fault, Words, text_of};

// What a line asks for, where it asks for something.
#[derive(Drop)]
pub enum Command {
    Columns(ColumnsCommand),
}

// Reads what a line asks for, or says why it cannot be read.
pub fn read_command(heap: Global, line: &str) -> Result<Option<Command>, Fault>
    ensures { Gives request result (request_in line.now) }
{
    if line.is_empty() || line.starts_with('#') {
        return Ok(None);
    }
    Ok(Some(read_named(heap, Words::new(line))?))
}

fn read_named(heap: Global, mut words: Words) -> Result<Command, Fault>
    ensures { Gives asks_for result (by_name (words_left words.entry)) }
{
    match words.next_word() {
        Some("columns") => Ok(Command::Columns(read_columns(heap, words)?)),
        _ => Err(Fault::UnknownCommand),
    }
}

// What is to be printed for a line as it was read from the input, its end included: one line, or nothing.
pub fn answer_line(heap: Global, raw: &[u8]) -> Result<Option<String>, Fault>
    ensures value { IsUtf8 (body raw.now) → Gives (option_map string_bytes) result (answer_in (body raw.now)) }
    ensures refused { (IsUtf8 (body raw.now) → ⊥) → result ≡ Err NotText }
{
    answer(heap, text_of(raw)?)
}

fn answer(heap: Global, line: &str) -> Result<Option<String>, Fault>
    ensures { Gives (option_map string_bytes) result (answer_in line.now) }
{
    match read_command(heap, line)? {
        None => Ok(None),
        Some(Command::Columns(command)) => Ok(Some(answer_columns(heap, &command)?)),
    }
}
