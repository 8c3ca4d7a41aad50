// Printing: the line that is printed for a line of the script.
ghost use Rattle.std.specs.Prelude.{◌≡◌, ◌++◌, OnOk};
ghost use Rattle.script.specs.Printed.{echoed, after_arrow, reply};
ghost use Rattle.script.specs.Words.{words};

use crate::answer::Answer;
use crate::words::Words;
use std::alloc::AllocError;

// Prints the words of a line, each with a blank behind it.
fn print_words(out: &mut Vec<u8>, line: &[u8]) -> Result<(), AllocError>
    ensures { OnOk result (out.new.items ≡ out.old.items ++ echoed (words line.now)) }
{
    for word in Words::of(line) {
        out.extend_from_slice(word)?;
        out.push(b' ')?;
    }
    Ok(())
}

fn print_answer(out: &mut Vec<u8>, answer: Answer) -> Result<(), AllocError>
    ensures { OnOk result (out.new.items ≡ out.old.items ++ after_arrow answer) }
{
    // Room for every answer, so that the text is not moved as it grows.
    let mut text = String::with_capacity(*out.allocator(), 64)?;
    write!(text, "=> {answer}\n")?;
    out.extend_from_slice(text.as_bytes())?;
    Ok(())
}

// Prints the line that answers a line of the script.
pub fn print_reply(out: &mut Vec<u8>, line: &[u8], answer: Answer) -> Result<(), AllocError>
    ensures { OnOk result (out.new.items ≡ out.old.items ++ reply (words line.now) answer) }
{
    print_words(out, line)?;
    print_answer(out, answer)
}
