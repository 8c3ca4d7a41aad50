// Conversations: what a program knows while it goes through a script, and the run through a whole script.
ghost use Rattle.std.specs.Prelude.{◌≡◌, ℕ, List, ◌++◌, IfOk, OnOk, IfSome};
ghost use Rattle.script.specs.declared.answer.Answer.{Answer as AnswerOf};
ghost use Rattle.script.specs.declared.call.Call.{Call as CallOf};
ghost use Rattle.script.specs.Transcript.{Prints, Said, Transcript};
ghost use Rattle.script.specs.Words.{lines};

use crate::answer::Answer;
use crate::call::Call;
use crate::printing::print_reply;
use crate::reading::read_line;
use crate::words::Lines;
use std::alloc::{AllocError, Global};
use std::io;
use std::io::{Read, Write};

// What answers the calls of a script, one after the other.
pub trait Conversation {
    // which answer a call gets, and what the conversation is after it
    ghost answers: { Self → CallOf → AnswerOf → Self → Type 0 };

    // what is said at the end of the script
    ghost closing: { Self → AnswerOf };

    fn answer(&mut self, call: Call) -> Answer
        ensures { answers self.old call result self.new };

    fn close(&self) -> Answer
        ensures { result ≡ closing self.now };
}

// Answers one line of the script, and prints what there is to print.
fn answer_line<C: Conversation>(
    out: &mut Vec<u8>,
    conversation: &mut C,
    line: &[u8],
) -> Result<(), AllocError>
    ensures { OnOk result ((printed : List ℕ) × (out.new.items ≡ out.old.items ++ printed) × Prints C.Conversation.answers conversation.old line.now printed conversation.new) }
{
    let answer = match read_line(line) {
        None => return Ok(()),
        Some(Ok(call)) => conversation.answer(call),
        Some(Err(reason)) => Answer::NotAccepted(reason),
    };
    print_reply(out, line, answer)
}

// Goes through a whole script, and gives what is printed for it.
pub fn run<C: Conversation>(
    heap: Global,
    conversation: &mut C,
    input: &[u8],
) -> Result<Vec<u8>, AllocError>
    ensures { IfOk result (λ out. Transcript C.Conversation.answers C.Conversation.closing conversation.old (lines input.now) out.items) }
{
    let mut out = Vec::new(heap);
    for line in Lines::of(input) {
        answer_line(&mut out, conversation, line)?;
    }
    print_reply(&mut out, b"end", conversation.close())?;
    Ok(out)
}

// Reads a script to its end, and writes what is printed for it.
pub fn converse<C: Conversation, R: Read, W: Write>(
    heap: Global,
    conversation: &mut C,
    input: &mut R,
    output: &mut W,
) -> io::Result<()>
    ensures { OnOk result (IfSome (R.remaining input.old) (λ script. Said C.Conversation.answers C.Conversation.closing conversation.old (lines script) (W.contents output.old) (W.contents output.new))) }
{
    let mut script = Vec::new(heap);
    input.read_to_end(&mut script)?;
    let printed = run(heap, conversation, &script)?;
    output.write_all(&printed)
}
