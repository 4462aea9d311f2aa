//! The lines that answer a file of calls.
ghost use Rattle.std.specs.Prelude.{◌≡◌, ◌<◌, ◌≤◌, ◌++◌, length, IfOk, None, Ok, string_bytes, MatchOption, OnOk};
ghost use Rattle.session.specs.Memory.{limited};
ghost use Rattle.answer.specs.Transcript.{lines_on, told_in, transcript as transcript_of};

use book::words_asked;
use session::{call, open};
use std::alloc::{AllocError, Global};
use text::{Line, write_line};
use wire::{Answer, Calls, Garbled, Head, read_call, read_head};

/// The memory that is lent is for so many rules.
const RULES: u32 = 16;

/// A line for each call of what follows the head.
#[tactic(auto, unfolding(crate::specs::Transcript::lines, session::specs::Memory::told_words))]
fn answer_calls(words: &mut [u64], calls: &[u8], out: &mut String) -> Result<(), AllocError>
    ensures { OnOk result (string_bytes out.new ≡ string_bytes out.old ++ lines_on words.old calls.now) }
{
    for bytes in Calls::new(calls) {
        let answer = call(words, bytes);
        let asked = read_call(bytes);
        write_line(out, &Line { asked, answer })?;
    }
    Ok(())
}

/// A refusal at opening is the only line. An opening is no call, so what was asked is shown as bytes that are none.
fn answer_all(
    words: &mut [u64],
    head: Head,
    calls: &[u8],
    out: &mut String,
) -> Result<(), AllocError>
    ensures { OnOk result (string_bytes out.new ≡ string_bytes out.old ++ told_in words.old (limited head.rules head.bound) calls.now) }
{
    match open(words, head.rules, head.bound) {
        Ok(()) => answer_calls(words, calls, out),
        Err(refusal) => {
            let asked = Err(Garbled { place: 0 });
            let answer = Answer::Refused(refusal);
            write_line(out, &Line { asked, answer })
        }
    }
}

/// All lines that answer a file, or none where it ends inside its head. Memory is lent for 16 rules, so that a larger
/// limit is refused at opening.
#[tactic(auto, using(std::proofs::lemmas::Result::err_from_is_err_and))]
pub fn answer_file(heap: Global, file: &[u8]) -> Result<Option<String>, AllocError>
    ensures short { length file.now < 8 → result ≡ Ok None }
    ensures text { IfOk result (λ o. MatchOption o (length file.now < 8) (λ text. (8 ≤ length file.now) × (string_bytes text ≡ transcript_of file.now))) }
{
    let Some(head) = read_head(file) else {
        return Ok(None);
    };
    let mut words = vec![in heap; 0u64; words_asked(RULES)]?;
    let mut out = String::new(heap);
    answer_all(&mut words, head, &file[8..], &mut out)?;
    Ok(Some(out))
}
