//! The lines of answers and of refused tries.

ghost use Rattle.std.specs.Prelude.{◌≡◌, ◌<◌, ◌^◌, [], ◌∷◌, ◌++◌, length, map, OnOk, decimal, codes};
ghost use Rattle.std.specs.List.{flat_map, All};
ghost use Rattle.heap_script.specs.Text.{line_text};
ghost use Rattle.heap_report.specs.Answers.{answer_words, answers_text, all_answers_text, again_text};

use crate::words::{
    push_count, push_differs, push_spaced_number, push_spaced_object, push_spaced_value, push_word,
};
use heap_script::{Again, Answer};
use std::alloc::AllocError;

fn push_answer_words(out: &mut Vec<u8>, answer: Answer) -> Result<(), AllocError>
    ensures { OnOk result (out.new.items ≡ out.old.items ++ flat_map (λ v. 32 ∷ v) (answer_words answer)) }
{
    match answer {
        Answer::Made(birth) => push_spaced_object(out, birth),
        Answer::Full => push_word(out, b"full"),
        Answer::Got(value) => push_spaced_value(out, value),
        Answer::Ok => push_word(out, b"ok"),
        Answer::Done => push_word(out, b"done"),
        Answer::Differs(value) => push_differs(out, value),
        Answer::NotLink => push_word(out, b"nolink"),
        Answer::NoField(len) => {
            push_word(out, b"nofield")?;
            push_spaced_number(out, len)
        }
    }
}

fn push_answer(out: &mut Vec<u8>, thread: u32, k: u32, answer: Answer) -> Result<(), AllocError>
    ensures { OnOk result (out.new.items ≡ out.old.items ++ line_text (codes "answer" ∷ decimal thread ∷ decimal k ∷ answer_words answer)) }
{
    out.extend_from_slice(b"answer")?;
    push_spaced_number(out, thread)?;
    push_spaced_number(out, k)?;
    push_answer_words(out, answer)?;
    out.push(b'\n')?;
    Ok(())
}

/// The answers to a thread's commands, counted from 1.
fn push_answers(out: &mut Vec<u8>, thread: u32, answers: &[Answer]) -> Result<(), AllocError>
    requires { length answers.now < 2 ^ 31 }
    ensures { OnOk result (out.new.items ≡ out.old.items ++ answers_text thread 1 answers.now) }
{
    let mut k = 1u32;
    for answer in answers {
        push_answer(out, thread, k, *answer)?;
        k += 1;
    }
    Ok(())
}

/// The answers of all threads, thread 1's first.
pub fn push_all_answers(out: &mut Vec<u8>, lists: &[Vec<Answer>]) -> Result<(), AllocError>
    requires threads { length lists.now < 2 ^ 31 }
    requires answers { All (λ list. length list < 2 ^ 31) (map (λ list. list.items) lists.now) }
    ensures { OnOk result (out.new.items ≡ out.old.items ++ all_answers_text 1 (map (λ list. list.items) lists.now)) }
{
    let mut thread = 1u32;
    for answers in lists {
        push_answers(out, thread, answers)?;
        thread += 1;
    }
    Ok(())
}

/// A command has a line where a try of it was refused.
pub fn push_again(out: &mut Vec<u8>, again: &Again) -> Result<(), AllocError>
    ensures { OnOk result (out.new.items ≡ out.old.items ++ again_text again.now) }
{
    if again.raced == 0 && again.busy == 0 {
        return Ok(());
    }
    out.extend_from_slice(b"again")?;
    push_spaced_number(out, again.thread)?;
    push_spaced_number(out, again.number)?;
    push_count(out, b"raced", again.raced)?;
    push_count(out, b"busy", again.busy)?;
    out.push(b'\n')?;
    Ok(())
}
