//! The command `explain` with an image: shows where in it a fault is.

ghost use Rattle.std.specs.Prelude.{◌≡◌, ◌++◌, ℕ, List, IfOk, IfSome, option_map, string_bytes};
ghost use Rattle.qcow2_session.specs.Commands.Help.{text_by_number};
ghost use Rattle.qcow2_session.specs.Commands.Words.{word_number};

use super::words::number;
use qcow2_base::Fault;
use qcow2_explain::fault_lines;
use qcow2_help::fault_help;
use std::rt::Files;

/// A fault, and the image in which to find its place.
#[derive(Clone, Copy)]
pub struct Question<'a> {
    fault: Fault,
    text: &'a str,
    path: &'a str,
}

impl<'a> Question<'a> {
    /// Makes the question from a fault's number and the path of an image.
    pub(super) fn of(word: &str, path: &'a str) -> Option<Question<'a>>
        ensures text { option_map (λ question. question.text.now) result
            ≡ text_by_number (word_number word.now) }
        ensures path { IfSome result (λ question. question.path.now ≡ path.now) }
    {
        let fault = Fault::of_number(number(word)?)?;
        let text = fault_help(&fault);
        Some(Question { fault, text, path })
    }

    /// Returns the text on the fault, and then lines on where in the image it is.
    pub(super) fn answer<R: Files + AllocGlobal>(&self, rt: &R) -> Result<String, Fault>
        ensures { IfOk result (λ answer. (lines : List ℕ)
            × (string_bytes answer ≡ self.now.text.now ++ lines)) }
    {
        let lines = fault_lines(rt, self.fault, self.path)?;
        let mut answer = String::from_str(rt.alloc(), self.text)?;
        answer.push_str(lines.as_str())?;
        Ok(answer)
    }
}
