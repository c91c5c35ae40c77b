//! The texts of `help`, `explain` and `version`.

ghost use Rattle.std.specs.Prelude.{◌≡◌, map, option_map, string_bytes};
ghost use Rattle.qcow2_help.specs.CommandTexts.{version_text};
ghost use Rattle.qcow2_session.specs.Commands.Help.{all_rules, ask_for_help, asks_for_help, first_line_of, help_text, rule_of, takes_any_name, text_alone, text_by_number, text_of};
ghost use Rattle.qcow2_session.specs.Commands.Printing.{PrintsText};
ghost use Rattle.qcow2_session.specs.Commands.Words.{word_number};

use super::words::number;
use crate::lines::print;
use qcow2_base::Fault;
use qcow2_help::{command_help, commands_help, fault_help, version};
use std::io::Write;

/// A text of `help`, `explain` or `version`.
#[derive(Clone, Copy)]
pub enum HelpText<'a> {
    /// This text.
    Whole(&'a str),
    /// The first line of each fault's text: what must hold.
    Rules,
}

impl HelpText<'_> {
    /// Prints the text.
    pub(super) fn print<O: Write>(self, out: &mut O) -> Result<(), Fault>
        ensures { PrintsText result (O.contents out.old) (O.contents out.new) (text_of self.entry) }
    {
        match self {
            HelpText::Whole(text) => print(text.as_bytes(), out),
            HelpText::Rules => print_rules(out),
        }
    }
}

/// Whether the words after a command's name ask for its help.
pub(super) fn ask_for_help(name: &str, arguments: &[String]) -> bool
    ensures { result ≡ ask_for_help name.now (map string_bytes arguments.now) }
{
    match arguments {
        [word] => asks_for_help(name, word.as_str()),
        _ => false,
    }
}

/// Whether a single word after a command's name asks for its help. Some commands take any word for an
/// image's name.
pub(super) fn asks_for_help(name: &str, word: &str) -> bool
    ensures { result ≡ asks_for_help name.now word.now }
{
    let is_help_word = matches!(word, "--help" | "-h");
    is_help_word && !takes_any_name(name)
}

// Whether a command of this name takes any word for an image's name.
fn takes_any_name(name: &str) -> bool
    ensures { result ≡ takes_any_name name.now }
{
    matches!(name, "info" | "list" | "at" | "edit" | "count" | "l2")
}

/// Returns the text that the words after `help` ask for.
pub(super) fn parse_help<'a>(arguments: &[String]) -> Option<HelpText<'a>>
    ensures { option_map text_of result ≡ help_text (map string_bytes arguments.now) }
{
    match arguments {
        [] => Some(HelpText::Whole(commands_help())),
        [name] => command_help(name.as_str()).map(HelpText::Whole),
        _ => None,
    }
}

/// Returns the text on the fault whose number a word gives.
pub(super) fn parse_fault<'a>(word: &str) -> Option<HelpText<'a>>
    ensures { option_map text_of result ≡ text_by_number (word_number word.now) }
{
    let fault = Fault::of_number(number(word)?)?;
    Some(HelpText::Whole(fault_help(&fault)))
}

/// Returns the text that the words after `version` ask for.
pub(super) fn parse_version<'a>(arguments: &[String]) -> Option<HelpText<'a>>
    ensures { option_map text_of result ≡ text_alone version_text (map string_bytes arguments.now) }
{
    match arguments {
        [] => Some(HelpText::Whole(version())),
        _ => None,
    }
}

// Prints the first line of the text on each fault.
fn print_rules<O: Write>(out: &mut O) -> Result<(), Fault>
    ensures { PrintsText result (O.contents out.old) (O.contents out.new) all_rules }
{
    for fault in &Fault::ALL {
        print_rule(fault, out)?;
    }
    Ok(())
}

// Prints the first line of the text on a fault.
fn print_rule<O: Write>(fault: &Fault, out: &mut O) -> Result<(), Fault>
    ensures { PrintsText result (O.contents out.old) (O.contents out.new) (rule_of fault.now) }
{
    let text = fault_help(fault);
    print(first_line(text).as_bytes(), out)?;
    print(b"\n", out)
}

// Returns a text up to its first newline.
fn first_line(text: &str) -> &str
    ensures { result.now ≡ first_line_of text.now }
{
    match text.split_once('\n') {
        Some((line, _)) => line,
        None => text,
    }
}
