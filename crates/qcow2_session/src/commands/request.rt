//! Requests: parsed command lines.

ghost use Rattle.std.specs.Prelude.{◌≡◌, IfOk, IsErr, map, option_map, string_bytes};
ghost use Rattle.qcow2_session.specs.Commands.Help.{text_by_number, text_of};
ghost use Rattle.qcow2_session.specs.Commands.Request.{IsForCommand, asked_by, command_request, explain_request, for_place, for_text, named_request, or_nothing, request_of};
ghost use Rattle.qcow2_session.specs.Commands.Words.{word_number};

use super::Command;
use super::explain::Question;
use super::help::{HelpText, ask_for_help, parse_fault, parse_help, parse_version};
use qcow2_help::command_help;
use std::alloc::{AllocError, Global};

/// A parsed command line: the words after the program's name.
#[derive(Drop)]
pub enum Request<'a> {
    /// `help`, `version`, `explain` without an image, or a command's name and a word for help.
    Text(HelpText<'a>),
    /// `explain N IMAGE`: the place of a fault in an image.
    Question(Question<'a>),
    /// A command, and the path of its image.
    Command { command: Command, path: &'a str },
    /// Wrong words.
    Nothing,
}

impl<'a> Request<'a> {
    /// Parses a command line. Fails only if it is a command and memory for it runs out.
    pub fn parse(alloc: Global, words: &'a [String]) -> Result<Request<'a>, AllocError>
        ensures parsed { IfOk result (λ request. asked_by request ≡ request_of (map string_bytes words.now)) }
        ensures memory { IsErr result → IsForCommand (request_of (map string_bytes words.now)) }
    {
        let [name, arguments @ ..] = words else {
            return Ok(Request::Nothing);
        };
        if ask_for_help(name.as_str(), arguments) {
            let text = command_help(name.as_str()).map(HelpText::Whole);
            return Ok(Request::for_text(text));
        }
        Request::parse_named(alloc, name.as_str(), arguments)
    }

    // Parses a name and the words after it, which don't ask for a command's help.
    fn parse_named(
        alloc: Global,
        name: &str,
        arguments: &'a [String],
    ) -> Result<Request<'a>, AllocError>
        ensures parsed { IfOk result (λ request. asked_by request
            ≡ named_request name.now (map string_bytes arguments.now)) }
        ensures memory { IsErr result →
            IsForCommand (named_request name.now (map string_bytes arguments.now)) }
    {
        match name {
            "help" | "--help" | "-h" => Ok(Request::for_text(parse_help(arguments))),
            "explain" => Ok(Request::parse_explain(arguments)),
            "version" | "--version" => Ok(Request::for_text(parse_version(arguments))),
            _ => Request::parse_command(alloc, name, arguments),
        }
    }

    // Parses a command's name and the words after it.
    fn parse_command(
        alloc: Global,
        name: &str,
        arguments: &'a [String],
    ) -> Result<Request<'a>, AllocError>
        ensures parsed { IfOk result (λ request. asked_by request
            ≡ command_request name.now (map string_bytes arguments.now)) }
        ensures memory { IsErr result →
            IsForCommand (command_request name.now (map string_bytes arguments.now)) }
    {
        let [image, arguments @ ..] = arguments else {
            return Ok(Request::Nothing);
        };
        let path = image.as_str();
        match Command::parse_named(alloc, name, path, arguments) {
            Some(Ok(command)) => Ok(Request::Command { command, path }),
            Some(Err(error)) => Err(error),
            None => Ok(Request::Nothing),
        }
    }

    // Parses the words after `explain`.
    fn parse_explain(arguments: &'a [String]) -> Request<'a>
        ensures { asked_by result ≡ explain_request (map string_bytes arguments.now) }
    {
        match arguments {
            [] => Request::Text(HelpText::Rules),
            [fault] => Request::for_text(parse_fault(fault.as_str())),
            [fault, image] => Request::for_place(fault.as_str(), image.as_str()),
            _ => Request::Nothing,
        }
    }

    // The request for a text, if there is one.
    fn for_text(text: Option<HelpText<'a>>) -> Request<'a>
        ensures { asked_by result ≡ or_nothing for_text (option_map text_of text.entry) }
    {
        match text {
            Some(text) => Request::Text(text),
            None => Request::Nothing,
        }
    }

    // The request for the place of a fault, given by its number, in the image at a path.
    fn for_place(fault: &str, path: &'a str) -> Request<'a>
        ensures { asked_by result
            ≡ or_nothing (λ text. for_place text path.now) (text_by_number (word_number fault.now)) }
    {
        match Question::of(fault, path) {
            Some(question) => Request::Question(question),
            None => Request::Nothing,
        }
    }
}
