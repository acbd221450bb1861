//! What is written of faults and failures.
ghost use Rattle.std.specs.Prelude.{◌≡◌, ◌++◌, decimal};
ghost use Rattle.pps_types.specs.Writing.{FailsWithDevice, SendsTo};
ghost use Rattle.pps_jobs.specs.Wording.{advice_on, advice_on_fault, failure_text, fault_text, line_of, line_of_advice, line_of_text, name_in, pieces_joined, report_of, serving_name, texts_joined};

use crate::fault::{Failure, Fault, ServingFault};
use itoa::Buffer;
use pps_types::{Device, WriteFault};
use std::fmt;
use std::io::Write;

/// A text in its pieces: words, a name, words, a number and words, each of which may be empty.
#[derive(Clone, Copy)]
struct Pieces<'t> {
    head: &'t str,
    name: &'t str,
    middle: &'t str,
    number: &'t str,
    tail: &'t str,
}

impl<'t> Pieces<'t> {
    // Words alone.
    fn words(head: &'t str) -> Pieces<'t>
        ensures { pieces_joined result ≡ head.now }
    {
        Pieces::named(head, "")
    }

    // Words and a name.
    fn named(head: &'t str, name: &'t str) -> Pieces<'t>
        ensures { pieces_joined result ≡ head.now ++ name.now }
    {
        Pieces {
            head,
            name,
            middle: "",
            number: "",
            tail: "",
        }
    }

    // A name, words and a number.
    fn numbered(name: &'t str, middle: &'t str, number: &'t str, tail: &'t str) -> Pieces<'t>
        ensures { pieces_joined result ≡ name.now ++ middle.now ++ number.now ++ tail.now }
    {
        Pieces {
            head: "",
            name,
            middle,
            number,
            tail,
        }
    }

    // The texts of a line of it.
    fn line(self) -> [&'t str; 7]
        ensures { texts_joined result ≡ line_of_text (pieces_joined self.entry) }
    {
        let Pieces {
            head,
            name,
            middle,
            number,
            tail,
        } = self;
        ["pps: ", head, name, middle, number, tail, "\n"]
    }

    // The same, and those of a line of advice.
    fn advised(self, advice: &'t str) -> [&'t str; 9]
        ensures { texts_joined result
            ≡ line_of_text (pieces_joined self.entry) ++ line_of_advice advice.now }
    {
        let Pieces {
            head,
            name,
            middle,
            number,
            tail,
        } = self;
        [
            "pps: ", head, name, middle, number, tail, "\n     ", advice, "\n",
        ]
    }
}

impl ServingFault {
    fn name(self) -> &'static str
        ensures { result.now ≡ serving_name self }
    {
        match self {
            ServingFault::OutOfMemory => "OutOfMemory",
            ServingFault::Mismatch => "Mismatch",
        }
    }
}

impl Fault {
    // Its text, in which the line that it names has this number.
    fn pieces<'t>(self, number: &'t str) -> Pieces<'t>
        requires { number.now ≡ decimal (line_of (Failure.Fault self)) }
        ensures { pieces_joined result ≡ fault_text self }
    {
        match self {
            Fault::BadLine { .. } => Pieces::numbered("", "line ", number, ": bad script line"),
            Fault::BadCommandLine => Pieces::words("bad command line"),
            Fault::CannotReadInput => Pieces::words("cannot read input"),
            Fault::CannotWriteOutput => Pieces::words("cannot write output"),
            Fault::MalformedFrame => Pieces::words("malformed frame"),
            Fault::CutFrame => Pieces::words("the last frame is cut short"),
            Fault::OutOfMemory => Pieces::words("out of memory"),
        }
    }

    // What may help whoever reads of it.
    fn advice(self) -> &'static str
        ensures { result.now ≡ advice_on_fault self }
    {
        match self {
            Fault::BadLine { .. } => "a line is a connection and a command, as: 1 open rwc /gps",
            Fault::BadCommandLine => "pps --help lists the commands and their options",
            Fault::CannotReadInput => "what came whole before that is answered",
            Fault::CannotWriteOutput =>
                "see that whoever reads it goes on, or that its disk has room",
            Fault::MalformedFrame =>
                "a frame is a length of 4 bytes, the highest first, and a request",
            Fault::CutFrame => "its length says that more bytes have to come",
            Fault::OutOfMemory => "the program itself, and not only the service, needed more",
        }
    }
}

impl<'w> Failure<'w> {
    // The line of a script or an image that it names.
    fn line(self) -> u64
        ensures { result ≡ line_of self.entry }
    {
        match self {
            Failure::Fault(Fault::BadLine { line }) => line,
            Failure::BadImage { line } => line,
            Failure::BadLineOf { line, .. } => line,
            _ => 0,
        }
    }

    // The file or the fault that it names.
    fn name(self) -> &'w str
        ensures { result.now ≡ name_in self.entry }
    {
        match self {
            Failure::CannotRead { file } => file,
            Failure::CannotWrite { file } => file,
            Failure::BadLineOf { file, .. } => file,
            Failure::Serve(fault) => fault.name(),
            Failure::Fault(_) | Failure::BadImage { .. } => "",
        }
    }

    // Its text, in which the line that it names has this number.
    fn pieces(self, number: &'w str) -> Pieces<'w>
        requires { number.now ≡ decimal (line_of self) }
        ensures { pieces_joined result ≡ failure_text self.entry }
    {
        let name = self.name();
        match self {
            Failure::Fault(fault) => fault.pieces(number),
            Failure::CannotRead { .. } => Pieces::named("cannot read ", name),
            Failure::CannotWrite { .. } => Pieces::named("cannot write ", name),
            Failure::BadImage { .. } => Pieces::numbered("", "bad image line ", number, ""),
            Failure::BadLineOf { .. } => {
                Pieces::numbered(name, ": line ", number, ": bad script line")
            }
            Failure::Serve(_) => Pieces::named("serve: ", name),
        }
    }

    // What may help whoever reads of it.
    fn advice(self) -> &'static str
        ensures { result.now ≡ advice_on self.entry }
    {
        match self {
            Failure::Fault(fault) => fault.advice(),
            Failure::CannotRead { .. } => "see that the file is there and may be read",
            Failure::CannotWrite { .. } =>
                "see that its folder is there, may be written, and has room",
            Failure::BadImage { .. } => "an image is what --save wrote, unchanged",
            Failure::BadLineOf { .. } => {
                "a line is a connection, which is the place of its file, and a command"
            }
            Failure::Serve(_) => "the sessions were not served to their end",
        }
    }
}

impl fmt::Display for Failure<'_> {
    ghost use Rattle.std.specs.Prelude.{Some};
    ghost use Rattle.pps_jobs.specs.Wording.{failure_text};

    ghost output = { λ failure. Some (failure_text failure) };

    fn fmt<W: fmt::Write>(&self, f: &mut fmt::Formatter<W>) -> fmt::Result {
        let mut digits = Buffer::new();
        let Pieces {
            head,
            name,
            middle,
            number,
            tail,
        } = self.pieces(digits.format(self.line()));
        write!(f, "{head}{name}{middle}{number}{tail}")
    }
}

// Writes texts one after the other.
fn write_texts<E: Write>(errors: &mut Device<E>, texts: &[&str]) -> Result<(), WriteFault>
    ensures bytes { SendsTo E.contents errors.old errors.new (texts_joined texts.now) result }
    ensures fault { FailsWithDevice errors.old errors.new result }
{
    'texts: for text in texts {
        errors.write_all(text.as_bytes())?;
    }
    Ok(())
}

/// Writes what failed in one line, and where advice may help whoever reads it a second line. It needs no memory.
///
/// It is a fault where the writer fails, or takes none of some bytes; a beginning of the lines is written then.
pub fn write_report<E: Write>(
    failure: Failure<'_>,
    advised: bool,
    errors: &mut Device<E>,
) -> Result<(), WriteFault>
    ensures bytes { SendsTo E.contents errors.old errors.new
        (report_of advised failure.entry) result }
    ensures fault { FailsWithDevice errors.old errors.new result }
{
    let mut digits = Buffer::new();
    let pieces = failure.pieces(digits.format(failure.line()));
    if advised {
        write_texts(errors, &pieces.advised(failure.advice()))
    } else {
        write_texts(errors, &pieces.line())
    }
}
