//! One line of a script, served.
ghost use Rattle.std.specs.Prelude.{◌≡◌, ◌++◌, IfErr, OnOk};
ghost use Rattle.script_text.specs.Script.{shown_for, printed};
ghost use Rattle.pps_script.specs.Lines.{ServesBytes, FailsBytes};

use pps_engine::Engine;
use pps_types::{Event, Outcome, Refusal, Request};
use script_text::{LineFault, print_answer, print_shown, read_command, says_nothing};
use std::alloc::{AllocError, Global};

// Pushes what is shown of the values in an answer.
fn push_shown(
    alloc: Global,
    out: &mut Vec<u8>,
    request: &Request,
    answer: &Result<Outcome, Refusal>,
) -> Result<(), AllocError>
    ensures { OnOk result (out.new.items ≡ out.old.items ++ shown_for request.now answer.now) }
{
    let Request::Read { .. } = request else {
        return Ok(());
    };
    let Ok(Outcome::Data(bytes)) = answer else {
        return Ok(());
    };
    let shown = print_shown(alloc, bytes.as_slice())?;
    out.extend_from_slice(shown.as_slice())
}

// Prints what is printed for an event that is answered so.
#[inline(always)]
fn print_served(
    alloc: Global,
    out: &mut Vec<u8>,
    show: bool,
    event: &Event,
    answer: &Result<Outcome, Refusal>,
) -> Result<(), AllocError>
    ensures { OnOk result (out.new.items ≡ out.old.items ++ printed show event.now answer.now) }
{
    print_answer(out, event.conn, answer)?;
    if show {
        push_shown(alloc, out, &event.request, answer)?;
    }
    Ok(())
}

/// Serves a line of a script, without its line feed. The text is then what is to be printed for it, in place of what it
/// was.
#[inline(always)]
pub(crate) fn serve_line(
    alloc: Global,
    engine: &mut Engine,
    show: bool,
    line: &[u8],
    text: &mut Vec<u8>,
) -> Result<(), LineFault>
    ensures served { OnOk result (ServesBytes show engine.old engine.new line.now text.new.items) }
    ensures fault { IfErr result (λ fault. FailsBytes engine.old engine.new line.now fault) }
{
    text.clear();
    if says_nothing(line) {
        return Ok(());
    }
    match &read_command(alloc, line) {
        Err(fault) => Err(*fault),
        Ok(event) => {
            print_served(alloc, text, show, event, &engine.step(event))?;
            Ok(())
        }
    }
}
