//! The lines that are printed.
ghost use Rattle.std.specs.Prelude.{◌≡◌, ◌++◌, string_bytes, IfOk, Ok, Err};
ghost use Rattle.std.specs.List.{flat_map};
ghost use Rattle.desk_core.specs.declared.event.CoreStop.TheVariants.{Refused};
ghost use Rattle.schedule_run.specs.Printed.{asked_line, bad_line, entered_line, known_line, line_of, looked_line, named_line, refused_line, said_line, spaced, unknown_line, wrote_line};

use crate::scripted::Scripted;
use cm_base::exception::Exception;
use cm_base::text::Text;
use desk_core::Done;
use desk_model::Machine;
use std::alloc::{AllocError, Global};

fn push_name(text: &mut String, name: &Text) -> Result<(), AllocError>
    ensures { IfOk result (λ _. string_bytes text.new ≡ string_bytes text.old ++ spaced name.now) }
{
    text.push_str(" ")?;
    text.push_str(name.as_str())
}

fn spaced_names(alloc: Global, names: &[Text]) -> Result<String, AllocError>
    ensures { IfOk result (λ s. string_bytes s ≡ flat_map spaced names.now) }
{
    let mut text = String::new(alloc);
    for name in names {
        push_name(&mut text, name)?;
    }
    Ok(text)
}

// The line of a session that begins.
fn entered_line(alloc: Global, session: u32, number: u64) -> Result<String, AllocError>
    ensures { IfOk result (λ s. string_bytes s ≡ entered_line session number) }
{
    format!(in alloc; "{session} open at {number}\n")
}

// The line of an accepted write.
fn wrote_line(alloc: Global, session: u32, number: u64) -> Result<String, AllocError>
    ensures { IfOk result (λ s. string_bytes s ≡ wrote_line session number) }
{
    format!(in alloc; "{session} step {number}\n")
}

// The line of a look.
fn looked_line(alloc: Global, session: u32, number: u64) -> Result<String, AllocError>
    ensures { IfOk result (λ s. string_bytes s ≡ looked_line session number) }
{
    format!(in alloc; "{session} look {number}\n")
}

// The line of a question, with these names.
fn asked_line(alloc: Global, session: u32, number: u64, names: &str) -> Result<String, AllocError>
    ensures { IfOk result (λ s. string_bytes s ≡ asked_line session number names.now) }
{
    format!(in alloc; "{session} ask {number}:{names}\n")
}

fn said_line(alloc: Global, session: u32, number: u64, names: &[Text]) -> Result<String, AllocError>
    ensures { IfOk result (λ s. string_bytes s ≡ said_line session number names.now) }
{
    let names = spaced_names(alloc, names)?;
    asked_line(alloc, session, number, names.as_str())
}

// The line of a question that was answered so.
fn shown_line<P: Scripted>(
    alloc: Global,
    session: u32,
    number: u64,
    shown: &<P::Kind as Machine>::Shown,
) -> Result<String, AllocError>
    ensures { IfOk result (λ s. string_bytes s ≡ said_line session number ((P.asks).names shown.now)) }
{
    let names = P::names(alloc, shown)?;
    said_line(alloc, session, number, names.as_slice())
}

/// The line of a step that did something.
pub(crate) fn done_line<P: Scripted>(
    alloc: Global,
    session: u32,
    done: &Done<<P::Kind as Machine>::Shown>,
) -> Result<String, AllocError>
    ensures { IfOk result (λ s. string_bytes s ≡ line_of P.asks session (Ok done.now)) }
{
    match done {
        Done::Entered(number) => entered_line(alloc, session, *number),
        Done::Wrote(_, number) => wrote_line(alloc, session, *number),
        Done::Looked(number) => looked_line(alloc, session, *number),
        Done::Said(shown, number) => shown_line::<P>(alloc, session, *number, shown),
    }
}

/// The line of a session that has not begun.
pub(crate) fn unknown_line(alloc: Global, session: u32) -> Result<String, AllocError>
    ensures { IfOk result (λ s. string_bytes s ≡ unknown_line session) }
{
    format!(in alloc; "{session} unknown\n")
}

/// The line of a session that begins a second time.
pub(crate) fn known_line(alloc: Global, session: u32) -> Result<String, AllocError>
    ensures { IfOk result (λ s. string_bytes s ≡ known_line session) }
{
    format!(in alloc; "{session} is open\n")
}

// The line of a refusal with this name.
fn named_line(alloc: Global, session: u32, name: &str, number: u64) -> Result<String, AllocError>
    ensures { IfOk result (λ s. string_bytes s ≡ named_line session name.now number) }
{
    format!(in alloc; "{session} refused {name} at {number}\n")
}

fn exception_line(
    alloc: Global,
    session: u32,
    exception: Exception,
    number: u64,
) -> Result<String, AllocError>
    ensures { IfOk result (λ s. string_bytes s ≡ refused_line session exception number) }
{
    named_line(alloc, session, exception.name(), number)
}

/// The line of a step that is refused.
pub(crate) fn refused_line<P: Scripted>(
    alloc: Global,
    session: u32,
    cause: &<P::Kind as Machine>::Cause,
    number: u64,
) -> Result<String, AllocError>
    ensures { IfOk result (λ s. string_bytes s ≡ line_of P.asks session (Err (Refused cause.now number))) }
{
    exception_line(alloc, session, P::exception(cause), number)
}

/// The line of a line of the script that is not valid.
pub(crate) fn bad_line(alloc: Global, number: u64) -> Result<String, AllocError>
    ensures { IfOk result (λ s. string_bytes s ≡ bad_line number) }
{
    format!(in alloc; "line {number} is not valid\n")
}
