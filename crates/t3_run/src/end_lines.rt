//! What is shown of how a run stopped.
ghost use Rattle.std.specs.Prelude.{◌≡◌, IfOk, string_bytes};
ghost use Rattle.t3_run.specs.EndLines.{end_line as end_line_of, unhandled_line, bad_code_line, cause_name as name_of_cause, thrown_number as number_of_thrown};
ghost use Rattle.t3_run.specs.declared.stop.Stop.TheVariants.{Ends};

use crate::stop::Stop;
use std::alloc::{AllocError, Global};
use t3_frame_instructions::CodeWhy;
use t3_interp::End;
use t3_ops::Fault;

/// How a run stopped: nothing where it returned, and else a line.
pub(crate) fn end_line(alloc: Global, stop: Stop) -> Result<String, AllocError>
    ensures { IfOk result (λ text. string_bytes text ≡ end_line_of stop) }
{
    match stop {
        Stop::Ends(end) => ended(alloc, end),
        Stop::NoStep => format!(in alloc; "[step limit]\n"),
        Stop::NoLine => format!(in alloc; "[input limit]\n"),
    }
}

fn ended(alloc: Global, end: End) -> Result<String, AllocError>
    ensures { IfOk result (λ text. string_bytes text ≡ end_line_of (Ends end)) }
{
    match end {
        End::Returned => Ok(String::new(alloc)),
        End::Unhandled { object, fault } => unhandled(alloc, object, thrown_number(fault)),
        End::BadCode { at, why } => bad_code(alloc, at, cause_name(why)),
        End::StoreFull => format!(in alloc; "[store full]\n"),
    }
}

/// The number of the fault by which an object was thrown, and 0 for one that an instruction threw.
fn thrown_number(fault: Option<Fault>) -> u16
    ensures { result ≡ number_of_thrown fault }
{
    match fault {
        Some(fault) => fault.number(),
        None => 0,
    }
}

fn unhandled(alloc: Global, object: u32, fault: u16) -> Result<String, AllocError>
    ensures { IfOk result (λ text. string_bytes text ≡ unhandled_line object fault) }
{
    format!(in alloc; "[unhandled object={object} fault={fault}]\n")
}

fn bad_code(alloc: Global, at: u32, why: &str) -> Result<String, AllocError>
    ensures { IfOk result (λ text. string_bytes text ≡ bad_code_line at why.now) }
{
    format!(in alloc; "[bad code at={at} why={why}]\n")
}

fn cause_name(why: CodeWhy) -> &'static str
    ensures { result.now ≡ name_of_cause why }
{
    match why {
        CodeWhy::NoByte => "NoByte",
        CodeWhy::Opcode(_) => "Opcode",
        CodeWhy::Operand => "Operand",
        CodeWhy::Header => "Header",
        CodeWhy::Table => "Table",
        CodeWhy::Underflow => "Underflow",
        CodeWhy::Local => "Local",
        CodeWhy::Argument => "Argument",
    }
}
