//! The program for any reader and writer.
ghost use Rattle.std.specs.Prelude.{◌≢◌, [], Err, IfErr, IfSome, IsErrOf, OnOk};
ghost use Rattle.std.specs.Io.KnownBytes.{Keeps};
ghost use Rattle.robots_verdict.specs.Report.{AppendsReport, AppendsReportBeginning, IsReport};

use crate::fault::Fault;
use crate::report::report_of;
use safe_output::streams::{read_all, write_out};
use std::alloc::Global;
use std::io::{Read, Write};

/// Reads an input to its end, and then writes its report.
///
/// The contract applies to a reader and a writer whose bytes the specification can observe; it claims nothing
/// about the bytes of standard input and output.
///
/// # Errors
///
/// `Fault::Read` if a read failed or too many would be needed, `Fault::Write` if a write or a flush
/// failed or a write accepted no bytes, and `Fault::Memory` if an allocation failed or a URL is too
/// long for `url`. The other errors are those of the input.
pub fn run<R: Read, W: Write>(alloc: Global, reader: &mut R, writer: &mut W) -> Result<(), Fault>
    ensures ok { OnOk result (IfSome (R.remaining reader.old) (AppendsReport (W.contents writer.old) (W.contents writer.new))) }
    ensures no_empty_line { IsErrOf result Fault.NoEmptyLine
        → IfSome (R.remaining reader.old) (λ input. IsReport input (Err Fault.NoEmptyLine)) }
    ensures header_not_utf8 { IsErrOf result Fault.HeaderNotUtf8
        → IfSome (R.remaining reader.old) (λ input. IsReport input (Err Fault.HeaderNotUtf8)) }
    ensures invalid_rule { IsErrOf result Fault.InvalidRule
        → IfSome (R.remaining reader.old) (λ input. IsReport input (Err Fault.InvalidRule)) }
    ensures memory { IsErrOf result Fault.Memory → IfSome (R.remaining reader.old) (λ input. input ≢ []) }
    ensures nothing_written { IfErr result (λ fault. fault ≢ Fault.Write
        → Keeps (W.contents writer.old) (W.contents writer.new)) }
    ensures beginning { IsErrOf result Fault.Write
        → IfSome (R.remaining reader.old) (AppendsReportBeginning (W.contents writer.old) (W.contents writer.new)) }
{
    let input = read_all(alloc, reader)?;
    let text = report_of(alloc, &input)?;
    Ok(write_out(writer, text.as_bytes())?)
}
