//! Findings as annotations of a workflow on GitHub: one workflow command per line.
ghost use Rattle.std.specs.Prelude.{◌≡◌, ◌++◌, ◌∷◌, [], IfOk, OnOk, string_bytes};
ghost use Rattle.safe_output.specs.Lines.{ended};
ghost use Rattle.audit_reports.specs.Github.{command, command_label, command_of, escaped, escaped_byte};
ghost use Rattle.audit_reports.specs.Github.{github_text, line_property, property_text};

use audit_core::findings::Finding;
use itoa::Buffer;
use safe_output::level::Level;
use safe_output::sanitize::push_sanitized;
use std::alloc::{AllocError, Global};

fn push_escaped_byte(out: &mut Vec<u8>, is_property: bool, byte: u8) -> Result<(), AllocError>
    ensures { OnOk result (out.new.items ≡ out.old.items ++ escaped_byte is_property byte) }
{
    match byte {
        b'%' => out.extend_from_slice(b"%25"),
        b'\r' => out.extend_from_slice(b"%0D"),
        b'\n' => out.extend_from_slice(b"%0A"),
        b':' if is_property => out.extend_from_slice(b"%3A"),
        b',' if is_property => out.extend_from_slice(b"%2C"),
        _ => Ok(out.push(byte)?),
    }
}

fn push_escaped(out: &mut Vec<u8>, is_property: bool, text: &[u8]) -> Result<(), AllocError>
    ensures { OnOk result (out.new.items ≡ out.old.items ++ escaped is_property text.now) }
{
    for byte in text {
        push_escaped_byte(out, is_property, *byte)?;
    }
    Ok(())
}

fn push_property(out: &mut Vec<u8>, label: &[u8], value: &[u8]) -> Result<(), AllocError>
    ensures { OnOk result (out.new.items ≡ out.old.items ++ (label.now ++ property_text value.now)) }
{
    out.extend_from_slice(label)?;
    push_escaped(out, true, value)
}

fn command_label(level: Level) -> &'static [u8]
    ensures { result.now ≡ command_label level }
{
    match level {
        Level::Error => b"::error file=",
        Level::Warning => b"::warning file=",
        Level::Note => b"::notice file=",
    }
}

fn push_line_property(out: &mut Vec<u8>, line: Option<usize>) -> Result<(), AllocError>
    ensures { OnOk result (out.new.items ≡ out.old.items ++ line_property line) }
{
    match line {
        Some(line) => push_property(out, b",line=", Buffer::new().format(line).as_bytes()),
        None => Ok(()),
    }
}

/// `file` is the sanitized name of the file.
fn command_of(alloc: Global, file: &str, finding: &Finding) -> Result<Vec<u8>, AllocError>
    ensures { IfOk result (λ command. command.items ≡ command_of file.now finding.now) }
{
    let mut command = Vec::new(alloc);
    push_property(&mut command, command_label(finding.level), file.as_bytes())?;
    push_line_property(&mut command, finding.line)?;
    push_property(&mut command, b",title=", finding.name.as_bytes())?;
    command.extend_from_slice(b"::")?;
    push_escaped(&mut command, false, finding.message.as_bytes())?;
    Ok(command)
}

fn push_command(
    alloc: Global,
    out: &mut String,
    file: &str,
    finding: &Finding,
) -> Result<(), AllocError>
    ensures { OnOk result (string_bytes out.new
        ≡ string_bytes out.old ++ ended (command file.now finding.now ∷ [])) }
{
    let command = command_of(alloc, file, finding)?;
    push_sanitized(out, &command)?;
    out.push('\n')
}

/// One line for each finding in the file with this name.
pub fn github_text(alloc: Global, file: &str, findings: &[Finding]) -> Result<String, AllocError>
    ensures { IfOk result (λ text. string_bytes text ≡ github_text file.now findings.now) }
{
    let (mut name, mut out) = (String::new(alloc), String::new(alloc));
    push_sanitized(&mut name, file.as_bytes())?;
    for finding in findings {
        push_command(alloc, &mut out, &name, finding)?;
    }
    Ok(out)
}
