//! Writes HTML piece by piece, so that a page of any length needs no tree in memory.
ghost use Rattle.std.specs.Prelude.{◌≡◌, ◌++◌, OnOk, codes};
ghost use Rattle.std.specs.{List.list_all};
ghost use Rattle.safe_output.specs.Html.{attribute_bytes, end_bytes, escaped, escaped_byte, is_unchanged};
ghost use Rattle.safe_output.specs.Html.{style_bytes, title_bytes};

use std::alloc::AllocError;

fn push_byte(out: &mut Vec<u8>, byte: u8) -> Result<(), AllocError>
    ensures { OnOk result (out.new.items ≡ out.old.items ++ escaped_byte byte) }
{
    match byte {
        b'&' => out.extend_from_slice(b"&amp;"),
        b'<' => out.extend_from_slice(b"&lt;"),
        b'>' => out.extend_from_slice(b"&gt;"),
        b'"' => out.extend_from_slice(b"&quot;"),
        b'[' => out.extend_from_slice(b"&lsqb;"),
        _ => Ok(out.push(byte)?),
    }
}

pub(crate) fn is_unchanged(byte: u8) -> bool
    ensures { result ≡ is_unchanged byte }
{
    !matches!(byte, b'&' | b'<' | b'>' | b'"' | b'[')
}

fn are_unchanged(text: &[u8]) -> bool
    ensures { result ≡ list_all is_unchanged text.now }
{
    text.iter().all(|byte| is_unchanged(*byte))
}

/// Appends the escaped text.
#[tactic(auto, using(crate::proofs::PageLemmas::unchanged_same))]
pub fn push_text(out: &mut Vec<u8>, text: &[u8]) -> Result<(), AllocError>
    ensures { OnOk result (out.new.items ≡ out.old.items ++ escaped text.now) }
{
    if are_unchanged(text) {
        return out.extend_from_slice(text);
    }
    for byte in text {
        push_byte(out, *byte)?;
    }
    Ok(())
}

/// The start of a tag, without the `>` that `push_close` appends.
pub fn push_open(out: &mut Vec<u8>, name: &str) -> Result<(), AllocError>
    ensures { OnOk result (out.new.items ≡ out.old.items ++ (codes "<" ++ name.now)) }
{
    out.push(b'<')?;
    out.extend_from_slice(name.as_bytes())
}

/// A space and the attribute, whose value is escaped.
#[tactic(auto, unfolding(crate::specs::Html::attribute_bytes))]
pub fn push_attribute(out: &mut Vec<u8>, name: &str, value: &str) -> Result<(), AllocError>
    ensures { OnOk result (out.new.items ≡ out.old.items ++ attribute_bytes name.now value.now) }
{
    out.push(b' ')?;
    out.extend_from_slice(name.as_bytes())?;
    out.push(b'=')?;
    out.push(b'"')?;
    push_text(out, value.as_bytes())?;
    Ok(out.push(b'"')?)
}

pub fn push_close(out: &mut Vec<u8>) -> Result<(), AllocError>
    ensures { OnOk result (out.new.items ≡ out.old.items ++ codes ">") }
{
    Ok(out.push(b'>')?)
}

#[inline(always)]
#[tactic(auto, unfolding(crate::specs::Html::end_bytes))]
pub fn push_end(out: &mut Vec<u8>, name: &str) -> Result<(), AllocError>
    ensures { OnOk result (out.new.items ≡ out.old.items ++ end_bytes name.now) }
{
    out.push(b'<')?;
    out.push(b'/')?;
    out.extend_from_slice(name.as_bytes())?;
    push_close(out)
}

/// A `title` element. The text is escaped.
#[tactic(auto, unfolding(crate::specs::Html::title_bytes))]
pub fn push_title(out: &mut Vec<u8>, text: &str) -> Result<(), AllocError>
    ensures { OnOk result (out.new.items ≡ out.old.items ++ title_bytes text.now) }
{
    out.extend_from_slice(b"<title>")?;
    push_text(out, text.as_bytes())?;
    out.extend_from_slice(b"</title>")
}

/// A `style` element. The CSS is copied unchanged.
#[tactic(auto, unfolding(crate::specs::Html::style_bytes))]
pub fn push_style(out: &mut Vec<u8>, css: &str) -> Result<(), AllocError>
    ensures { OnOk result (out.new.items ≡ out.old.items ++ style_bytes css.now) }
{
    out.extend_from_slice(b"<style>")?;
    out.extend_from_slice(css.as_bytes())?;
    out.extend_from_slice(b"</style>")
}
