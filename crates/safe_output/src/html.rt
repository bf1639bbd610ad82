//! A page that is written piece by piece. The tokenizer of the HTML standard finds just the tags
//! in it that were asked for, so no text and no attribute's value becomes markup.
ghost use Rattle.std.specs.Prelude.{◌≡◌, ◌++◌, [], IfOk, OnOk, codes, flat_map, true};
ghost use Rattle.std.specs.{List.list_all};
ghost use Rattle.safe_output.specs.Sanitize.{sanitized};
ghost use Rattle.safe_output.specs.Html.{escaped, is_plain, shown_attribute, tag_bytes};
ghost use Rattle.safe_output.specs.Page.{IsOpen, IsPage, all_closed, are_names, begun, closed, is_css};
ghost use Rattle.safe_output.specs.Page.{is_tag, is_void, names_in, so_far, with_text, with_void};

use crate::report::Line;
use crate::sanitize::push_sanitized;
use crate::write::{
    is_unchanged, push_attribute, push_end, push_open, push_style, push_text, push_title,
};
use std::alloc::Global;
use std::fmt;
use std::marker::Model;

/// A page without its doctype. If an allocation fails, all that was written is lost.
#[derive(Drop)]
pub struct Html {
    bytes: Vec<u8>,
    /// The names of the open elements.
    opened: Vec<&'static str>,
    /// A buffer, kept for its capacity.
    line: String,
}

impl Model for Html {
    ghost use Rattle.std.specs.Prelude.{ℕ, List};
    ghost use Rattle.safe_output.specs.Page.{IsOpen};

    ghost Value = { List ℕ };

    ghost view = { λ html. html.bytes.items };

    ghost invariant = { λ html. IsOpen html.opened.items html.bytes.items };
}

/// Whether the byte is printable ASCII that is written as it is.
fn is_plain(byte: u8) -> bool
    ensures { result ≡ is_plain byte }
{
    matches!(byte, b' '..=b'~') && is_unchanged(byte)
}

fn are_plain(text: &[u8]) -> bool
    ensures { result ≡ list_all is_plain text.now }
{
    text.iter().all(|byte| is_plain(*byte))
}

/// Escapes what is unsafe to display, and then what would be markup.
#[tactic(auto, using(crate::proofs::PageLemmas::plain_shown))]
fn push_shown(bytes: &mut Vec<u8>, line: &mut String, text: &str) -> fmt::Result
    ensures { OnOk result (bytes.new.items ≡ bytes.old.items ++ escaped (sanitized text.now)) }
{
    if are_plain(text.as_bytes()) {
        return Ok(bytes.extend_from_slice(text.as_bytes())?);
    }
    line.clear();
    push_sanitized(line, text.as_bytes())?;
    Ok(push_text(bytes, line.as_bytes())?)
}

/// Escapes in the values what is unsafe to display.
fn push_attributes(
    bytes: &mut Vec<u8>,
    line: &mut String,
    attributes: &[(&'static str, &str)],
) -> fmt::Result
    ensures { OnOk result (bytes.new.items ≡ bytes.old.items ++ flat_map shown_attribute attributes.now) }
{
    for attribute in attributes {
        line.clear();
        push_sanitized(line, attribute.1.as_bytes())?;
        push_attribute(bytes, attribute.0, line.as_str())?;
    }
    Ok(())
}

/// A start tag; `end` is `>`, or `/>` for an element without content.
#[tactic(auto, unfolding(crate::specs::Html::tag_bytes))]
fn push_tag(
    bytes: &mut Vec<u8>,
    line: &mut String,
    name: &str,
    attributes: &[(&'static str, &str)],
    end: &str,
) -> fmt::Result
    ensures { OnOk result (bytes.new.items ≡ bytes.old.items ++ tag_bytes name.now attributes.now end.now) }
{
    push_open(bytes, name)?;
    push_attributes(bytes, line, attributes)?;
    Ok(bytes.extend_from_slice(end.as_bytes())?)
}

/// Empties the page after a failed allocation, and returns the error.
fn lost(bytes: &mut Vec<u8>, opened: &mut Vec<&'static str>) -> fmt::Error
    ensures bytes { bytes.new.items ≡ [] }
    ensures opened { opened.new.items ≡ [] }
{
    bytes.clear();
    opened.clear();
    fmt::Error
}

/// The doctype and the page, in which all open elements are ended.
fn finished(bytes: Vec<u8>, opened: Vec<&'static str>) -> Result<Vec<u8>, fmt::Error>
    requires { IsOpen opened.items bytes.items }
    ensures { IfOk result (λ page. IsPage (all_closed (so_far bytes.items)) page.items) }
{
    let mut content = bytes;
    let mut rest = opened;
    while let Some(name) = rest.pop() {
        push_end(&mut content, name)?;
    }
    let mut page = Vec::new(*content.allocator());
    page.extend_from_slice(b"<!DOCTYPE html>")?;
    page.extend_from_slice(&content)?;
    Ok(page)
}

impl Html {
    #[tactic(auto, using(crate::proofs::PageLemmas::nothing_open))]
    pub fn new(alloc: Global) -> Html
        ensures { result ≡ [] }
    {
        Html {
            bytes: Vec::new(alloc),
            opened: Vec::new(alloc),
            line: String::new(alloc),
        }
    }

    /// Begins an element, which `close` ends.
    #[tactic(auto, using(crate::proofs::PageLemmas::nothing_open))]
    pub fn open(&mut self, name: &'static str, attributes: &[(&'static str, &str)]) -> fmt::Result
        requires name { is_tag name.now ≡ true }
        requires attributes { are_names [] (names_in attributes.now) ≡ true }
        ensures { OnOk result (so_far self.new ≡ begun name.now (names_in attributes.now) (so_far self.old)) }
    {
        let Ok(()) = push_tag(&mut self.bytes, &mut self.line, name, attributes, ">") else {
            return Err(lost(&mut self.bytes, &mut self.opened));
        };
        let Ok(()) = self.opened.push(name) else {
            return Err(lost(&mut self.bytes, &mut self.opened));
        };
        Ok(())
    }

    /// Appends an element without content.
    #[tactic(auto, using(crate::proofs::PageLemmas::nothing_open))]
    pub fn void(&mut self, name: &'static str, attributes: &[(&'static str, &str)]) -> fmt::Result
        requires name { is_void name.now ≡ true }
        requires attributes { are_names [] (names_in attributes.now) ≡ true }
        ensures { OnOk result
            (so_far self.new ≡ with_void name.now (names_in attributes.now) (so_far self.old)) }
    {
        let Ok(()) = push_tag(&mut self.bytes, &mut self.line, name, attributes, "/>") else {
            return Err(lost(&mut self.bytes, &mut self.opened));
        };
        Ok(())
    }

    /// Appends a `title`, which contains a text alone.
    #[tactic(auto, using(crate::proofs::PageLemmas::nothing_open))]
    pub fn title(&mut self, text: &Line) -> fmt::Result
        ensures { OnOk result (so_far self.new ≡ with_text (codes "title") (so_far self.old)) }
    {
        let Ok(()) = push_title(&mut self.bytes, text.as_str()) else {
            return Err(lost(&mut self.bytes, &mut self.opened));
        };
        Ok(())
    }

    /// Appends a `style` element. The CSS is copied unchanged.
    #[tactic(auto, using(crate::proofs::PageLemmas::nothing_open))]
    pub fn style(&mut self, css: &'static str) -> fmt::Result
        requires { is_css css.now ≡ true }
        ensures { OnOk result (so_far self.new ≡ with_text (codes "style") (so_far self.old)) }
    {
        let Ok(()) = push_style(&mut self.bytes, css) else {
            return Err(lost(&mut self.bytes, &mut self.opened));
        };
        Ok(())
    }

    /// The page, in which all elements are ended.
    pub fn finish(self) -> Result<Vec<u8>, fmt::Error>
        ensures { IfOk result (λ page. IsPage (all_closed (so_far self)) page.items) }
    {
        finished(self.bytes, self.opened)
    }

    /// Ends the innermost open element. Without one it writes nothing.
    #[tactic(auto, using(crate::proofs::PageLemmas::nothing_open, crate::proofs::PageLemmas::ended_is, crate::proofs::PageLemmas::none_ended))]
    pub fn close(&mut self) -> fmt::Result
        ensures { OnOk result (so_far self.new ≡ closed (so_far self.old)) }
    {
        let Some(name) = self.opened.pop() else {
            return Ok(());
        };
        let Ok(()) = push_end(&mut self.bytes, name) else {
            return Err(lost(&mut self.bytes, &mut self.opened));
        };
        Ok(())
    }
}

impl fmt::Write for Html {
    ghost write_str_gives = { λ old written new. so_far new ≡ so_far old };

    #[tactic(auto, using(crate::proofs::PageLemmas::nothing_open))]
    fn write_str(&mut self, text: &str) -> fmt::Result {
        let Ok(()) = push_shown(&mut self.bytes, &mut self.line, text) else {
            return Err(lost(&mut self.bytes, &mut self.opened));
        };
        Ok(())
    }
}
