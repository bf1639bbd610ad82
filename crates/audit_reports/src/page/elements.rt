//! A page that is written piece by piece, and the elements that several of its parts contain.
ghost use Rattle.std.specs.Prelude.{◌≡◌, [], IfOk, true};
ghost use Rattle.safe_output.specs.Page.{are_names, IsSomePage, is_css, is_tag, is_void, names_in};

use safe_output::html::Html;
use safe_output::report::{Line, Untrusted};
use std::alloc::Global;
use std::fmt;
use std::fmt::Write;

/// Once a write has failed, `finish` gives the error, whatever else is written.
#[derive(Drop)]
pub(crate) struct Page {
    pub(crate) html: Html,
    pub(crate) has_failed: bool,
    /// The value of an attribute, or the title; only there to be used again.
    line: Line,
}

/// Writes a text to a page, as `write!` does.
macro_rules! put_text {
    ($page:expr, $($text:tt)*) => {
        $page.has_failed |= write!($page.html, $($text)*).is_err()
    };
}

pub(crate) use put_text;

impl Page {
    pub(crate) fn new(alloc: Global) -> Page {
        Page {
            html: Html::new(alloc),
            has_failed: false,
            line: Line::new(alloc),
        }
    }

    pub(crate) fn finish(self) -> Result<Vec<u8>, fmt::Error>
        ensures { IfOk result (λ page. IsSomePage page.items) }
    {
        if self.has_failed {
            return Err(fmt::Error);
        }
        self.html.finish()
    }

    pub(crate) fn open(&mut self, name: &'static str)
        requires { is_tag name.now ≡ true }
    {
        self.has_failed |= self.html.open(name, &[]).is_err();
    }

    pub(crate) fn open_with(&mut self, name: &'static str, attributes: &[(&'static str, &str)])
        requires name { is_tag name.now ≡ true }
        requires attributes { are_names [] (names_in attributes.now) ≡ true }
    {
        self.has_failed |= self.html.open(name, attributes).is_err();
    }

    pub(crate) fn open_class(&mut self, name: &'static str, class: &str)
        requires { is_tag name.now ≡ true }
    {
        self.open_with(name, &[("class", class)]);
    }

    pub(crate) fn void(&mut self, name: &'static str, attributes: &[(&'static str, &str)])
        requires name { is_void name.now ≡ true }
        requires attributes { are_names [] (names_in attributes.now) ≡ true }
    {
        self.has_failed |= self.html.void(name, attributes).is_err();
    }

    pub(crate) fn style(&mut self, css: &'static str)
        requires { is_css css.now ≡ true }
    {
        self.has_failed |= self.html.style(css).is_err();
    }

    pub(crate) fn close(&mut self) {
        self.has_failed |= self.html.close().is_err();
    }

    pub(crate) fn write_str(&mut self, text: &str) {
        self.has_failed |= self.html.write_str(text).is_err();
    }

    pub(crate) fn title<D: fmt::Display + Drop>(&mut self, title: D) {
        self.line.clear();
        self.has_failed |= write!(self.line, "{title}").is_err();
        self.has_failed |= self.html.title(&self.line).is_err();
    }

    fn set_line(&mut self, front: &str, number: usize) {
        self.line.clear();
        self.has_failed |= write!(self.line, "{front}{number}").is_err();
    }

    /// An element that contains this text alone.
    pub(crate) fn element<D: fmt::Display + Drop>(&mut self, name: &'static str, content: D)
        requires { is_tag name.now ≡ true }
    {
        self.open(name);
        put_text!(self, "{content}");
        self.close();
    }

    /// A pair of a list: what it is about, and this text.
    pub(crate) fn entry<D: fmt::Display + Drop>(&mut self, label: &str, content: D) {
        self.element("dt", label);
        self.element("dd", content);
    }

    /// Bytes of a file, or a URL.
    pub(crate) fn code(&mut self, text: &[u8]) {
        self.open_with("code", &[("dir", "ltr")]);
        let text = Untrusted(text);
        put_text!(self, "{text}");
        self.close();
    }

    pub(crate) fn columns(&mut self, texts: &[&str]) {
        for text in texts {
            self.open_with("th", &[("scope", "col")]);
            self.write_str(text);
            self.close();
        }
    }

    /// The heading of a row or a column, which is bytes of a file or a URL.
    pub(crate) fn code_heading(&mut self, scope: &str, text: &[u8]) {
        self.open_with("th", &[("scope", scope)]);
        self.code(text);
        self.close();
    }

    /// Begins the row of the line.
    pub(crate) fn open_row(&mut self, number: usize, class: &'static str) {
        self.set_line("L", number);
        let attributes = [("id", self.line.as_str()), ("class", class)];
        self.has_failed |= self.html.open("tr", &attributes).is_err();
    }

    /// Leads to the row of the line.
    pub(crate) fn line_link(&mut self, number: usize) {
        self.set_line("#L", number);
        let attributes = [("href", self.line.as_str())];
        self.has_failed |= self.html.open("a", &attributes).is_err();
        put_text!(self, "line {number}");
        self.close();
    }
}
