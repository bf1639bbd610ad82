//! A warning, and its message.
ghost use Rattle.std.specs.Prelude.{◌≡◌};

use crate::crawlers::row_at;
use crate::table::Cause;
use std::fmt;
use std::marker::Model;

/// What a message ends with.
#[derive(Clone, Copy)]
pub enum Detail {
    /// How many rules there are.
    Rules(usize),
    /// The line of another rule.
    Line(usize),
    /// The index of a known crawler whose vendor applies the group.
    Group(usize),
    /// The index of a known crawler that may be meant.
    Meant(usize),
    /// How many other crawlers there are.
    Others(usize),
}

#[derive(Drop)]
pub struct Warning<'a> {
    /// The line, if the warning is about one.
    pub line: Option<usize>,
    pub cause: Cause,
    /// The URL or the crawler's name that the message begins with, if it does.
    pub about: Option<&'a str>,
    /// What the message ends with, if it isn't its text.
    pub detail: Option<Detail>,
}

pub(crate) type Found<'a> = Vec<Warning<'a>>;

impl<'a> Model for Warning<'a> {
    ghost use Rattle.robots_warnings.specs.Message.{WarningValue};

    ghost Value = { WarningValue };

    ghost use Rattle.robots_warnings.specs.Internal.Warned.{warning_value};

    ghost view = { warning_value };
}

impl<'a> Warning<'a> {
    /// A struct that has a model and a lifetime can't be `Copy`.
    pub fn copy(&self) -> Warning<'a>
        ensures { result ≡ self.now }
    {
        Warning {
            line: self.line,
            cause: self.cause,
            about: self.about,
            detail: self.detail,
        }
    }

    /// What the warning is about, if it isn't about a line alone.
    pub fn kind(&self) -> &'static str {
        match self.cause {
            Cause::ClosedSite
            | Cause::ClosedSiteToOthers
            | Cause::ClosedInOneReading
            | Cause::ClosedByStandard
            | Cause::ClosedByStandardToOthers
            | Cause::ClosedHomePage
            | Cause::ClosedHomePageToOthers
            | Cause::VendorGroup
            | Cause::StarIgnoringCrawler
            | Cause::WrongName
            | Cause::MisspelledName => "crawler",
            _ => "URL",
        }
    }
}

impl fmt::Display for Detail {
    fn fmt<W: fmt::Write>(&self, f: &mut fmt::Formatter<W>) -> fmt::Result {
        match *self {
            Detail::Rules(1) => f.write_str(" (1 rule)"),
            Detail::Rules(count) => write!(f, " ({count} rules)"),
            Detail::Line(line) => write!(f, " (see line {line})"),
            Detail::Group(number) => {
                let group = row_at(number).1;
                write!(f, " (see the group of {group})")
            }
            Detail::Meant(number) => {
                let name = row_at(number).0;
                write!(f, " (did you mean {name}?)")
            }
            Detail::Others(1) => f.write_str(" (and 1 other crawler)"),
            Detail::Others(count) => write!(f, " (and {count} other crawlers)"),
        }
    }
}

/// The message of the warning.
impl<'a> fmt::Display for Warning<'a> {
    fn fmt<W: fmt::Write>(&self, f: &mut fmt::Formatter<W>) -> fmt::Result {
        if let Some(name) = self.about {
            let kind = self.kind();
            write!(f, "{kind} '{name}': ")?;
        }
        f.write_str(self.cause.text())?;
        match self.detail {
            Some(detail) => write!(f, "{detail}"),
            None => Ok(()),
        }
    }
}
