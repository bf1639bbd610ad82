//! What a run is requested to do.

use safe_output::level::Level;

/// How a report is written.
#[derive(Clone, Copy)]
pub enum Format {
    /// Text, with warnings on standard error.
    Text,
    /// One line of JSON, with the warnings in it.
    Json,
    /// A page, with the lines and the warnings in it.
    Html,
    /// Annotations for a workflow on GitHub.
    Github,
    /// A log of SARIF 2.1.0.
    Sarif,
}

impl Format {
    pub const NAMES: &'static [&'static str] = &["text", "json", "html", "github", "sarif"];

    /// The format with this name, or `Text` if none has it.
    pub fn named(name: &str) -> Format {
        if name == "json" {
            Format::Json
        } else if name == "html" {
            Format::Html
        } else if name == "github" {
            Format::Github
        } else if name == "sarif" {
            Format::Sarif
        } else {
            Format::Text
        }
    }
}

#[derive(Drop)]
pub struct Request<'a> {
    /// `None` for standard input.
    pub file: Option<&'a str>,
    /// Whether the rows are left out of the report.
    pub is_quiet: bool,
    pub format: Format,
    /// The date that a page has.
    pub date: Option<&'a str>,
    /// Whether levels of warnings on standard error are colored.
    pub has_colors: bool,
    /// A warning at this level, or at a more serious one, leads to exit status 3.
    pub strict: Option<Level>,
    /// The crawler, if the report is about a single one.
    pub agent: Option<&'a str>,
    /// Empty for `*` and each crawler that the file names.
    pub agents: Vec<&'a str>,
    /// The URLs or paths to check.
    pub urls: Vec<&'a str>,
    /// Empty for all.
    pub only: Vec<&'a str>,
    pub ignored: Vec<&'a str>,
    pub is_denied_only: bool,
    /// Whether the report ends with the numbers of allowed and denied URLs.
    pub has_totals: bool,
    pub has_needless: bool,
}

impl<'a> Request<'a> {
    pub fn shown_name(&self) -> &'a str {
        match self.file {
            Some(name) => name,
            None => "robots.txt",
        }
    }

    /// What is done with rules for other crawlers in a report on one.
    pub fn for_others(&self) -> &'static str {
        if self.has_needless {
            "are only checked for being needless"
        } else {
            "aren't checked"
        }
    }

    /// Whether the report has rows.
    pub fn has_rows(&self) -> bool {
        !self.is_quiet && self.agent.is_some()
    }
}
