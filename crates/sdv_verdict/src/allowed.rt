//! Which findings count.

ghost use Rattle.std.specs.List.{list_any};
ghost use Rattle.std.specs.Prelude.{◌≡◌, map};
ghost use Rattle.std.specs.Str.{bytes_eq};
ghost use Rattle.sdv_verdict.specs.Allowed.{allowed_there, allows, are_quiet, before, ends_in, is_allowed, is_clear, is_note_allowed, is_quiet, is_warning};

use crate::judging::Verdict;
use sdv_explain::text_line;
use sdv_graph::Graph;
use sdv_review::{Finding, Matter, kind_word};

/// A script's text, and the kinds of findings that are allowed in all of it.
#[derive(Clone, Copy)]
pub struct Allowed<'t> {
    /// The text, of which a line may end in a comment such as `# allow: write`.
    pub text: &'t str,
    /// The words of kinds.
    pub kinds: &'t [&'t str],
}

/// A finding of this is a warning; any other one is a note.
pub fn is_warning(matter: Matter) -> bool
    ensures { result ≡ is_warning matter }
{
    match matter {
        Matter::Partition(_, _) | Matter::BootEnable | Matter::Misplaced(_) | Matter::Unstored(_) =>
            true,
        Matter::Unreached | Matter::OneWay(_) | Matter::Unread(_) | Matter::Shifted => false,
    }
}

/// The line ends so.
fn ends_in(tail: &[u8], line: &[u8]) -> bool
    ensures { result ≡ ends_in tail.now line.now }
{
    let end = &line[line.len().saturating_sub(tail.len())..];
    end == tail
}

/// What stands before such an end.
fn before<'l>(tail: &[u8], line: &'l [u8]) -> &'l [u8]
    ensures { result.now ≡ before tail.now line.now }
{
    &line[..line.len().saturating_sub(tail.len())]
}

/// A comment at the end of the line allows the kind.
fn allows(kind: &str, line: &[u8]) -> bool
    ensures { result ≡ allows kind.now line.now }
{
    ends_in(kind.as_bytes(), line) && ends_in(b"# allow: ", before(kind.as_bytes(), line))
}

impl Allowed<'_> {
    /// A comment on the line of the statement allows the kind.
    fn allows_there(self, kind: &str, graph: &Graph<'_>, point: Option<usize>) -> bool
        ensures { result ≡ allowed_there self.entry.text.now kind.now graph.now point }
    {
        let Some(point) = point else {
            return false;
        };
        match graph.lines().get(point) {
            Some(line) => allows(kind, text_line(self.text.as_bytes(), *line)),
            None => false,
        }
    }

    /// The finding is allowed.
    pub fn allows(self, graph: &Graph<'_>, finding: &Finding) -> bool
        ensures { result ≡ is_allowed self.entry.text.now (map (λ kind. kind.now) self.entry.kinds.now) graph.now finding.now }
    {
        let word = kind_word(finding.matter);
        self.names(word) || self.allows_there(word, graph, finding.point)
    }

    /// A note of a kind at the statement of a point is allowed.
    pub fn allows_note(self, kind: &str, graph: &Graph<'_>, point: usize) -> bool
        ensures { result ≡ is_note_allowed self.entry.text.now (map (λ kind. kind.now) self.entry.kinds.now) kind.now graph.now point }
    {
        self.names(kind) || self.allows_there(kind, graph, Some(point))
    }

    /// The kind is among those that are allowed in all of the script.
    fn names(self, word: &str) -> bool
        ensures { result ≡ list_any (λ kind. bytes_eq kind word.now) (map (λ kind. kind.now) self.entry.kinds.now) }
    {
        for kind in self.kinds {
            if *kind == word {
                return true;
            }
        }
        false
    }

    /// The finding is a note, or allowed.
    fn is_quiet(self, graph: &Graph<'_>, finding: &Finding) -> bool
        ensures { result ≡ is_quiet self.entry.text.now (map (λ kind. kind.now) self.entry.kinds.now) graph.now finding.now }
    {
        !is_warning(finding.matter) || self.allows(graph, finding)
    }

    /// Each of the findings is.
    fn are_quiet(self, graph: &Graph<'_>, found: &[Finding]) -> bool
        ensures { result ≡ are_quiet self.entry.text.now (map (λ kind. kind.now) self.entry.kinds.now) graph.now found.now }
    {
        for finding in found {
            if !self.is_quiet(graph, finding) {
                return false;
            }
        }
        true
    }

    /// The script is accepted, and nothing of its review counts.
    pub fn is_clear(self, graph: &Graph<'_>, verdict: &Verdict) -> bool
        ensures { result ≡ is_clear self.entry.text.now (map (λ kind. kind.now) self.entry.kinds.now) graph.now verdict.now }
    {
        match verdict {
            Verdict::Accepted { found, writes, .. } => {
                self.are_quiet(graph, found) && self.are_quiet(graph, writes)
            }
            Verdict::TooMany | Verdict::Refused { .. } => false,
        }
    }
}
