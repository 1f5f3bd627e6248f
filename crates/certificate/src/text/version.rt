// The versions of the text.
ghost use Rattle.std.specs.Prelude.{◌≡◌, ◌||◌};
ghost use Rattle.std.specs.List.{list_any};
ghost use Rattle.certificate.specs.Grammar.{entry_parts, id_parts, is_beyond_version_two, is_large, needs_version_three, outline_of};

use crate::certificate::Certificate;
use mesh_graph::Entry;
use span::names::{Class, MOST_SPANS, SpanId};

/// A serial in a certificate's text of version 1 or 2 is below this. In a text of version 3 it is
/// below [`MOST_SPANS`](span::names::MOST_SPANS), and some serial is not below this, or some class
/// is not of 16, 64 or 256 bytes a slot.
pub const TEXT_SPANS: u32 = 1024;

/// A version of the text, which its first line names.
#[derive(Clone, Copy, PartialEq, Eq, Debug)]
pub(super) enum Version {
    /// Groups have no class: each is of 16 bytes a slot.
    One,
    /// A group's line names its class, of 16, 64 or 256 bytes a slot.
    Two,
    /// As version 2, with serials of any size and classes of any width.
    Three,
}

impl Version {
    ghost use Rattle.certificate.specs.Grammar.{is_wanted, names_class, opening_of, outline_of, spans_in, version_of};

    /// The version in which a certificate is written.
    pub(super) fn of(certificate: &Certificate) -> Version
        ensures { result ≡ version_of (outline_of certificate.now) }
    {
        if needs_version_three(certificate) {
            Version::Three
        } else {
            Version::Two
        }
    }

    /// Whether a text of the version may say this. One of version 3 says what version 2 cannot.
    pub(super) fn is_wanted(self, certificate: &Certificate) -> bool
        ensures { result ≡ is_wanted self (outline_of certificate.now) }
    {
        match self {
            Version::One | Version::Two => true,
            Version::Three => needs_version_three(certificate),
        }
    }

    /// A serial in a text of the version is below this.
    pub(super) fn spans(self) -> u32
        ensures { result ≡ spans_in self }
    {
        match self {
            Version::One | Version::Two => TEXT_SPANS,
            Version::Three => MOST_SPANS,
        }
    }

    /// Whether a text of the version names the class.
    pub(super) fn names(self, class: Class) -> bool
        ensures { result ≡ names_class self class }
    {
        match self {
            Version::One => class.words() == 1,
            Version::Two => matches!(class.words(), 1 | 4 | 16),
            Version::Three => true,
        }
    }

    /// The first line.
    pub(super) fn opening(self) -> &'static str
        ensures { result.now ≡ opening_of self }
    {
        match self {
            Version::One => "meshcert 1",
            Version::Two => "meshcert 2",
            Version::Three => "meshcert 3",
        }
    }
}

/// Whether version 2 has no text for it: it does not name some serial or some class.
fn needs_version_three(certificate: &Certificate) -> bool
    ensures { result ≡ needs_version_three (outline_of certificate.now) }
{
    if has_group_beyond_version_two(certificate.snapshot.abandoned()) {
        return true;
    }
    if has_group_beyond_version_two(certificate.snapshot.owned()) {
        return true;
    }
    if has_large_pair(certificate.plan.pairs()) {
        return true;
    }
    has_large_id(certificate.short.ids())
}

fn has_group_beyond_version_two(groups: &[Entry]) -> bool
    ensures { result ≡ list_any (λ x. is_beyond_version_two (entry_parts x)) groups.now }
{
    groups.iter().any(|group| is_large(group.id) || !Version::Two.names(group.class))
}

fn has_large_pair(pairs: &[(SpanId, SpanId)]) -> bool
    ensures { result ≡ list_any (λ p. is_large (id_parts p.0)
        || is_large (id_parts p.1)) pairs.now }
{
    pairs
        .iter()
        .any(|pair| is_large(pair.0) || is_large(pair.1))
}

fn has_large_id(ids: &[SpanId]) -> bool
    ensures { result ≡ list_any (λ id. is_large (id_parts id)) ids.now }
{
    ids.iter().any(|id| is_large(*id))
}

/// Whether versions 1 and 2 do not name the serial.
fn is_large(id: SpanId) -> bool
    ensures { result ≡ is_large (id_parts id) }
{
    id.serial >= TEXT_SPANS
}
