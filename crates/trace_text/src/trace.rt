//! A whole trace.

ghost use Rattle.std.specs.Prelude.{◌≡◌, ◌<◌, [], Some, false, length, slice_get, take};
ghost use Rattle.trace_text.specs.Causes.{IsSound, awaits_mark, binding_of};
ghost use Rattle.trace_text.specs.Earlier.{Knows};
ghost use Rattle.trace_text.specs.Header.{IsWithinLimits};
ghost use Rattle.trace_text.specs.Places.{place_at, places_from};
ghost use Rattle.trace_text.specs.declared.line.Line.{Line};

use super::earlier::Earlier;
use super::header::Header;
use super::line::Binding;
use super::line_list::LineList;
use super::name::Name;

/// A trace: its sizes are within their ranges, and no cause holds of any of its lines or of its
/// end.
#[derive(Drop)]
pub struct Trace {
    /// The sizes that it is run with.
    pub header: Header,
    /// The lines below the header, so that the first is line 6 of the text.
    pub lines: LineList,
    /// What the lines bind, so that a name is found without a walk.
    pub(super) earlier: Earlier,
    ghost within: { IsWithinLimits header },
    ghost sound: { IsSound header lines.items },
    ghost settled: { awaits_mark lines.items ≡ false },
    ghost known: { Knows lines.items earlier },
    ghost placed: { lines.places ≡ places_from [] lines.items },
}

impl Trace {
    /// What the lines bind the name to, at the cost of one look-up.
    pub fn binding(&self, name: &Name) -> Option<Binding>
        ensures { result ≡ binding_of name.now self.now.lines.items }
    {
        self.earlier.binding(name)
    }

    /// The place among all keys that the lines bind, from 0, of the first key of the name whose
    /// keys the line reads or frees; 0 where it reads none. The line is counted from 0, below the
    /// header. The name was looked up as the line was read.
    pub fn place(&self, line: usize) -> usize
        requires { line < length self.now.lines.items }
        ensures { (there : Line) → slice_get self.now.lines.items line ≡ Some there
            → result ≡ place_at (take line self.now.lines.items) there }
    {
        self.lines.place_read(line)
    }
}
