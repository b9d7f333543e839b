ghost use Rattle.std.specs.Prelude.{◌≡◌, ◌↔◌, ℕ, ◌<◌, ◌≤◌, IsTrue, IsSome, IfSome, min};
ghost use Rattle.grid_range.specs.Band.{Within, HasLine, first_line, end_line, cut_band, has_one_line, IsNonEmpty, ShareLine};

/// A set of lines on one axis of a sheet: one dimension of a `GridRange` of the Google Sheets API
/// v4, where an index that isn't given is unbounded.
#[derive(Clone, Copy, Debug, PartialEq, Eq)]
pub enum Band {
    /// All lines.
    Whole,
    /// A line and all behind it.
    From(u32),
    /// The lines from the first number to the one before the second.
    Span(u32, u32),
}

impl Band {
    /// Whether a sheet with `count` lines on this axis has the band's first and last line.
    pub fn within(&self, count: u32) -> bool
        ensures { IsTrue result ↔ Within self.now count }
    {
        match *self {
            Band::Whole => true,
            Band::From(start) => start < count,
            Band::Span(start, end) => start < end && end <= count,
        }
    }

    /// The band's first line, and the line past its last, on a sheet with `count` lines.
    pub fn ends(&self, count: u32) -> (u32, u32)
        requires { Within self.now count }
        ensures first { result.0 ≡ first_line self.now }
        ensures end { result.1 ≡ end_line self.now count }
        ensures lines { (line : ℕ) → line < count
            → ((result.0 ≤ line) × (line < result.1)) ↔ HasLine self.now line }
    {
        (self.first_line(), self.end_line(count))
    }

    /// The band's first line.
    pub fn first_line(self) -> u32
        ensures { result ≡ first_line self }
    {
        match self {
            Band::Whole => 0,
            Band::From(start) | Band::Span(start, _) => start,
        }
    }

    /// The line past the band's last one; that of an open band is `count`, the number of lines.
    pub fn end_line(self, count: u32) -> u32
        ensures { result ≡ end_line self count }
    {
        match self {
            Band::Whole | Band::From(_) => count,
            Band::Span(_, end) => end,
        }
    }

    /// Whether the band has a first and a last line, which are one.
    pub fn has_one_line(self) -> bool
        ensures { result ≡ has_one_line self }
    {
        match self {
            Band::Whole | Band::From(_) => false,
            Band::Span(start, end) => start as u64 + 1 == end as u64,
        }
    }

    /// The band cut at a grid of `count` lines, or None where its first line isn't there.
    pub(crate) fn clip(self, count: u32) -> Option<Band>
        requires { IsNonEmpty self }
        ensures inside { IsSome result ↔ (first_line self < count) }
        ensures cut { IfSome result (λ clipped. clipped ≡ cut_band self count) }
    {
        if count <= self.first_line() {
            return None;
        }
        Some(match self {
            Band::Span(start, end) => Band::Span(start, end.min(count)),
            unbounded => unbounded,
        })
    }

    /// Whether the band has the line.
    pub(crate) fn has_line(self, line: u32) -> bool
        ensures { IsTrue result ↔ HasLine self line }
    {
        match self {
            Band::Whole => true,
            Band::From(start) => start <= line,
            Band::Span(start, end) => start <= line && line < end,
        }
    }

    /// Whether one of `count` lines is in both bands.
    pub(crate) fn meets(self, other: Band, count: u32) -> bool
        ensures { IsTrue result ↔ ShareLine self other count }
    {
        let first = self.first_line().max(other.first_line());
        first < self.end_line(count).min(other.end_line(count)).min(count)
    }
}
