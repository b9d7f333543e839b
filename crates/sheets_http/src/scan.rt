ghost use Rattle.std.specs.Prelude.{◌≡◌, ◌≢◌, ℕ, ◌+◌, ◌^◌, ◌<◌, ◌≤◌, length, take, slice_index, nat_eq};
ghost use Rattle.std.specs.List.{ends_with};
ghost use Rattle.sheets_http.specs.Heads.{is_break, ends_with_empty_line, head_limit, line_limit, is_too_long, head_state};
ghost use Rattle.sheets_http.specs.Scanning.{IsScan, scan_after};

use memchr::memchr;

/// How many bytes a head has at most, with the empty lines before it.
const HEAD_LIMIT: usize = 16_384;

/// How many lines a head has at most.
pub(crate) const LINE_LIMIT: usize = 66;

/// How a head stands of which the first bytes are known.
#[derive(Clone, Copy, Debug, PartialEq, Eq)]
pub(crate) enum HeadState {
    /// It may go on.
    Growing,
    /// It is whole.
    Whole,
    /// It is too long.
    TooLong,
}

/// How far a head has been looked at: the bytes seen, those of them that are passed over before
/// it, and the line feeds behind these.
#[derive(Clone, Copy, Debug)]
pub(crate) struct HeadScan {
    pub(crate) seen: usize,
    pub(crate) skipped: usize,
    pub(crate) feeds: usize,
}

impl HeadScan {
    pub(crate) const START: HeadScan = HeadScan {
        seen: 0,
        skipped: 0,
        feeds: 0,
    };

    /// The scan with one more byte.
    fn after(self, byte: u8) -> HeadScan
        requires seen { self.seen + 1 < 2 ^ 64 }
        requires ordered { self.skipped ≤ self.seen }
        requires few { self.feeds ≤ line_limit }
        ensures { result ≡ scan_after self byte }
    {
        if self.skipped == self.seen && is_break(byte) {
            HeadScan {
                seen: self.seen + 1,
                skipped: self.skipped + 1,
                feeds: self.feeds,
            }
        } else {
            HeadScan {
                seen: self.seen + 1,
                skipped: self.skipped,
                feeds: self.feeds + usize::from(byte == b'\n'),
            }
        }
    }

    /// Looks at one more byte.
    fn step(&mut self, bytes: &[u8]) -> HeadState
        requires scan { IsScan self.old bytes.now }
        requires growing { head_state (take self.old.seen bytes.now) ≡ HeadState.Growing }
        requires more { self.old.seen < length bytes.now }
        ensures scan { IsScan self.new bytes.now }
        ensures seen { self.new.seen ≡ self.old.seen + 1 }
        ensures result { result ≡ head_state (take self.new.seen bytes.now) }
    {
        *self = self.after(bytes[self.seen]);
        self.assess(bytes)
    }

    /// How the head stands of which the bytes seen are the first.
    fn assess(&self, bytes: &[u8]) -> HeadState
        requires { IsScan self.now bytes.now }
        ensures { result ≡ head_state (take self.now.seen bytes.now) }
    {
        let text = &bytes[self.skipped..self.seen];
        if ends_with_empty_line(text) {
            HeadState::Whole
        } else if is_too_long(self.seen, self.feeds) {
            HeadState::TooLong
        } else {
            HeadState::Growing
        }
    }

    /// Passes over the bytes of a head that has begun before its next line feed, or before the last one of
    /// those before `end` and within the limit.
    fn pass_line(&mut self, bytes: &[u8], end: usize)
        requires scan { IsScan self.old bytes.now }
        requires growing { head_state (take self.old.seen bytes.now) ≡ HeadState.Growing }
        requires short { self.old.seen < head_limit }
        requires more { self.old.seen < end }
        requires end { end ≤ length bytes.now }
        ensures scan { IsScan self.new bytes.now }
        ensures growing { head_state (take self.new.seen bytes.now) ≡ HeadState.Growing }
        ensures on { self.old.seen ≤ self.new.seen }
        ensures more { self.new.seen < end }
    {
        if self.skipped < self.seen {
            let last = end.min(HEAD_LIMIT) - 1;
            self.seen += line_length(&bytes[self.seen..last]);
        }
    }

    /// Looks at the bytes that weren't seen yet, before `end`, until they settle how the head stands.
    pub(crate) fn find(&mut self, bytes: &[u8], end: usize) -> HeadState
        requires scan { IsScan self.old bytes.now }
        requires growing { head_state (take self.old.seen bytes.now) ≡ HeadState.Growing }
        requires end { end ≤ length bytes.now }
        ensures scan { IsScan self.new bytes.now }
        ensures result { result ≡ head_state (take self.new.seen bytes.now) }
        ensures growing { result ≡ HeadState.Growing → end ≤ self.new.seen }
        ensures settled { result ≢ HeadState.Growing → self.new.seen ≤ end }
    {
        while self.seen < end {
            self.pass_line(bytes, end);
            let head_state = self.step(bytes);
            if head_state != HeadState::Growing {
                return head_state;
            }
        }
        HeadState::Growing
    }
}

/// Whether a byte is CR or LF.
pub(crate) fn is_break(byte: u8) -> bool
    ensures { result ≡ is_break byte }
{
    byte == b'\r' || byte == b'\n'
}

/// How many bytes stand before the first line feed.
fn line_length(bytes: &[u8]) -> usize
    ensures within { result ≤ length bytes.now }
    ensures no_feed { (k : ℕ) → k < result → slice_index bytes.now k ≢ 10 }
{
    memchr(b'\n', bytes).unwrap_or(bytes.len())
}

/// Whether the bytes end with an empty line.
fn ends_with_empty_line(bytes: &[u8]) -> bool
    ensures { result ≡ ends_with_empty_line bytes.now }
{
    has_end(bytes, b"\n\n") || has_end(bytes, b"\n\r\n")
}

/// Whether the bytes end with these, as `ends_with` says, but without a call where these are
/// constant.
fn has_end(bytes: &[u8], end: &[u8]) -> bool
    ensures { result ≡ ends_with nat_eq bytes.now end.now }
{
    bytes.len() >= end.len() && end == &bytes[bytes.len() - end.len()..]
}

/// Whether a head that isn't whole has too many bytes or lines.
fn is_too_long(read: usize, feeds: usize) -> bool
    ensures { result ≡ is_too_long read feeds }
{
    read >= HEAD_LIMIT || feeds >= LINE_LIMIT
}
