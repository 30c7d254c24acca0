// The thin reader of segment requests (the Rust's `SegmentRequestIter`): the request area, lent, and a cursor in it.
// Nothing is tested or computed here: the work is `request_area`'s and `RequestCursor`'s.
ghost use Rattle.std.specs.Prelude.{◌≡◌, ⊤};
ghost use Rattle.std.specs.Iterator.{YieldsFirst, MakesProgress, item_count};
ghost use Rattle.nak.specs.Requests.{area_of, next_request, cursor_after, pairs_left};

use crate::Nak;
use crate::requests::{NextRequest, RequestCursor};
use header::LargeFileFlag;

#[derive(Clone, Copy, Debug, PartialEq, Eq)]
pub struct SegmentRequestIter<'a> {
    // current_idx
    pub cursor: RequestCursor,
    // seq_req_raw
    pub area: &'a [u8],
    // large_file
    pub file: LargeFileFlag,
}

impl Nak {
    // At the start of the request area. `get_segment_requests_iterator` says whether there is anything to walk.
    pub fn segment_request_iter<'a>(self, buf: &'a [u8]) -> SegmentRequestIter<'a>
        ensures { (result.cursor ≡ record { at = 0 }) × (result.area.now ≡ area_of self buf.now) × (result.file ≡ self.header.file) }
    {
        SegmentRequestIter {
            cursor: RequestCursor { at: 0 },
            area: self.request_area(buf),
            file: self.header.file,
        }
    }

    // What stands at a cursor in the request area. Its parameters hold no reference in a struct, so its callers are proved like any others.
    pub fn next_request(self, buf: &[u8], cursor: RequestCursor) -> Option<NextRequest>
        ensures { result ≡ next_request (area_of self buf.now) self.header.file cursor.at }
    {
        self.segment_request_iter(buf).moved(cursor).peek()
    }
}

impl<'a> SegmentRequestIter<'a> {
    // What stands at its position, which stays.
    pub fn peek(self) -> Option<NextRequest>
        ensures { result ≡ next_request self.entry.area.now self.entry.file self.entry.cursor.at }
    {
        self.cursor.next(self.area, self.file)
    }

    // The same bytes at another position: the one that `peek` hands out behind a pair.
    pub fn moved(self, cursor: RequestCursor) -> SegmentRequestIter<'a>
        ensures { (result.cursor ≡ cursor) × (result.area ≡ self.entry.area) × (result.file ≡ self.entry.file) }
    {
        SegmentRequestIter {
            cursor,
            area: self.area,
            file: self.file,
        }
    }
}

// The pairs, first to last, each as start and end.
impl<'a> Iterator for SegmentRequestIter<'a> {
    type Item = (u64, u64);

    ghost next_gives = { YieldsFirst (λ s. pairs_left s.area.now s.file s.cursor.at) };

    ghost remaining = { item_count (λ s. pairs_left s.area.now s.file s.cursor.at) };

    fn next(&mut self) -> Option<(u64, u64)>
        ensures steps { YieldsFirst (λ s. pairs_left s.area.now s.file s.cursor.at) self.old result self.new }
        ensures goes { MakesProgress (λ _. ⊤) (item_count (λ s. pairs_left s.area.now s.file s.cursor.at)) self.old result self.new }
        ensures moves { (self.new.cursor ≡ cursor_after (next_request self.old.area.now self.old.file self.old.cursor.at) self.old.cursor) × (self.new.area ≡ self.old.area) × (self.new.file ≡ self.old.file) }
    {
        let request = self.cursor.next(self.area, self.file)?;
        self.cursor = request.next;
        Some((request.start, request.end))
    }
}
