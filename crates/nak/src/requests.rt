// The segment requests of a NAK: the request area as a part of the caller's bytes, and a cursor by value over it (the Rust's `SegmentRequestIter`).
ghost use Rattle.std.specs.Prelude.{◌≡◌};
ghost use Rattle.nak.specs.Requests.{area_of, next_request, requests_of};

use crate::{Nak, offset_at};
use header::LargeFileFlag;
use header::size::size_width;

// A position in a request area.
#[derive(Clone, Copy, PartialEq, Eq, Debug)]
pub struct RequestCursor {
    pub at: usize,
}

// A whole pair that stands at a cursor, and the cursor behind it.
#[derive(Clone, Copy, PartialEq, Eq, Debug)]
pub struct NextRequest {
    pub start: u64,
    pub end: u64,
    pub next: RequestCursor,
}

impl Nak {
    // The request area, as a part of the bytes that the NAK was read from. An area that does not lie in `buf` is empty.
    #[tactic(auto, unfolding(crate::specs::Requests::area_of))]
    pub fn request_area(self, buf: &[u8]) -> &[u8]
        ensures { result.now ≡ area_of self buf.now }
    {
        buf.get(self.area..self.stop).unwrap_or(&buf[..0])
    }

    // Where its requests are walked from, if its area is not empty.
    #[tactic(auto, unfolding(crate::specs::Requests::requests_of))]
    pub fn get_segment_requests_iterator(self, buf: &[u8]) -> Option<RequestCursor>
        ensures { result ≡ requests_of self buf.now }
    {
        if self.request_area(buf).is_empty() {
            return None;
        }
        Some(RequestCursor { at: 0 })
    }
}

impl RequestCursor {
    // What stands at it, if a whole pair is left.
    pub fn next(self, area: &[u8], file: LargeFileFlag) -> Option<NextRequest>
        ensures { result ≡ next_request area.now file self.at }
    {
        let at = self.at;
        let width = size_width(file);
        // Kept: two tests. With one, of `area.len().saturating_sub(at)`, walking 8,190 pairs took 10.7 us and not 6.7.
        if area.len() < at {
            return None;
        }
        if area.len() - at < 2 * width {
            return None;
        }
        Some(NextRequest {
            start: offset_at(area, at, file),
            end: offset_at(area, at + width, file),
            next: RequestCursor { at: at + 2 * width },
        })
    }
}
