// Searches: document 01, "A search and its calls".

#![tactic(auto)]

ghost use Rattle.std.specs.Prelude.{◌≡◌, ◌≤◌, ℕ};
ghost use Rattle.image_form.specs.Image.{parts_with};
ghost use Rattle.image_form.specs.Decode.{parts_of};
ghost use Rattle.admit_pattern.specs.Admits.{Admits};
ghost use Rattle.search.specs.declared.Search.{Search};
ghost use Rattle.search.specs.declared.FeedResult.{FeedResult};
ghost use Rattle.search.specs.declared.SaveResult.{SaveResult};
ghost use Rattle.search.specs.Searches.{pattern_of, tail_of, stored, blank_search};
ghost use Rattle.search.specs.Calls.{handed_number, Makes, HandsBack, Opened, Advancing, Feedable, FoundBy, fed_parts, AnswersFeed, Feeds, set_method_number, search_with_method, SetsMethod, Saves, parts_number, load_number, Loads};

use admit_pattern::Admitted;
use image_read::Image;
// The answers and whole search have crates of their own; all that a caller names is here too.
pub use answers::{Admission, Answer, Refusal, Saving, number_of};
pub use lent::SearchCounts;
pub use search_whole::whole;

// A search that goes on from chunk to chunk. Bytes past the lengths are no part of it.
#[derive(Clone, Copy)]
pub struct Search {
    pub pattern: [u8; 64],
    pub pattern_len: usize,
    pub k: u8,
    pub method: u8,
    // How many bytes were searched in all.
    pub total: u32,
    // The last bytes of these: as many as a window that ends in the next chunk can reach.
    pub tail: [u8; 63],
    pub tail_len: usize,
}

// A search, and whether the call that hands it back was refused.
#[derive(Clone, Copy)]
pub struct SearchResult {
    pub admission: Admission,
    pub search: Search,
}

// A search that was fed a chunk, and what was found.
#[derive(Clone, Copy)]
pub struct FeedResult {
    pub answer: Answer,
    pub search: Search,
}

// A search as it came, and what became of its image.
#[derive(Clone, Copy)]
pub struct SaveResult {
    pub saving: Saving,
    pub search: Search,
}

impl SearchResult {
    // The search that a call made, or the one that it hands back where it is refused.
    fn of(made: Result<Search, Refusal>, otherwise: Search) -> SearchResult
        ensures { (number : ℕ) (search : Search) → Makes number search made → HandsBack number search otherwise result }
    {
        match made {
            Ok(search) => SearchResult {
                admission: Ok(()),
                search,
            },
            Err(refusal) => SearchResult {
                admission: Err(refusal),
                search: otherwise,
            },
        }
    }
}

impl Search {
    // The longest pattern,
    pub const LONGEST_PATTERN: usize = admit_pattern::LONGEST_PATTERN;
    // the longest chunk, which is as long as the longest text,
    pub const LONGEST_CHUNK: usize = search_whole::LONGEST_TEXT;
    // and the blank search.
    pub const BLANK: Search = Search {
        pattern: [0; 64],
        pattern_len: 0,
        k: 0,
        method: 1,
        total: 0,
        tail: [0; 63],
        tail_len: 0,
    };

    // Its pattern.
    fn own_pattern(&self) -> &[u8]
        requires { self.now.pattern_len ≤ 64 }
        ensures { result.now ≡ pattern_of self.now }
    {
        &self.pattern[..self.pattern_len]
    }

    // Its tail.
    fn own_tail(&self) -> &[u8]
        requires { self.now.tail_len ≤ 63 }
        ensures { result.now ≡ tail_of self.now }
    {
        &self.tail[..self.tail_len]
    }

    // The search with these parts, if they pass the tests of a search: those of open, then 9.
    fn with_parts(
        pattern: &[u8],
        k: u8,
        method: u8,
        total: u32,
        tail: &[u8],
    ) -> Result<Search, Refusal>
        ensures { Makes (parts_number (parts_with pattern.now k method total tail.now)) (stored (parts_with pattern.now k method total tail.now)) result }
    {
        search_state::admit_parts(pattern, k, method, total, tail.len())?;
        Ok(Search {
            pattern: search_state::stored(pattern),
            pattern_len: pattern.len(),
            k,
            method,
            total,
            tail: search_state::stored(tail),
            tail_len: tail.len(),
        })
    }

    // A search for a pattern, of nothing yet.
    pub fn open(pattern: &[u8], k: u8, method: u8) -> SearchResult
        ensures { Opened pattern.now k method result }
    {
        let fresh = Search::with_parts(pattern, k, method, 0, &pattern[..0]);
        SearchResult::of(fresh, Search::BLANK)
    }

    // The search that an image holds.
    fn read(bytes: &[u8]) -> Result<Search, Refusal>
        ensures { Makes (load_number bytes.now) (stored (parts_of bytes.now)) result }
    {
        let Some(image) = Image::of(bytes) else {
            return Err(Refusal::Malformed);
        };
        Search::with_parts(
            image.pattern(),
            image.tolerance(),
            image.method(),
            image.total(),
            image.tail(),
        )
    }

    // The same, handed back with whether the image was refused.
    pub fn load(bytes: &[u8]) -> SearchResult
        ensures { Loads bytes.now result }
    {
        SearchResult::of(Search::read(bytes), Search::BLANK)
    }

    // The tests of a search handed in, which may have been filled in by hand: those of open, then 9.
    fn checked(&self) -> Result<Admitted, Refusal>
        ensures { Admits (pattern_of self.now) self.now.method (handed_number self.now) result }
    {
        if Search::LONGEST_PATTERN < self.pattern_len {
            return Err(Refusal::PatternLength);
        }
        let pattern = self.own_pattern();
        search_state::admit_parts(pattern, self.k, self.method, self.total, self.tail_len)
    }

    // The same search with another method, if both are taken.
    fn with_method(self, method: u8) -> Result<Search, Refusal>
        ensures { Makes (set_method_number self method) (search_with_method self method) result }
    {
        let admitted = self.checked()?;
        admit_pattern::admit_method(self.own_pattern(), &admitted.counts, self.k, method)?;
        Ok(Search { method, ..self })
    }

    // The same search, to go on by another method.
    pub fn set_method(self, method: u8) -> SearchResult
        ensures { SetsMethod self method result }
    {
        SearchResult::of(self.with_method(method), self)
    }

    // The positions of the windows that end in the chunk, in the list's first places.
    fn searched(&self, admitted: &Admitted, chunk: &[u8], list: &mut [u32]) -> SearchCounts
        requires { Feedable self.now admitted.now chunk.now list.old }
        ensures { FoundBy self.now chunk.now list.old list.new result }
    {
        let base = self.total as usize - self.tail_len;
        chunk_search::search_chunk(
            self.own_pattern(),
            &admitted.counts,
            self.k,
            admitted.method,
            self.own_tail(),
            chunk,
            base,
            list,
        )
    }

    // The search once a chunk was searched: the total has grown, and the tail has moved on.
    fn advanced(self, chunk: &[u8]) -> Search
        requires { Advancing self chunk.now }
        ensures { result ≡ stored (fed_parts self chunk.now) }
    {
        let total = self.total as usize + chunk.len();
        let keep = search_state::tail_length(self.pattern_len, total);
        Search {
            pattern: search_state::stored(self.own_pattern()),
            pattern_len: self.pattern_len,
            k: self.k,
            method: self.method,
            total: total as u32,
            tail: search_state::next_tail(self.own_tail(), chunk, keep),
            tail_len: keep,
        }
    }

    // What a feed answers.
    fn answered(self, chunk: &[u8], list: &mut [u32]) -> Answer
        ensures { AnswersFeed self chunk.now list.old list.new result }
    {
        let admitted = self.checked()?;
        admit_chunk::limits(Search::LONGEST_CHUNK, self.total, chunk.len(), list.len())?;
        Ok(self.searched(&admitted, chunk, list))
    }

    // A chunk more: the positions of the windows that end in it, in the list's first places.
    pub fn feed(self, chunk: &[u8], list: &mut [u32]) -> FeedResult
        ensures { Feeds self chunk.now list.old list.new result }
    {
        match self.answered(chunk, list) {
            Ok(counts) => FeedResult {
                answer: Ok(counts),
                search: self.advanced(chunk),
            },
            Err(refusal) => FeedResult {
                answer: Err(refusal),
                search: self, // as it came, and the list too
            },
        }
    }

    // What a save answers.
    fn saved(&self, buffer: &mut [u8]) -> Saving
        ensures { Saves self.now buffer.old buffer.new (record { saving = result; search = self.now }) }
    {
        self.checked()?;
        image_write::save_parts(
            self.own_pattern(),
            self.k,
            self.method,
            self.total,
            self.own_tail(),
            buffer,
        )
    }

    // The search's image in the buffer's first bytes, and the search as it came.
    pub fn save(self, buffer: &mut [u8]) -> SaveResult
        ensures { Saves self buffer.old buffer.new result }
    {
        SaveResult {
            saving: self.saved(buffer),
            search: self,
        }
    }
}
