// A search as the stream has it: filled in by hand, and digested.
ghost use Rattle.std.specs.Prelude.{◌≡◌};
ghost use Rattle.tests_outcomes.specs.Digests.{digest};
ghost use Rattle.tests_calls.specs.Searches.{search_bytes, search_of};

use search::Search;
use tests_outcomes::digest::Digest;
use tests_stream::cases::Fields;

// The search with the fields that a case fills in by hand.
pub fn search_of(fields: Fields) -> Search
    ensures { result ≡ search_of fields }
{
    let pattern = fields.pattern;
    let tail = fields.tail;
    Search {
        pattern,
        pattern_len: fields.pattern_len,
        k: fields.k,
        method: fields.method,
        total: fields.total,
        tail,
        tail_len: fields.tail_len,
    }
}

// A search with every byte that it stores, those past the lengths included.
pub fn digest_search(before: Digest, search: Search) -> Digest
    ensures { result.value ≡ digest before.value (search_bytes search) }
{
    let pattern = search.pattern;
    let tail = search.tail;
    before.fields(
        &pattern,
        search.pattern_len,
        search.k,
        search.method,
        search.total,
        &tail,
        search.tail_len,
    )
}
