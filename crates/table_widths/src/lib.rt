// How wide the fields of methods 2, 3 and 4 are: document 01, "The five methods", and document 02, T-03.

#![tactic(auto)]

ghost use Rattle.std.specs.Prelude.{◌≡◌, ◌≤◌, length};
ghost use Rattle.jumbled.specs.Match.{sum};
ghost use Rattle.jumbled.specs.Fields.{lg as lg_of, letter_width, layout_of, width_of, bits};
ghost use Rattle.table_parikh.specs.Table.{parikh};
ghost use Rattle.methods.specs.Numbers.{method_number};
ghost use Rattle.table_widths.specs.Counted.{PatternCounted, SomeCounted};

use methods::Method;
use table_parikh::Span;

// lg(v) for v from 0 to 64, each beside its v, as on the printed card: document 02, T-05.
const LG: [u8; 65] = [
    0, // 0
    0, // 1
    1, // 2
    2, // 3
    2, // 4
    3, // 5
    3, // 6
    3, // 7
    3, // 8
    4, // 9
    4, // 10
    4, // 11
    4, // 12
    4, // 13
    4, // 14
    4, // 15
    4, // 16
    5, // 17
    5, // 18
    5, // 19
    5, // 20
    5, // 21
    5, // 22
    5, // 23
    5, // 24
    5, // 25
    5, // 26
    5, // 27
    5, // 28
    5, // 29
    5, // 30
    5, // 31
    5, // 32
    6, // 33
    6, // 34
    6, // 35
    6, // 36
    6, // 37
    6, // 38
    6, // 39
    6, // 40
    6, // 41
    6, // 42
    6, // 43
    6, // 44
    6, // 45
    6, // 46
    6, // 47
    6, // 48
    6, // 49
    6, // 50
    6, // 51
    6, // 52
    6, // 53
    6, // 54
    6, // 55
    6, // 56
    6, // 57
    6, // 58
    6, // 59
    6, // 60
    6, // 61
    6, // 62
    6, // 63
    6, // 64
];

// The smallest e with 2^e at least v and at least 1: document 01, "The five methods", the sentence above the list.
pub fn lg(v: usize) -> usize
    requires { v ≤ 64 }
    ensures { result ≡ lg_of v }
{
    LG[v] as usize
}

// The width of the field of a byte that the pattern has count times, in methods 2 and 3: document 02, T-03. `lg` is promised up to 64
// only, so it is not asked for 65.
#[tactic(auto, using(crate::proofs::Widths::letter_steps))]
fn letter_width(count: usize) -> usize
    requires { count ≤ 64 }
    ensures { result ≡ letter_width count }
{
    if count < 64 { lg(count + 1) + 1 } else { 8 }
}

// The width of the field of a byte that the pattern has count times: document 01, "The five methods", 2 to 4, and document 02, T-03.
#[tactic(auto, using(crate::proofs::Widths::widths), unfolding(jumbled::specs::Fields::layout_of))]
fn method_own_width(count: usize, k: usize, method: Method) -> usize
    requires { (count ≤ 64) × (k ≤ 64) }
    ensures { result ≡ (layout_of k (method_number method)).own count }
{
    match method {
        Method::Bam | Method::Bam2 => letter_width(count),
        Method::Abam => lg(count.max(k)) + 2,
        _ => 0,
    }
}

// The width of the field that all other bytes share: 2 to 4 there.
#[tactic(auto, using(crate::proofs::Widths::widths), unfolding(jumbled::specs::Fields::layout_of))]
fn method_shared_width(k: usize, method: Method) -> usize
    requires { k ≤ 64 }
    ensures { result ≡ (layout_of k (method_number method)).common }
{
    match method {
        Method::Bam => 1,
        Method::Bam2 => 2,
        Method::Abam => lg(k) + 2,
        _ => 0,
    }
}

// The bits of the fields of a pattern's own bytes, by how often it has each.
fn method_own_bits(counts: &[u8; 256], span: Span, k: usize, method: Method) -> usize
    requires { (SomeCounted counts.now span) × (k ≤ 64) }
    ensures { (of : SomeCounted counts.now span) → result ≡ sum 256 (width_of of.pattern (layout_of k (method_number method))) }
{
    let past = span.past;
    let mut total = 0;
    for count in &counts[span.low.min(past)..past] {
        let count = *count as usize;
        if 0 < count {
            total += method_own_width(count, k, method);
        }
    }
    total
}

// The three by a method's number, which may be any; one that no method has has no fields. The width of the field of a byte that the pattern
// has count times,
#[tactic(auto, using(crate::proofs::Widths::unknown_layout))]
pub fn own_width(count: usize, k: usize, method: u8) -> usize
    requires { (count ≤ 64) × (k ≤ 64) }
    ensures { result ≡ (layout_of k method).own count }
{
    match Method::try_from(method) {
        Ok(method) => method_own_width(count, k, method),
        Err(_) => 0,
    }
}

// that of the field that all other bytes share,
#[tactic(auto, using(crate::proofs::Widths::unknown_layout))]
pub fn shared_width(k: usize, method: u8) -> usize
    requires { k ≤ 64 }
    ensures { result ≡ (layout_of k method).common }
{
    match Method::try_from(method) {
        Ok(method) => method_shared_width(k, method),
        Err(_) => 0,
    }
}

// and the bits of the fields of a pattern's own bytes.
#[tactic(auto, using(crate::proofs::Widths::unknown_layout, crate::proofs::Widths::widths_none))]
pub fn own_bits(counts: &[u8; 256], span: Span, k: usize, method: u8) -> usize
    requires { (SomeCounted counts.now span) × (k ≤ 64) }
    ensures { (of : SomeCounted counts.now span) → result ≡ sum 256 (width_of of.pattern (layout_of k method)) }
{
    match Method::try_from(method) {
        Ok(method) => method_own_bits(counts, span, k, method),
        Err(_) => 0,
    }
}

// A pattern beside a method that may have fields for its bytes, and what the fields' widths are measured from.
#[derive(Clone, Copy)]
pub struct PatternFields<'a> {
    pub pattern: &'a [u8],
    // How often the pattern has each byte,
    pub counts: &'a [u8; 256],
    // and where these bytes are.
    pub span: Span,
    pub k: usize,
    pub method: Method,
    pub ghost counted: { PatternCounted pattern.now counts.now span },
    pub ghost tolerance: { k ≤ 64 },
}

impl<'a> PatternFields<'a> {
    ghost use Rattle.table_widths.specs.Layouts.{layout};

    // Of a pattern that is counted already.
    pub fn of(pattern: &'a [u8], counts: &'a [u8; 256], k: usize, method: Method) -> Self
        requires { (length pattern.now ≤ 64) × (counts.now ≡ parikh pattern.now) × (k ≤ 64) }
        ensures { (result.pattern.now ≡ pattern.now) × (result.k ≡ k) × (result.method ≡ method) }
    {
        PatternFields {
            pattern,
            counts,
            span: table_parikh::span_of(pattern),
            k,
            method,
        }
    }

    // The width of the field of a byte that the pattern has count times.
    pub fn own_width(&self, count: usize) -> usize
        requires { count ≤ 64 }
        ensures { result ≡ (layout self.now).own count }
    {
        method_own_width(count, self.k, self.method)
    }

    // The width of the field that all other bytes share.
    pub fn shared_width(&self) -> usize
        ensures { result ≡ (layout self.now).common }
    {
        method_shared_width(self.k, self.method)
    }

    // The bits of the fields of the pattern's own bytes.
    pub fn own_bits(&self) -> usize
        ensures { result ≡ sum 256 (width_of self.now.pattern.now (layout self.now)) }
    {
        method_own_bits(self.counts, self.span, self.k, self.method)
    }
}

// The bits that all fields of a method need together. Only methods 2 to 4 have fields to measure.
#[tactic(auto, using(crate::proofs::Widths::no_bits))]
fn method_bits(pattern: &[u8], counts: &[u8; 256], k: usize, method: Method) -> usize
    requires { (length pattern.now ≤ 64) × (counts.now ≡ parikh pattern.now) × (k ≤ 64) }
    ensures { result ≡ bits pattern.now (layout_of k (method_number method)) }
{
    match method {
        Method::Bam | Method::Bam2 | Method::Abam => {
            let fields = PatternFields::of(pattern, counts, k, method);
            fields.own_bits() + fields.shared_width()
        }
        _ => 0,
    }
}

// The same by a method's number, which may be any: document 01, "When a call says no", 5. A number that no method has has no fields.
pub fn field_bits(pattern: &[u8], counts: &[u8; 256], k: usize, method: u8) -> usize
    requires { (length pattern.now ≤ 64) × (counts.now ≡ parikh pattern.now) × (k ≤ 64) }
    ensures { result ≡ bits pattern.now (layout_of k method) }
{
    match Method::try_from(method) {
        Ok(method) => method_bits(pattern, counts, k, method),
        Err(_) => 0,
    }
}
