// Which patterns, tolerances and methods are taken: document 01, "When a call says no", 1 to 5; document 02, T-03, T-04 and, for 13, T-07.

#![tactic(auto)]

ghost use Rattle.std.specs.Prelude.{◌≡◌, ◌≤◌, length, IfOk};
ghost use Rattle.jumbled.specs.Refusals.{given, exact_only, method_tests, pattern_tests};
ghost use Rattle.table_parikh.specs.Table.{parikh};
ghost use Rattle.methods.specs.Numbers.{method_number};
ghost use Rattle.answers.specs.Numbers.{answer_number};
ghost use Rattle.admit_pattern.specs.Admits.{Admits};

use answers::Refusal;
use methods::Method;
use table_parikh::LOST_HOUR;

// The longest pattern.
pub const LONGEST_PATTERN: usize = 64;

// The method of this number takes no tolerance but 0.
#[tactic(auto, using(crate::proofs::Exact::not_exact), unfolding(jumbled::specs::Refusals::exact_only))]
pub fn exact_only(method: u8) -> bool
    ensures { result ≡ exact_only method }
{
    match Method::try_from(method) {
        Ok(Method::Bam | Method::Bam2 | Method::Hcam | Method::Ebl) => true,
        Ok(Method::Count | Method::Abam) | Err(_) => false,
    }
}

// Of a method's number for a pattern and a tolerance that are right in themselves: 3 to 5, the first that applies. Counts says how often the
// pattern has each byte.
#[tactic(auto, unfolding(jumbled::specs::Refusals::given, jumbled::specs::Refusals::method_tests, jumbled::specs::Refusals::known_tests, jumbled::specs::Refusals::exact_tests, jumbled::specs::Refusals::width_tests, jumbled::specs::Refusals::is_method))]
pub fn admit_method(
    pattern: &[u8],
    counts: &[u8; 256],
    k: u8,
    method: u8,
) -> Result<Method, Refusal>
    requires { (length pattern.now ≤ 64) × (counts.now ≡ parikh pattern.now) × (k ≤ 64) }
    ensures number { answer_number result ≡ given (method_tests pattern.now k method) }
    ensures method { IfOk result (λ taken. method_number taken ≡ method) }
{
    let Ok(taken) = Method::try_from(method) else {
        return Err(Refusal::UnknownMethod);
    };
    if 0 < k && exact_only(method) {
        return Err(Refusal::ToleranceNotTaken);
    }
    if 64 < table_widths::field_bits(pattern, counts, k as usize, method) {
        return Err(Refusal::FieldsTooWide);
    }
    Ok(taken)
}

// What a call goes by whose pattern, tolerance and method are taken: how often the pattern has each byte, which is counted once, and the method.
#[derive(Clone, Copy, Debug, PartialEq, Eq)]
pub struct Admitted {
    pub counts: [u8; 256],
    pub method: Method,
}

// Of a pattern, a tolerance and a method: 1, 13, 2 to 5, the first that applies.
#[tactic(auto, using(crate::proofs::Lost::lost_counted, crate::proofs::Lost::none_lost), unfolding(jumbled::specs::Refusals::given, jumbled::specs::Refusals::pattern_tests, jumbled::specs::Refusals::length_tests, jumbled::specs::Refusals::lost_tests, jumbled::specs::Refusals::tolerance_tests))]
pub fn admit(pattern: &[u8], k: u8, method: u8) -> Result<Admitted, Refusal>
    ensures { Admits pattern.now method (given (pattern_tests pattern.now k method)) result }
{
    let m = pattern.len();
    if m == 0 || LONGEST_PATTERN < m {
        return Err(Refusal::PatternLength);
    }
    let counts = table_parikh::counts(pattern);
    if 0 < counts[LOST_HOUR as usize] {
        return Err(Refusal::LostHourInPattern);
    }
    if m <= k as usize {
        return Err(Refusal::ToleranceTooLarge);
    }
    let method = admit_method(pattern, &counts, k, method)?;
    Ok(Admitted { counts, method })
}
