// The six methods, which a call names by their numbers: document 01, "The five methods", 1 to 5; document 02, T-04, for 6.

#![tactic(auto)]

ghost use Rattle.methods.specs.Numbers.{Names};

// The methods by the papers' names.
#[derive(Clone, Copy, Debug, PartialEq, Eq)]
pub enum Method {
    // 1: a sliding window, judged by its counts.
    Count,
    // 2: packed fields, read backward;
    Bam,
    // 3: the same by pairs of bytes,
    Bam2,
    // 4: and with up to k errors.
    Abam,
    // 5: heap values.
    Hcam,
    // 6: backward, without counters.
    Ebl,
}

// A number that no method has.
#[derive(Clone, Copy, Debug, PartialEq, Eq)]
pub struct UnknownMethod;

impl TryFrom<u8> for Method {
    type Error = UnknownMethod;

    ghost try_from_gives = { Names };

    fn try_from(number: u8) -> Result<Method, UnknownMethod> {
        match number {
            1 => Ok(Method::Count),
            2 => Ok(Method::Bam),
            3 => Ok(Method::Bam2),
            4 => Ok(Method::Abam),
            5 => Ok(Method::Hcam),
            6 => Ok(Method::Ebl),
            _ => Err(UnknownMethod),
        }
    }
}
