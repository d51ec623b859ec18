// Reads the saved form of a search from a slice: document 01, "The saved image", and document 02, T-06. First what the four entries say of the bodies,
// then the tests of the form and the parts themselves.

#![tactic(auto)]

ghost use Rattle.std.specs.Prelude.{◌≡◌, not, true, false, MatchOption, ◌+◌, ◌*◌, ◌^◌, ◌≤◌, ◌<◌, length};
ghost use Rattle.image_form.specs.Decode.{length_of, end_of, body_of, kinds_right, bad_form, parts_of};

use image_form::HEAD;

// The length that the entry of a kind says: that entry takes the bytes 3 * kind - 2 to 3 * kind.
fn length_of(image: &[u8], kind: usize) -> usize
    requires { (13 ≤ length image.now) × (1 ≤ kind) × (kind ≤ 4) }
    ensures { (result ≡ length_of kind image.now) × (result < 2 ^ 16) }
{
    u16::from_le_bytes([image[3 * kind - 1], image[3 * kind]]) as usize
}

// Where the body of a kind ends; 0 stands for what comes before the bodies.
fn end_of(image: &[u8], kind: usize) -> usize
    requires { (13 ≤ length image.now) × (kind ≤ 4) }
    ensures { (result ≡ end_of kind image.now) × (result < 2 ^ 19) }
{
    let mut end = HEAD;
    for before in 0..kind {
        end += length_of(image, before + 1);
    }
    end
}

// The entries are of the kinds 1, 2, 3 and 4, in this order.
#[tactic(auto, unfolding(image_form::specs::Decode::kinds_right, image_form::specs::Decode::kind_at))]
fn kinds_right(image: &[u8]) -> bool
    requires { 13 ≤ length image.now }
    ensures { result ≡ kinds_right image.now }
{
    image[1] == 1 && image[4] == 2 && image[7] == 3 && image[10] == 4
}

// The form is one that load takes.
#[tactic(auto, unfolding(image_form::specs::Decode::bad_form))]
fn well_formed(image: &[u8]) -> bool
    ensures { result ≡ not (bad_form image.now) }
{
    HEAD <= image.len()
        && image[0] == 4
        && kinds_right(image)
        && length_of(image, 2) == 2
        && length_of(image, 3) == 4
        && image.len() == end_of(image, 4)
}

// The body of a kind, as a part of the image.
fn body_of(image: &[u8], kind: usize) -> &[u8]
    requires { (bad_form image.now ≡ false) × (1 ≤ kind) × (kind ≤ 4) }
    ensures { result.now ≡ body_of kind image.now }
{
    let start = end_of(image, kind - 1);
    let end = start + length_of(image, kind);
    &image[start..end]
}

// An image whose form load takes, so that its parts can be read.
#[derive(Clone, Copy)]
pub struct Image<'a> {
    bytes: &'a [u8],
    ghost taken: { bad_form bytes.now ≡ false },
}

impl<'a> Image<'a> {
    // The bytes as an image, where they have that form.
    pub fn of(bytes: &'a [u8]) -> Option<Image<'a>>
        ensures { MatchOption result (bad_form bytes.now ≡ true) (λ image. (bad_form bytes.now ≡ false) × (image.bytes.now ≡ bytes.now)) }
    {
        if well_formed(bytes) {
            Some(Image { bytes })
        } else {
            None
        }
    }

    // The pattern that it holds.
    pub fn pattern(self) -> &'a [u8]
        ensures { result.now ≡ (parts_of self.entry.bytes.now).pattern }
    {
        body_of(self.bytes, 1)
    }

    // The tolerance.
    #[tactic(auto, using(image_form::proofs::Contents::two_bytes))]
    pub fn tolerance(self) -> u8
        ensures { result ≡ (parts_of self.entry.bytes.now).k }
    {
        body_of(self.bytes, 2)[0]
    }

    // The method.
    #[tactic(auto, using(image_form::proofs::Contents::two_bytes))]
    pub fn method(self) -> u8
        ensures { result ≡ (parts_of self.entry.bytes.now).method }
    {
        body_of(self.bytes, 2)[1]
    }

    // The total n.
    #[tactic(auto, using(image_form::proofs::Contents::four_bytes))]
    pub fn total(self) -> u32
        ensures { result ≡ (parts_of self.entry.bytes.now).total }
    {
        let bytes = body_of(self.bytes, 3);
        u32::from_le_bytes([bytes[0], bytes[1], bytes[2], bytes[3]])
    }

    // The tail.
    pub fn tail(self) -> &'a [u8]
        ensures { result.now ≡ (parts_of self.entry.bytes.now).tail }
    {
        body_of(self.bytes, 4)
    }
}
