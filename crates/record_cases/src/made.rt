// Bytes that a line gives the recipe of: noise, by the seed in field 3, but for those that other fields have, as they stand in the line:
// the highest of a word comes first. Of these as many count as there are places.
use cases::{Case, Noise};

/// The six bytes of a header, by field 0, and the eight of field 2 behind it.
pub fn make_bytes(case: &Case<6>, out: &mut [u8]) {
    noise_of(case).fill(out);
    let header = case.fields[0].to_be_bytes();
    let behind = case.fields[2].to_be_bytes();
    for (place, byte) in out.iter_mut().zip(header[2..].iter().chain(&behind)) {
        *place = *byte;
    }
}

/// The eight bytes of field 2 in front.
pub fn make_payload(case: &Case<6>, out: &mut [u8]) {
    noise_of(case).fill(out);
    for (place, byte) in out.iter_mut().zip(&case.fields[2].to_be_bytes()) {
        *place = *byte;
    }
}

fn noise_of(case: &Case<6>) -> Noise {
    Noise {
        seed: case.fields[3],
        base: 0,
        mask: 0xff,
    }
}
