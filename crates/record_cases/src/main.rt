// Runs the reader and the writer of `record` on a list of cases, and compares with the answers that the request gives, by a second
// program that was written from it (oracle/record_cases.rs).
//
// A line has six fields, and the last is the answer. Bytes are noise, but for those that a line shows (made.rt). For the reader, whose
// letters are those in `read`:
//
//     0    the six bytes of a header, as they stand, in the last twelve digits
//     1    how many bytes there are, header and payload and what may lie behind; a header may be cut too
//     2    the eight bytes behind the header, as they stand
//     3    the seed of the noise, from the first byte on
//     4    0
//
// For the writer, whose letters are those in `written`:
//
//     0    the kind
//     1    how many bytes the payload has
//     2    its first eight bytes, as they stand; of a shorter one the first of these
//     3    the seed of the noise, from the payload's first byte on
//     4    how many places of the buffer it is lent
#![tactic(auto)]

mod made;

use cases::{Case, Compared, Noise, Program, halves, hash_bytes};
use made::{make_bytes, make_payload};

// What the writer's buffer holds before.
const BEFORE: Noise = Noise {
    seed: 0x2545_f491_4f6c_dd1d,
    base: 0,
    mask: 0xff,
};

// The reader and the writer: nothing is kept from line to line.
#[derive(Drop)]
struct Records;

impl Program<6> for Records {
    // The reader's letters are in lower case, the writer's in upper case.
    fn answer(&mut self, case: &Case<6>) -> Option<Compared> {
        let got = if case.letter < b'a' {
            written(case)?
        } else {
            read(case)?
        };
        Some(Compared {
            got,
            want: case.fields[5],
        })
    }
}

fn main(rt: HostRuntime) {
    cases::replay(
        "record_cases",
        &mut Records,
        &mut rt.stdin(),
        &mut rt.stdout(),
    );
}

// What the reader answers, or nothing where no function has the letter, or there are too many bytes.
fn read(case: &Case<6>) -> Option<u64> {
    let count = case.fields[1] as usize;
    if 65536 < count {
        return None;
    }
    let mut bytes = [0u8; 65536];
    let bytes = &mut bytes[..count];
    make_bytes(case, bytes);
    let got = record::read(bytes);
    let answer = match case.letter {
        b'r' => u64::from(refusal::number(&got)),
        b'k' => got.map_or(0, |header| u64::from(u32::from(header.kind))),
        b's' => got.map_or(0, |header| header.size() as u64),
        b'p' => hash_bytes(record::payload(bytes)),
        _ => return None,
    };
    Some(answer)
}

// The same of the writer. The buffer is longer than what is lent, and all of it is hashed: what should not be written would show.
fn written(case: &Case<6>) -> Option<u64> {
    let (_, kind) = halves(case.fields[0]);
    let count = case.fields[1] as usize;
    let room = case.fields[4] as usize;
    if 4112 < count || 4112 < room {
        return None;
    }
    let mut payload = [0u8; 4112];
    let mut buffer = [0u8; 4112];
    let payload = &mut payload[..count];
    make_payload(case, payload);
    BEFORE.fill(&mut buffer);
    let got = record::write(kind, payload, &mut buffer[..room]);
    let answer = match case.letter {
        b'R' => u64::from(refusal::number(&got)),
        b'W' => got.unwrap_or(0) as u64,
        b'B' => hash_bytes(&buffer),
        _ => return None,
    };
    Some(answer)
}
