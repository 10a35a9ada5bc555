// Records. A part of the caller's bytes does not cross to C, so its place and its length stand for it.
ghost use Rattle.record.specs.Promises.{Write};
ghost use Rattle.capi.specs.Promises as promises;

use record::Written;

// What `record::read` answers, and then where the payload stands in the bytes that were given. On a refusal place and length are 0.
#[repr(C)]
#[derive(Clone, Copy)]
pub struct RecordRead {
    pub refusal: u32,
    pub kind: u32,
    pub size: usize,
    pub payload_at: usize,
    pub payload_len: usize,
}

pub fn aspeyruni_record_read(bytes: &[u8]) -> RecordRead
    ensures { promises.RecordRead bytes.now result }
{
    match record::read(bytes) {
        Ok(header) => RecordRead {
            refusal: 0,
            kind: u32::from(header.kind),
            size: header.size(),
            payload_at: 6,
            payload_len: header.len,
        },
        Err(refusal) => RecordRead {
            refusal: u32::from(refusal),
            kind: 0,
            size: 0,
            payload_at: 0,
            payload_len: 0,
        },
    }
}

pub fn aspeyruni_record_write(kind: u32, payload: &[u8], out: &mut [u8]) -> Written
    ensures { Write kind payload.now out.old result out.new }
{
    Written::from(record::write(kind, payload, out))
}
