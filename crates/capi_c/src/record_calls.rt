// Records. A part of the caller's bytes does not cross to C, so its place and its length stand for it.
ghost use Rattle.record.specs.Promises.{Write};
ghost use Rattle.capi.specs.Promises as promises;

use capi::RecordRead;
use record::Written;

#[unsafe(no_mangle)]
pub extern "C" fn aspeyruni_record_read(bytes: &[u8]) -> RecordRead
    ensures { promises.RecordRead bytes.now result }
{
    capi::aspeyruni_record_read(bytes)
}

#[unsafe(no_mangle)]
pub extern "C" fn aspeyruni_record_write(kind: u32, payload: &[u8], out: &mut [u8]) -> Written
    ensures { Write kind payload.now out.old result out.new }
{
    capi::aspeyruni_record_write(kind, payload, out)
}
