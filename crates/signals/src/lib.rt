// Records copied without their signals: I_CSs is +0 where it was a finite number below zero.
#![tactic(auto)]

ghost use Rattle.std.specs.Prelude.{◌≡◌, ◌≤◌, length};
ghost use Rattle.bytes_le.specs.Buffer.{over};
ghost use Rattle.roll.specs.Directory.{cut};
ghost use Rattle.signals.specs.Records.{icss_end, signals, mended_record, mended_all, signalling};

use bytes_le::WORD_BYTES;
use clip::numbers;
use copying::copy;

// Where I_CSs stands among the bytes of a record.
const ICSS_AT: usize = WORD_BYTES * numbers::ICSS;

// Whether I_CSs of a record is a finite number below zero.
fn is_signal(bytes: &[u8]) -> bool
    ensures { result ≡ signals bytes.now }
{
    let word = bytes_le::u64_at(bytes, ICSS_AT);
    float::read(word).is_some_and(|x| x < 0.0)
}

// Puts a record at the start of a buffer, with +0 for such an I_CSs; tells whether it had one.
fn put_record(bytes: &[u8], dst: &mut [u8]) -> bool
    requires icss_end_in_bounds { icss_end ≤ length bytes.now }
    requires bytes_in_bounds { length bytes.now ≤ length dst.old }
    ensures value { result ≡ signals bytes.now }
    ensures dst_after { dst.new ≡ over (mended_record bytes.now) dst.old }
{
    copy(bytes, dst);
    if is_signal(bytes) {
        copy(&[0u8; WORD_BYTES], &mut dst[ICSS_AT..]);
        return true;
    }
    false
}

// Puts records of a size, one after the other, at the start of a buffer, each mended; tells how many had to be.
pub fn put_records(records: &[u8], size: usize, dst: &mut [u8]) -> usize
    requires icss_end_le_size { icss_end ≤ size }
    requires records_in_bounds { length records.now ≤ length dst.old }
    ensures value { (result ≡ signalling (cut size records.now)) × (result ≤ length records.now) }
    ensures dst_after { dst.new ≡ over (mended_all (cut size records.now)) dst.old }
{
    let mut n = 0;
    for (i, record) in records.chunks_exact(size).enumerate() {
        n += usize::from(put_record(record, &mut dst[size * i..]));
    }
    n
}
