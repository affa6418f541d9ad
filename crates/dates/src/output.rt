// What several answers have. A row is put together and written at once: a write for each of its pieces would cost more than the pieces.
use arrayvec::ArrayVec;
use printing::push_number;
use refusals::Refusal;

// No row is longer: five numbers of at most twenty bytes each, with a byte before or behind each, and a word.
pub(crate) const ROW: usize = 128;

pub(crate) fn push_text(row: &mut ArrayVec<u8, ROW>, text: &[u8]) {
    let _ = row.try_extend_from_slice(text);
}

pub(crate) fn push_refusal(row: &mut ArrayVec<u8, ROW>, why: Refusal) {
    push_text(row, b"refused ");
    push_number(row, u64::from(why));
}
