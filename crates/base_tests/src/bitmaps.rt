//! Tests of what no clause of `arrow_array` says.
use arrow_array::Bitmap;

/// Whether these are 64 bits that are set, and one that isn't.
fn is_a_word_and_one_bit(bitmap: &Bitmap) -> bool {
    (bitmap.len() == 65 && bitmap.offset() == 0)
        && (bitmap.get(63) && !bitmap.get(64) && bitmap.unset_bits() == 1)
        && bitmap.words() == [u64::MAX, 0].as_slice()
}

#[test]
fn sixty_five_values_fill_a_word_and_one_bit(rt: HostRuntime) {
    let mut values = vec![in rt.alloc(); true; 64].expect(&rt, "memory");
    values.push(false).expect(&rt, "memory");
    let bitmap = Bitmap::try_from_slice(rt.alloc(), &values).expect(&rt, "memory");
    assert!(rt; is_a_word_and_one_bit(&bitmap));
    drop((values, bitmap));
}

/// Whether these are 64 bits from the third on, of which the first and the last but one are set.
fn is_from_the_third_on(slice: &Bitmap) -> bool {
    (slice.len() == 64 && slice.offset() == 2)
        && (slice.get(0) && !slice.get(1) && slice.get(62) && !slice.get(63))
        && slice.unset_bits() == 62
}

#[test]
fn a_slice_begins_at_another_bit(rt: HostRuntime) {
    let words = [0b0101, 0b1].to_vec(rt.alloc()).expect(&rt, "memory");
    let bitmap = Bitmap::try_from_words(words, 66).expect(&rt, "66 bits are there");
    assert!(rt; bitmap.len() == 66);
    let slice = bitmap.slice(2, 64).expect(&rt, "memory");
    assert!(rt; is_from_the_third_on(&slice));
    drop((bitmap, slice));
}
